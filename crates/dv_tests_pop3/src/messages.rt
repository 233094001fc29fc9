//! Messages of any bytes, and messages whose files are spoilt.

use crate::cases::{Case, NONE, check_all};
use std::test::Fail;

const HELD: &[Case] = &[
    // a line that begins with a period gets another, and a lone line feed a return before it
    Case {
        messages: &[b".a\nb"],
        script: b"RETR 1\nRETR 2\n",
        output: "+OK\r\n+OK 5\r\n..a\r\nb\r\n.\r\n-ERR NONE\r\nEND 0 MARK 1:72 GROUPS 0\n",
        ..NONE
    },
    Case {
        messages: &[b"one\n.two\r\n\n..\n.\n"],
        script: b"RETR 1\n",
        output: "+OK\r\n+OK 20\r\none\r\n..two\r\n\r\n...\r\n..\r\n.\r\nEND 0 MARK 1:72 GROUPS 0\n",
        ..NONE
    },
    // one of no bytes, of a line end alone, and of a period
    Case {
        messages: &[b"", b"\n", b"\r\n", b"."],
        script: b"LIST\nRETR 1\nRETR 2\nRETR 3\nRETR 4\n",
        output: "+OK\r\n+OK\r\n1 0\r\n2 2\r\n3 2\r\n4 1\r\n.\r\n+OK 0\r\n.\r\n\
            +OK 2\r\n\r\n.\r\n+OK 2\r\n\r\n.\r\n+OK 1\r\n..\r\n.\r\nEND 0 MARK 1:120 GROUPS 0\n",
        ..NONE
    },
    // returns that no line feed follows, at the end too: what is sent may have two bytes more
    Case {
        messages: &[b"a\r", b"a\r\rb\n\r\n", b"\r.\n.\r.\n"],
        script: b"STAT\nRETR 1\nRETR 2\nRETR 3\n",
        output: "+OK\r\n+OK 3 19\r\n+OK 2\r\na\r\r\n.\r\n+OK 8\r\na\r\rb\r\n\r\n.\r\n\
            +OK 9\r\n\r.\r\n..\r.\r\n.\r\nEND 0 MARK 1:104 GROUPS 0\n",
        ..NONE
    },
    // bytes that are no text
    Case {
        messages: &[b"\x00\xff\n"],
        script: b"LIST 1\n",
        output: "+OK\r\n+OK 1 4\r\nEND 0 MARK 1:72 GROUPS 0\n",
        ..NONE
    },
];

#[test]
fn messages_are_sent_line_by_line(rt: HostRuntime) -> Result<(), Fail> {
    check_all(&rt, rt.alloc(), HELD)
}

const SPOILT: &[Case] = &[
    // all of them
    Case {
        messages: &[b"1", b"22"],
        spoilt: &[(1, Some(b"2")), (2, None)],
        script: b"STAT\nLIST\nUIDL\nRETR 1\nDELE 2\nQUIT\n",
        output: "+OK\r\n+OK 0 0\r\n+OK\r\n.\r\n+OK\r\n.\r\n-ERR NONE\r\n-ERR NONE\r\n+OK\r\n\
            END 0 MARK 1:88 GROUPS 0\n",
        ..NONE
    },
    // one, so that those behind it have other numbers
    Case {
        messages: &[b"1", b"22", b"333"],
        spoilt: &[(2, Some(b""))],
        script: b"STAT\nUIDL\nRETR 2\nDELE 2\nQUIT\n",
        output: "+OK\r\n+OK 2 4\r\n+OK\r\n1 1000.1\r\n2 1000.3\r\n.\r\n+OK 3\r\n333\r\n.\r\n\
            +OK\r\n+OK\r\nEND 0 MARK 1:132 GROUPS 1\n",
        ..NONE
    },
    // one whose size is known from a check before: it is listed, and can be removed
    Case {
        messages: &[b"1"],
        lines: b"a CHECK\n",
        spoilt: &[(1, None)],
        script: b"LIST\nRETR 1\nDELE 1\nRETR 1\nQUIT\n",
        output: "+OK\r\n+OK\r\n1 1\r\n.\r\n-ERR DAMAGED\r\n+OK\r\n-ERR NONE\r\n+OK\r\n\
            END 0 MARK 1:168 GROUPS 1\n",
        ..NONE
    },
];

#[test]
fn spoilt_messages_are_not_sent(rt: HostRuntime) -> Result<(), Fail> {
    check_all(&rt, rt.alloc(), SPOILT)
}
