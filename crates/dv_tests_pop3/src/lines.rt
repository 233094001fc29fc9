//! Each line of a session, and what is none.

use crate::cases::{Case, NONE, check_all};
use crate::runs::{ended, folder_of, given, play, shelf_of};
use dv_model::Bytes;
use std::alloc::Global;
use std::sync::Wait;
use std::test::Fail;
use std::thread::Threads;

const THREE: &[&[u8]] = &[b"1", b"22", b"333"];

const LINES: &[Case] = &[
    // a message is removed by QUIT
    Case {
        messages: &[b"hello"],
        lines: b"a STORE 1 +FLAGS (\\Seen)\n",
        script: b"STAT\nDELE 1\nLIST\nQUIT\n",
        output: "+OK\r\n+OK 1 5\r\n+OK\r\n+OK\r\n.\r\n+OK\r\nEND 0 MARK 1:120 GROUPS 1\n",
        ..NONE
    },
    // every line, with marks that go and stay
    Case {
        messages: THREE,
        script: b"STAT\nLIST\nLIST 2\nUIDL\nUIDL 3\nRETR 2\nDELE 2\nNOOP\nSTAT\nLIST\nUIDL\n\
            LIST 2\nUIDL 2\nRETR 2\nDELE 2\nLIST 3\nRSET\nSTAT\nRETR 2\nDELE 1\nDELE 3\nNOPE\n\
            QUIT\n",
        output: "+OK\r\n+OK 3 6\r\n+OK\r\n1 1\r\n2 2\r\n3 3\r\n.\r\n+OK 2 2\r\n\
            +OK\r\n1 1000.1\r\n2 1000.2\r\n3 1000.3\r\n.\r\n+OK 3 1000.3\r\n\
            +OK 2\r\n22\r\n.\r\n+OK\r\n+OK\r\n+OK 2 4\r\n+OK\r\n1 1\r\n3 3\r\n.\r\n\
            +OK\r\n1 1000.1\r\n3 1000.3\r\n.\r\n\
            -ERR NONE\r\n-ERR NONE\r\n-ERR NONE\r\n-ERR NONE\r\n+OK 3 3\r\n+OK\r\n+OK 3 6\r\n\
            +OK 2\r\n22\r\n.\r\n+OK\r\n+OK\r\n-ERR LINE\r\n+OK\r\nEND 0 MARK 1:152 GROUPS 1\n",
        ..NONE
    },
    // without QUIT nothing is removed, and neither is behind an RSET
    Case {
        messages: THREE,
        script: b"DELE 2\nSTAT\n",
        output: "+OK\r\n+OK\r\n+OK 2 4\r\nEND 0 MARK 1:104 GROUPS 0\n",
        ..NONE
    },
    Case {
        messages: THREE,
        script: b"DELE 2\nRSET\nQUIT\n",
        output: "+OK\r\n+OK\r\n+OK\r\n+OK\r\nEND 0 MARK 1:104 GROUPS 0\n",
        ..NONE
    },
    // lines behind QUIT are not answered
    Case {
        messages: THREE,
        script: b"QUIT\nSTAT\nDELE 1\nQUIT\n",
        output: "+OK\r\n+OK\r\nEND 0 MARK 1:104 GROUPS 0\n",
        ..NONE
    },
    // numbers of no message, and what is no number
    Case {
        messages: &[b"1"],
        script: b"RETR 0\nLIST 0\nUIDL 0\nDELE 0\nRETR 2\nLIST 4294967295\nLIST 4294967296\n\
            RETR 99999999999999999999\nDELE 1\nDELE 1\nUIDL 1\n",
        output: "+OK\r\n-ERR NONE\r\n-ERR NONE\r\n-ERR NONE\r\n-ERR NONE\r\n-ERR NONE\r\n\
            -ERR NONE\r\n-ERR LINE\r\n-ERR LINE\r\n+OK\r\n-ERR NONE\r\n-ERR NONE\r\n\
            END 0 MARK 1:72 GROUPS 0\n",
        ..NONE
    },
    // no lines, in a mailbox that is made and in one that was
    NONE,
    Case {
        messages: THREE,
        output: "+OK\r\nEND 0 MARK 1:104 GROUPS 0\n",
        ..NONE
    },
    // an empty mailbox
    Case {
        lines: b"a NOOP\n",
        script: b"STAT\nLIST\nUIDL\nLIST 1\nUIDL 1\nRETR 1\nDELE 1\nNOOP\nRSET\nQUIT\n",
        output: "+OK\r\n+OK 0 0\r\n+OK\r\n.\r\n+OK\r\n.\r\n-ERR NONE\r\n-ERR NONE\r\n-ERR NONE\r\n\
            -ERR NONE\r\n+OK\r\n+OK\r\n+OK\r\nEND 0 MARK 1:56 GROUPS 0\n",
        ..NONE
    },
    // lines end in CRLF or LF, and any other return belongs to its line
    Case {
        messages: &[b"1"],
        script: b"STAT\r\nLIST 1\nUIDL 1\r\nNO\rOP\nNOOP\r\r\n\r\n\nNOOP\r",
        output: "+OK\r\n+OK 1 1\r\n+OK 1 1\r\n+OK 1 1000.1\r\n-ERR LINE\r\n-ERR LINE\r\n\
            -ERR LINE\r\n-ERR LINE\r\n-ERR LINE\r\nEND 0 MARK 1:72 GROUPS 0\n",
        ..NONE
    },
    // a last line needs no end
    Case {
        messages: &[b"1"],
        script: b"DELE 1\r\nQUIT",
        output: "+OK\r\n+OK\r\n+OK\r\nEND 0 MARK 1:100 GROUPS 1\n",
        ..NONE
    },
];

#[test]
fn lines_are_answered_by_their_rules(rt: HostRuntime) -> Result<(), Fail> {
    check_all(&rt, rt.alloc(), LINES)
}

// Lines of no command: words in small letters, spaces that don't belong there, numbers that are
// none or too many, and what other servers have.
const BAD: &[&[u8]] = &[
    b"stat",
    b"List",
    b"retr 1",
    b"quit",
    b" STAT",
    b"STAT ",
    b"STAT 1",
    b"LIST ",
    b"LIST  1",
    b"LIST 1 ",
    b"LIST\t1",
    b"LIST1",
    b"LIST 1 2",
    b"UIDL ",
    b"UIDL x",
    b"RETR",
    b"RETR ",
    b"RETR 01",
    b"RETR +1",
    b"RETR -1",
    b"RETR 1.",
    b"RETR 4294967296",
    b"DELE",
    b"DELE 1,2",
    b"DELE 1:2",
    b"DELE *",
    b"NOOP 1",
    b"RSET ",
    b"QUIT 1",
    b"",
    b"#",
    b"a STAT",
    b"USER ann",
    b"PASS secret",
    b"APOP ann 0123456789abcdef0123456789abcdef",
    b"TOP 1 0",
    b"CAPA",
    b"STLS",
    b"\x00",
    b"STAT\x00",
    b"\xff\xfe",
];

// Each of them is answered alone, between two lines that are good.
fn refuse_all<R: Threads + Wait + Sync>(rt: &R, alloc: Global) -> Result<(), Fail> {
    let folder = folder_of(rt, alloc, THREE, b"")?;
    let mut script = Bytes::new(alloc);
    let mut output = Bytes::from_slice(alloc, b"+OK\r\n")?;
    for line in BAD {
        script.extend(b"NOOP\n")?;
        script.extend(line)?;
        script.extend(b"\nSTAT\n")?;
        output.extend(b"+OK\r\n-ERR LINE\r\n+OK 3 6\r\n")?;
    }
    output.extend(b"END 0 MARK 1:104 GROUPS 0\n")?;
    let shelf = shelf_of(alloc, &folder, &[], None)?;
    let left = play(rt, alloc, shelf, given(script.as_slice()))?;
    ended(&left, 0, output.as_slice())
}

#[test]
fn lines_of_no_command_are_refused(rt: HostRuntime) -> Result<(), Fail> {
    refuse_all(&rt, rt.alloc())
}
