use crate::rows::{Row, play_rows};
use dv_tests_keeper::Ask::{Line, Login, Pop};
use std::test::Fail;

// What a POP3 client is answered while another session writes.
const BESIDE: &[Row] = &[
    // others expunge two messages, of which one is marked, add one and mark one as deleted: numbers
    // and sizes stay, and the marked message that lives is removed
    Row {
        asks: &[
            Line(b"a SELECT\n"),
            Line(b"a APPEND () {1}\n1\n"),
            Line(b"a APPEND () {2}\n22\n"),
            Line(b"a APPEND () {3}\n333\n"),
            Line(b"a APPEND () {4}\n4444\n"),
            Login(1),
            Pop(b"DELE 3"),
            Pop(b"DELE 4"),
            Line(b"a UID REMOVE 2,4\n"),
            Pop(b"RETR 1"),
            Pop(b"RETR 2"),
            Pop(b"STAT"),
            Pop(b"LIST"),
            Pop(b"UIDL 2"),
            Line(b"a APPEND () {5}\n55555\n"),
            Line(b"a STORE 1 +FLAGS (\\Deleted)\n"),
            Pop(b"QUIT"),
            Line(b"a NOOP\n"),
            Line(b"a UID SEARCH ALL\n"),
            Login(1),
            Pop(b"LIST"),
            Pop(b"UIDL"),
            Pop(b"QUIT"),
        ],
        told: "a OK [APPENDUID 1000 4] [MARK 1:120] APPEND\n+OK\r\n+OK\r\n+OK\r\n\
            a * 4 EXPUNGE\na * 2 EXPUNGE\na OK [MARK 1:168] UID REMOVE\n\
            +OK 1\r\n1\r\n.\r\n-ERR GONE\r\n+OK 2 3\r\n+OK\r\n1 1\r\n2 2\r\n.\r\n+OK 2 1000.2\r\n\
            a * 3 EXISTS\na * 3 FETCH (UID 5 FLAGS ())\n\
            a OK [APPENDUID 1000 5] [MARK 1:184] APPEND\n\
            a * 1 FETCH (UID 1 FLAGS (\\Deleted))\na OK [MARK 1:204] STORE\n\
            +OK\r\na * 2 EXPUNGE\na OK [MARK 1:232] NOOP\n\
            a * SEARCH 1 5\na OK [MARK 1:232] UID SEARCH\n\
            +OK\r\n+OK\r\n1 1\r\n2 5\r\n.\r\n+OK\r\n1 1000.1\r\n2 1000.5\r\n.\r\n+OK\r\n",
        entries: 8,
    },
    // a message that is gone is so at each RETR, may be marked, and its mark writes nothing
    Row {
        asks: &[
            Line(b"a SELECT\n"),
            Line(b"a APPEND () {2}\nhi\n"),
            Login(1),
            Line(b"a UID REMOVE 1\n"),
            Pop(b"RETR 1"),
            Pop(b"RETR 1"),
            Pop(b"DELE 1"),
            Pop(b"RETR 1"),
            Pop(b"QUIT"),
            Line(b"a NOOP\n"),
        ],
        told: "+OK\r\na * 1 EXPUNGE\na OK [MARK 1:100] UID REMOVE\n-ERR GONE\r\n-ERR GONE\r\n\
            +OK\r\n-ERR NONE\r\n+OK\r\na OK [MARK 1:100] NOOP\n",
        entries: 2,
    },
    // what is added behind the login isn't listed
    Row {
        asks: &[
            Line(b"a SELECT\n"),
            Login(1),
            Line(b"a APPEND () {2}\nhi\n"),
            Pop(b"STAT"),
            Pop(b"RETR 1"),
            Pop(b"DELE 1"),
            Pop(b"QUIT"),
        ],
        told: "+OK\r\na * 1 EXISTS\na * 1 FETCH (UID 1 FLAGS ())\n\
            a OK [APPENDUID 1000 1] [MARK 1:72] APPEND\n\
            +OK 0 0\r\n-ERR NONE\r\n-ERR NONE\r\n+OK\r\n",
        entries: 1,
    },
    // the other finds the message until QUIT, and flags that it changes keep no message
    Row {
        asks: &[
            Line(b"a SELECT\n"),
            Line(b"a APPEND () {2}\nhi\n"),
            Login(1),
            Pop(b"DELE 1"),
            Line(b"a STORE 1 +FLAGS (\\Flagged)\n"),
            Pop(b"QUIT"),
            Line(b"a NOOP\n"),
        ],
        told: "+OK\r\n+OK\r\na * 1 FETCH (UID 1 FLAGS (\\Flagged))\na OK [MARK 1:92] STORE\n\
            +OK\r\na * 1 EXPUNGE\na OK [MARK 1:120] NOOP\n",
        entries: 3,
    },
    // without a QUIT nothing is removed, nor behind an RSET
    Row {
        asks: &[
            Line(b"a SELECT\n"),
            Line(b"a APPEND () {2}\nhi\n"),
            Login(1),
            Pop(b"DELE 1"),
            Line(b"a NOOP\n"),
            Pop(b"RSET"),
            Pop(b"QUIT"),
            Line(b"a NOOP\n"),
        ],
        told: "+OK\r\n+OK\r\na OK [MARK 1:72] NOOP\n+OK\r\n+OK\r\na OK [MARK 1:72] NOOP\n",
        entries: 1,
    },
];

#[test]
fn a_pop3_client_is_answered_beside_a_writing_session(rt: HostRuntime) -> Result<(), Fail> {
    play_rows(&rt, rt.alloc(), BESIDE)
}
