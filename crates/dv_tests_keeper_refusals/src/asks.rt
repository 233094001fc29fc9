//! What sessions are asked, and the end of what they are told.

use dv_feed::Taken;
use dv_member::Met;
use dv_tests_keeper::Ask;
use dv_tests_keeper::Ask::{Gather, Line, Meet, Refresh, Rejoin};

/// The log is rotated before the first APPEND and before the first STORE. The group of the first
/// EXPUNGE is longer than a generation, so it seals the first one.
pub const ASKS: [Ask; 21] = [
    Line(b"a SELECT\n"),
    Line(b"a APPEND (\\Seen k1) {19}\nSubject: one\n\none\n\n\n"),
    Line(b"a EXPUNGE\n"),
    Refresh(1, Taken::Rotated),
    Rejoin(1),
    Line(b"b SELECT\n"),
    Gather(1, 2),
    Meet(1, 2, Met::Equal),
    Line(b"c SELECT\n"),
    Line(b"c STORE 1:2 +FLAGS (\\Flagged k2)\n"),
    Line(b"b FETCH 1,4 (FLAGS RFC822.SIZE BODY[] FIELD subject)\n"),
    Line(b"a CHECK\n"),
    Gather(0, 1),
    Meet(0, 1, Met::Equal),
    Line(b"b SEARCH OR KEYWORD k2 HEADER subject \"one\"\n"),
    Line(b"b UID STORE 3 FLAGS (\\Deleted)\n"),
    Line(b"c UID REMOVE 2\n"),
    Line(b"a APPEND () {1}\nx\n"),
    Line(b"b EXPUNGE\n"),
    Line(b"a NOOP\n"),
    Line(b"c NOOP\n"),
];

/// What sessions are asked when another one is spent.
pub const REST: [Ask; 8] = [
    Line(b"a SELECT\n"),
    Line(b"b SELECT\n"),
    Line(b"c SELECT\n"),
    Line(b"a APPEND (k3) {1}\ny\n"),
    Line(b"b APPEND () {1}\nz\n"),
    Line(b"c UID STORE 1:2,6561:9999 +FLAGS (\\Answered)\n"),
    Line(b"a NOOP\n"),
    Line(b"b NOOP\n"),
];

/// What shows the mailbox of a folder: each message but those without a file, which the first
/// EXPUNGE removes.
pub const SHOWS: [Ask; 2] = [
    Line(b"a SELECT\n"),
    Line(b"a UID FETCH 1,6561:9999 (FLAGS MODSEQ RFC822.SIZE BODY[])\n"),
];

/// The end of what is told, from the UID REMOVE on.
pub const TOLD: &[u8] = b"c * 2 EXPUNGE\nc * 2 FETCH (UID 3 FLAGS (\\Deleted))\n\
    c OK [MARK 3:240] UID REMOVE\n\
    a * 2 EXPUNGE\na * 4 EXISTS\na * 2 FETCH (UID 3 FLAGS (\\Deleted))\n\
    a * 4 FETCH (UID 6562 FLAGS ())\na OK [APPENDUID 1000 6562] [MARK 3:256] APPEND\n\
    b * 3 EXPUNGE\nb * 2 EXPUNGE\nb * 3 EXISTS\nb * 3 FETCH (UID 6562 FLAGS ())\n\
    b OK [MARK 3:284] EXPUNGE\na * 2 EXPUNGE\na OK [MARK 3:284] NOOP\n\
    c * 2 EXPUNGE\nc * 3 EXISTS\nc * 3 FETCH (UID 6562 FLAGS ())\nc OK [MARK 3:284] NOOP\n";
