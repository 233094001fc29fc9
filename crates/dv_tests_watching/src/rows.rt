//! Scripts by hand.

use crate::runs::watched;
use crate::searching::agrees;
use std::alloc::Global;
use std::test::*;

/// A script, the key beside it, and what is written.
struct Row {
    script: &'static [u8],
    key: &'static [u8],
    output: &'static [u8],
}

const ROWS: &[Row] = &[
    // A message is found once it is seen.
    Row {
        script: b"a SELECT\na APPEND () {5}\nhello\na STORE 1 +FLAGS (\\Seen)\n",
        key: b"SEEN",
        output: b"a * 0 EXISTS\na * OK [UIDVALIDITY 1000]\na * OK [UIDNEXT 1]\n\
            a OK [MARK 1:56] SELECT\n\
            a * 1 EXISTS\na * 1 FETCH (UID 1 FLAGS ())\n\
            a OK [APPENDUID 1000 1] [MARK 1:72] APPEND\nWATCH\n\
            a * 1 FETCH (UID 1 FLAGS (\\Seen))\na OK [MARK 1:92] STORE\nWATCH 1\n\
            END 0 MARK 1:92 GROUPS 2\n",
    },
    // Messages leave the result when they are marked, and their expunge changes nothing.
    Row {
        script: b"a SELECT\na APPEND () {1}\n1\na APPEND () {1}\n2\na APPEND () {1}\n3\n\
            a APPEND () {1}\n4\na APPEND () {1}\n5\na APPEND () {1}\n6\na APPEND () {1}\n7\n\
            a APPEND () {1}\n8\na APPEND () {1}\n9\na STORE 5:9 +FLAGS (\\Deleted)\na EXPUNGE\n",
        key: b"NOT DELETED",
        output: b"a * 0 EXISTS\na * OK [UIDVALIDITY 1000]\na * OK [UIDNEXT 1]\n\
            a OK [MARK 1:56] SELECT\n\
            a * 1 EXISTS\na * 1 FETCH (UID 1 FLAGS ())\n\
            a OK [APPENDUID 1000 1] [MARK 1:72] APPEND\nWATCH 1\n\
            a * 2 EXISTS\na * 2 FETCH (UID 2 FLAGS ())\n\
            a OK [APPENDUID 1000 2] [MARK 1:88] APPEND\nWATCH 1 2\n\
            a * 3 EXISTS\na * 3 FETCH (UID 3 FLAGS ())\n\
            a OK [APPENDUID 1000 3] [MARK 1:104] APPEND\nWATCH 1 2 3\n\
            a * 4 EXISTS\na * 4 FETCH (UID 4 FLAGS ())\n\
            a OK [APPENDUID 1000 4] [MARK 1:120] APPEND\nWATCH 1 2 3 4\n\
            a * 5 EXISTS\na * 5 FETCH (UID 5 FLAGS ())\n\
            a OK [APPENDUID 1000 5] [MARK 1:136] APPEND\nWATCH 1 2 3 4 5\n\
            a * 6 EXISTS\na * 6 FETCH (UID 6 FLAGS ())\n\
            a OK [APPENDUID 1000 6] [MARK 1:152] APPEND\nWATCH 1 2 3 4 5 6\n\
            a * 7 EXISTS\na * 7 FETCH (UID 7 FLAGS ())\n\
            a OK [APPENDUID 1000 7] [MARK 1:168] APPEND\nWATCH 1 2 3 4 5 6 7\n\
            a * 8 EXISTS\na * 8 FETCH (UID 8 FLAGS ())\n\
            a OK [APPENDUID 1000 8] [MARK 1:184] APPEND\nWATCH 1 2 3 4 5 6 7 8\n\
            a * 9 EXISTS\na * 9 FETCH (UID 9 FLAGS ())\n\
            a OK [APPENDUID 1000 9] [MARK 1:200] APPEND\nWATCH 1 2 3 4 5 6 7 8 9\n\
            a * 5 FETCH (UID 5 FLAGS (\\Deleted))\na * 6 FETCH (UID 6 FLAGS (\\Deleted))\n\
            a * 7 FETCH (UID 7 FLAGS (\\Deleted))\na * 8 FETCH (UID 8 FLAGS (\\Deleted))\n\
            a * 9 FETCH (UID 9 FLAGS (\\Deleted))\na OK [MARK 1:220] STORE\nWATCH 1 2 3 4\n\
            a * 9 EXPUNGE\na * 8 EXPUNGE\na * 7 EXPUNGE\na * 6 EXPUNGE\na * 5 EXPUNGE\n\
            a OK [MARK 1:328] EXPUNGE\nWATCH 1 2 3 4\nEND 0 MARK 1:328 GROUPS 11\n",
    },
    // Commands that are refused or write nothing, and a snapshot, which writes an entry.
    Row {
        script: b"a NOOP\na SELECT\na APPEND (\\Seen) {1}\n1\na STORE 1 +FLAGS ()\n\
            a STORE 2 +FLAGS (\\Seen)\na EXPUNGE\na UID REMOVE 7\na UID SEARCH SEEN\na CHECK\n",
        key: b"SEEN",
        output: b"a BAD NOT SELECTED\n\
            a * 0 EXISTS\na * OK [UIDVALIDITY 1000]\na * OK [UIDNEXT 1]\n\
            a OK [MARK 1:56] SELECT\n\
            a * 1 EXISTS\na * 1 FETCH (UID 1 FLAGS (\\Seen))\n\
            a OK [APPENDUID 1000 1] [MARK 1:72] APPEND\nWATCH 1\n\
            a OK [MARK 1:72] STORE\n\
            a BAD NO MESSAGE 2\n\
            a OK [MARK 1:72] EXPUNGE\n\
            a OK [MARK 1:72] UID REMOVE\n\
            a * SEARCH 1\na OK [MARK 1:72] UID SEARCH\n\
            a OK [MARK 1:140] CHECK\nWATCH 1\nEND 0 MARK 1:140 GROUPS 2\n",
    },
];

// The first row of which something else is written, counted from 0.
fn first_other(alloc: Global) -> Result<Option<usize>, Fail> {
    for (at, row) in ROWS.iter().enumerate() {
        let text = watched(alloc, row.script, row.key)?;
        if text.as_slice() != row.output {
            return Ok(Some(at));
        }
    }
    Ok(None)
}

#[test]
fn result_is_told_behind_each_command_that_writes(rt: HostRuntime) -> Result<(), Fail> {
    assert_eq!(rt; first_other(rt.alloc())?, None);
    Ok(())
}

// Sessions that delay expunges, keywords that are new, a condition that isn't met, messages that
// are shown, a snapshot, and writes that change nothing.
const SCRIPT: &[u8] = b"a SELECT\nb SELECT\na APPEND (\\Deleted k1) {3}\nx y\n\
    b APPEND (\\Seen \\Draft k2 k1) {0}\n\nc APPEND () {1}\n1\nc SELECT\nc NOOP\n\
    a STORE 1,3 FLAGS (k3 \\Flagged)\nb UID STORE 2:* -FLAGS (k2 \\Draft)\n\
    a UID STORE 1:9 (UNCHANGEDSINCE 3) +FLAGS (\\Answered)\na FETCH 1:* (FLAGS BODY[] MODSEQ)\n\
    b CHECK\nb STORE 2 +FLAGS (\\Deleted)\nc EXPUNGE\na FETCH 2 (FLAGS)\na STORE 2 +FLAGS (k4)\n\
    a NOOP\nb UID REMOVE 3:9\na UID REMOVE 3:9\nc APPEND (k2 \\Answered) {2}\nhi\nc CHECK\n\
    b STORE 1:* -FLAGS (\\Answered)\na UID REMOVE 1:*\nb EXPUNGE\na NOOP\n";

const KEYS: [&[u8]; 12] = [
    b"ALL",
    b"DELETED",
    b"UNDELETED",
    b"ANSWERED",
    b"KEYWORD k1",
    b"KEYWORD k4",
    b"NOT KEYWORD k2",
    b"NOT (KEYWORD k2 ANSWERED)",
    b"UID 2:3",
    b"OR SEEN KEYWORD k3",
    b"(KEYWORD k3 FLAGGED)",
    b"OR NOT FLAGGED (KEYWORD k1 UID 9,1:2)",
];

#[test]
fn result_is_what_another_session_finds(rt: HostRuntime) -> Result<(), Fail> {
    for key in KEYS {
        assert!(rt; agrees(rt.alloc(), SCRIPT, key)?, "{key:?}");
    }
    Ok(())
}
