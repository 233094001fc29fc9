//! Scripts of one session, and what is printed: the same as where no thread is started.

use crate::runs::{ended, files_of, given, play, shelf_of};
use dv_model::{Bytes, List};
use dv_shelf::{Folder, OpenGate};
use std::alloc::Global;
use std::sync::Wait;
use std::test::Fail;
use std::thread::Threads;

/// A script in the folder that another script left, of which these calls fail, and what is printed;
/// only its end where the first part is empty.
struct Row {
    before: &'static [&'static [u8]],
    fails: &'static [u32],
    script: &'static [u8],
    output: &'static [&'static str],
}

const NEW: &[&[u8]] = &[];

const ONE: &[&[u8]] = &[b"a SELECT\na APPEND () {5}\nhello\n"];

const ONE_SEEN: &[&[u8]] = &[b"a SELECT\na APPEND () {5}\nhello\na STORE 1 +FLAGS (\\Seen)\n"];

const SELECTED: &str =
    "a * 0 EXISTS\na * OK [UIDVALIDITY 1000]\na * OK [UIDNEXT 1]\na OK [MARK 1:56] SELECT\n";

const APPENDED: &str =
    "a * 1 EXISTS\na * 1 FETCH (UID 1 FLAGS ())\na OK [APPENDUID 1000 1] [MARK 1:72] APPEND\n";

const STORED: &str = "a * 1 FETCH (UID 1 FLAGS (\\Seen))\na OK [MARK 1:92] STORE\n";

const SEEN_SELECTED: &str = "a * 1 EXISTS\na * OK [UIDVALIDITY 1000]\na * OK [UIDNEXT 2]\n\
    a * 1 FETCH (UID 1 FLAGS (\\Seen))\na OK [MARK 1:92] SELECT\n";

const WRITTEN: &[Row] = &[
    // no command
    Row {
        before: NEW,
        fails: &[],
        script: b"",
        output: &["END 0 MARK 1:56 GROUPS 0\n"],
    },
    Row {
        before: NEW,
        fails: &[],
        script: b"a SELECT\n",
        output: &[SELECTED, "END 0 MARK 1:56 GROUPS 0\n"],
    },
    // a session reads what it wrote, and a write without a record is no group
    Row {
        before: NEW,
        fails: &[],
        script: b"a SELECT\na APPEND () {5}\nhello\na STORE 1 +FLAGS (\\Seen)\na EXPUNGE\n\
            a STORE 1 +FLAGS ()\na STORE 1 FLAGS (\\Draft k1)\na SEARCH OR SEEN KEYWORD k1\n\
            a UID SEARCH NOT DRAFT\na SEARCH LARGER 4\na SEARCH HEADER Subject \"\"\n",
        output: &[
            SELECTED,
            APPENDED,
            STORED,
            "a OK [MARK 1:92] EXPUNGE\na OK [MARK 1:92] STORE\n",
            "a * 1 FETCH (UID 1 FLAGS (\\Draft k1))\na OK [MARK 1:152] STORE\n",
            "a * SEARCH 1\na OK [MARK 1:152] SEARCH\na * SEARCH\na OK [MARK 1:152] UID SEARCH\n",
            "a * SEARCH 1\na OK [MARK 1:152] SEARCH\na * SEARCH\na OK [MARK 1:152] SEARCH\n",
            "END 0 MARK 1:152 GROUPS 3\n",
        ],
    },
    // expunged numbers fall from the highest
    Row {
        before: NEW,
        fails: &[],
        script: b"a SELECT\na APPEND () {1}\n1\na APPEND () {1}\n2\na APPEND () {1}\n3\n\
            a APPEND () {1}\n4\na APPEND () {1}\n5\na APPEND () {1}\n6\na APPEND () {1}\n7\n\
            a APPEND () {1}\n8\na APPEND () {1}\n9\na STORE 5:9 +FLAGS (\\Deleted)\na EXPUNGE\n",
        output: &[
            "",
            "a OK [MARK 1:220] STORE\n",
            "a * 9 EXPUNGE\na * 8 EXPUNGE\na * 7 EXPUNGE\na * 6 EXPUNGE\na * 5 EXPUNGE\n",
            "a OK [MARK 1:328] EXPUNGE\nEND 0 MARK 1:328 GROUPS 11\n",
        ],
    },
];

const READ: &[Row] = &[
    // a snapshot with the cache
    Row {
        before: ONE_SEEN,
        fails: &[],
        script: b"a SELECT\na CHECK\na FETCH 1 (FIELD Subject)\n",
        output: &[
            SEEN_SELECTED,
            "a OK [MARK 1:160] CHECK\na * 1 FETCH (UID 1 FIELD Subject NIL)\n",
            "a OK [MARK 1:160] FETCH\nEND 0 MARK 1:160 GROUPS 1\n",
        ],
    },
    // a message file
    Row {
        before: ONE,
        fails: &[],
        script: b"a SELECT\na FETCH 1 (RFC822.SIZE BODY[])\n",
        output: &[
            "a * 1 EXISTS\na * OK [UIDVALIDITY 1000]\na * OK [UIDNEXT 2]\n",
            "a * 1 FETCH (UID 1 FLAGS ())\na OK [MARK 1:72] SELECT\n",
            "a * 1 FETCH (UID 1 RFC822.SIZE 5 BODY[] {5}\nhello)\n",
            "a OK [MARK 1:72] FETCH\nEND 0 MARK 1:72 GROUPS 0\n",
        ],
    },
    // modification sequences
    Row {
        before: ONE_SEEN,
        fails: &[],
        script: b"a SELECT\na FETCH 1 (MODSEQ)\na STORE 1 (UNCHANGEDSINCE 3) +FLAGS (\\Flagged)\n\
            a STORE 1 (UNCHANGEDSINCE 4) +FLAGS (\\Flagged)\n",
        output: &[
            SEEN_SELECTED,
            "a * 1 FETCH (UID 1 MODSEQ (4))\na OK [MARK 1:92] FETCH\n",
            "a OK [MODIFIED 1] [MARK 1:92] STORE\n",
            "a * 1 FETCH (UID 1 FLAGS (\\Flagged \\Seen))\na OK [MARK 1:112] STORE\n",
            "END 0 MARK 1:112 GROUPS 1\n",
        ],
    },
];

const REFUSED: &[Row] = &[
    // numbers that aren't there
    Row {
        before: NEW,
        fails: &[],
        script: b"a NOOP\na SELECT\na FETCH 1 (FLAGS)\na FETCH * (FLAGS)\n\
            a UID FETCH 1:* (FLAGS)\n",
        output: &[
            "a BAD NOT SELECTED\n",
            SELECTED,
            "a BAD NO MESSAGE 1\na BAD NO MESSAGE 0\na OK [MARK 1:56] UID FETCH\n",
            "END 0 MARK 1:56 GROUPS 0\n",
        ],
    },
    // UIDs that aren't there any more
    Row {
        before: ONE_SEEN,
        fails: &[],
        script: b"a SELECT\na UID REMOVE 1:5\na UID REMOVE 1:5\n",
        output: &[
            SEEN_SELECTED,
            "a * 1 EXPUNGE\na OK [MARK 1:120] UID REMOVE\na OK [MARK 1:120] UID REMOVE\n",
            "END 0 MARK 1:120 GROUPS 1\n",
        ],
    },
    // a failed write is undone by the next
    Row {
        before: NEW,
        fails: &[11],
        script: b"a SELECT\na APPEND () {5}\nhello\na STORE 1 +FLAGS (\\Seen)\n\
            a STORE 1 +FLAGS (\\Seen)\n",
        output: &[
            SELECTED,
            APPENDED,
            "a NO [UNAVAILABLE] FAULTS 1\n",
            STORED,
            "END 0 MARK 1:92 GROUPS 2\n",
        ],
    },
    Row {
        before: NEW,
        fails: &[7],
        script: b"a SELECT\na APPEND () {0}\n\na APPEND () {0}\n",
        output: &[
            SELECTED,
            "a NO [UNAVAILABLE] FAULTS 1\n",
            APPENDED,
            "END 0 MARK 1:72 GROUPS 1\n",
        ],
    },
];

// The folder that these scripts leave, one behind the other.
fn folder_behind<R: Threads + Wait + Sync>(
    rt: &R,
    alloc: Global,
    scripts: &[&[u8]],
) -> Result<Folder, Fail> {
    let mut folder = List::new(alloc);
    for script in scripts {
        let shelf = shelf_of(alloc, &folder, &[])?;
        let mut left = play(rt, alloc, shelf, &OpenGate, given(script))?;
        folder = files_of(alloc, &mut left.shelf)?;
    }
    Ok(folder)
}

// Fails unless that was printed.
fn check<R: Threads + Wait + Sync>(rt: &R, alloc: Global, row: &Row) -> Result<(), Fail> {
    let folder = folder_behind(rt, alloc, row.before)?;
    let shelf = shelf_of(alloc, &folder, row.fails)?;
    let left = play(rt, alloc, shelf, &OpenGate, given(row.script))?;
    let mut text = Bytes::new(alloc);
    for part in row.output {
        text.extend(part.as_bytes())?;
    }
    match row.output {
        [first, ..] if first.is_empty() => {
            if left.status != 0 || !left.output.as_slice().ends_with(text.as_slice()) {
                return Err(Fail::from("another end"));
            }
            Ok(())
        }
        _ => ended(&left, 0, text.as_slice()),
    }
}

fn check_all<R: Threads + Wait + Sync>(rt: &R, alloc: Global, rows: &[Row]) -> Result<(), Fail> {
    for row in rows {
        check(rt, alloc, row)?;
    }
    Ok(())
}

#[test]
fn a_session_reads_what_it_wrote(rt: HostRuntime) -> Result<(), Fail> {
    check_all(&rt, rt.alloc(), WRITTEN)
}

#[test]
fn messages_are_read_from_cache_and_files(rt: HostRuntime) -> Result<(), Fail> {
    check_all(&rt, rt.alloc(), READ)
}

#[test]
fn commands_are_refused_by_their_rules(rt: HostRuntime) -> Result<(), Fail> {
    check_all(&rt, rt.alloc(), REFUSED)
}
