use crate::plays::played;
use dv_model::{Step, Word};
use dv_tests_keeper::Ask;
use dv_tests_keeper::Ask::{Data, Line, Select, Tell, Untold};
use std::alloc::Global;
use std::process::Abort;
use std::sync::Wait;
use std::test::Fail;

// What two sessions are asked, the end of what is told, and how many entries their log has.
pub(super) struct Row {
    pub(super) asks: &'static [Ask<'static>],
    pub(super) told: &'static str,
    pub(super) entries: u64,
}

const EXPUNGED: &str = "b * 1 EXISTS\nb * OK [UIDVALIDITY 1000]\nb * OK [UIDNEXT 2]\n\
    b * 1 FETCH (UID 1 FLAGS (\\Deleted))\nb OK [MARK 1:72] SELECT\n\
    a * 1 EXPUNGE\na OK [MARK 1:100] EXPUNGE\n\
    b * 1 FETCH (UID 1 FLAGS (\\Deleted))\nb OK [MARK 1:100] FETCH\n\
    b * 1 EXPUNGE\nb OK [MARK 1:100] NOOP\n";

const LINES: &[Row] = &[
    // an expunge is told where numbers may change
    Row {
        asks: &[
            Line(b"a SELECT\n"),
            Line(b"a APPEND (\\Deleted) {2}\nhi\n"),
            Line(b"b SELECT\n"),
            Line(b"a EXPUNGE\n"),
            Line(b"b FETCH 1 (FLAGS)\n"),
            Line(b"b NOOP\n"),
        ],
        told: EXPUNGED,
        entries: 2,
    },
    // a row that a session wasn't told of is passed over by its STORE
    Row {
        asks: &[
            Line(b"a SELECT\n"),
            Line(b"a APPEND (\\Deleted) {1}\nx\n"),
            Line(b"a APPEND () {1}\ny\n"),
            Line(b"b SELECT\n"),
            Line(b"a EXPUNGE\n"),
            Line(b"b STORE 1:2 +FLAGS (\\Flagged)\n"),
        ],
        told: "a * 1 EXPUNGE\na OK [MARK 1:116] EXPUNGE\nb * 2 FETCH (UID 2 FLAGS (\\Flagged))\n\
            b NO [EXPUNGEISSUED] UID 1 MARK 1:136\n",
        entries: 4,
    },
    // a message that came and went is never told
    Row {
        asks: &[
            Line(b"a SELECT\n"),
            Line(b"b SELECT\n"),
            Line(b"a APPEND (\\Deleted) {2}\nhi\n"),
            Line(b"a EXPUNGE\n"),
            Line(b"b NOOP\n"),
        ],
        told: "a * 1 EXPUNGE\na OK [MARK 1:100] EXPUNGE\nb OK [MARK 1:100] NOOP\n",
        entries: 2,
    },
];

const TEXTS: &[Row] = &[
    // the text of a message
    Row {
        asks: &[
            Line(b"b NOOP\n"),
            Line(b"a SELECT\n"),
            Line(b"a APPEND () {5}\nhello\n"),
            Line(b"a FETCH 1 (RFC822.SIZE BODY[])\n"),
        ],
        told: "a OK [APPENDUID 1000 1] [MARK 1:72] APPEND\n\
            a * 1 FETCH (UID 1 RFC822.SIZE 5 BODY[] {5}\nhello)\na OK [MARK 1:72] FETCH\n",
        entries: 1,
    },
    // the text of an expunged message is gone
    Row {
        asks: &[
            Line(b"a SELECT\n"),
            Line(b"a APPEND (\\Deleted) {2}\nhi\n"),
            Line(b"b SELECT\n"),
            Line(b"a EXPUNGE\n"),
            Line(b"b FETCH 1 (BODY[])\n"),
        ],
        told: "a OK [MARK 1:100] EXPUNGE\nb NO [EXPUNGEISSUED] UID 1 MARK 1:100\n",
        entries: 2,
    },
    // a session that hasn't selected the mailbox
    Row {
        asks: &[Line(b"a SELECT\n"), Line(b"b NOOP\n")],
        told: "a OK [MARK 1:56] SELECT\nb BAD NOT SELECTED\n",
        entries: 0,
    },
];

// The first row, by the calls of which answers are made.
const CALLS: Row = Row {
    asks: &[
        Select(0, 56),
        Line(b"a APPEND (\\Deleted) {2}\nhi\n"),
        Select(1, 72),
        Untold(1, 72, &[]),
        Line(b"a EXPUNGE\n"),
        Data(b"b FETCH 1 (FLAGS)\n"),
        Tell(1, Step::Held, Word::Fetch, 100),
        Untold(1, 100, &[1]),
        Tell(1, Step::Full, Word::Noop, 100),
        Untold(1, 100, &[]),
    ],
    told: EXPUNGED,
    entries: 2,
};

fn play_row<R: Abort + Wait>(rt: &R, alloc: Global, row: &Row) -> Result<(), Fail> {
    let played = played(rt, alloc, 2, row.asks)?;
    let told = played.out.taken();
    assert!(rt;
        told.ends_with(row.told.as_bytes()),
        "{}",
        std::str::from_utf8(told).unwrap_or("?")
    );
    assert_eq!(rt; played.entries, row.entries);
    Ok(())
}

pub(super) fn play_rows<R: Abort + Wait>(rt: &R, alloc: Global, rows: &[Row]) -> Result<(), Fail> {
    for row in rows {
        play_row(rt, alloc, row)?;
    }
    Ok(())
}

#[test]
fn changes_are_told_where_numbers_may_change(rt: HostRuntime) -> Result<(), Fail> {
    play_rows(&rt, rt.alloc(), LINES)
}

#[test]
fn texts_of_living_messages_are_read(rt: HostRuntime) -> Result<(), Fail> {
    play_rows(&rt, rt.alloc(), TEXTS)
}

#[test]
fn answers_are_made_in_parts(rt: HostRuntime) -> Result<(), Fail> {
    play_row(&rt, rt.alloc(), &CALLS)
}
