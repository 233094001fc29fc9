//! Folders byte by byte, snapshots, and logs that are cut.

use crate::rows::{APPEND, CLOSED, FIRST_FILE, HEADER, NEW, ONE, ONE_SEEN, SEEN, VALIDITY};
use crate::runs::{
    Before, Case, Files, Kept, RUN, Run, add, bytes_of, is_as_said, joined, play, play_cases,
};
use dv_model::{List, NoMemory};
use dv_shelf::{Folder, Name};
use std::alloc::Global;

// The group of a CHECK at place 92.
const CHECKED: &[u8] =
    b"\x80\x80\x80\x89\x40\x00\x00\x00\xff\xff\xff\xff\x00\x00\x00\x00\x00\x00\x00\x00\
    \x04\x00\x04\x00\x00\x00\x05\x00cache\x00\x00\x00\
    \x80\x80\x80\x84\x80\x00\x00\x00\x01\x00\x00\x00\x00\x00\x00\x00\
    \x80\x80\x80\x84\x00\x02\x00\x00\x01\x00\x00\x00\x20\x00\x00\x00\x00\x00\x00\x00";

const CHECK: Run = Run {
    script: "a SELECT\na CHECK\n",
    ..RUN
};

const WRITTEN: &[Case] = &[
    Case {
        name: "files are written byte by byte",
        files: NEW,
        runs: &[Run {
            script: "a SELECT\na APPEND () {5}\nhello\na STORE 1 +FLAGS (\\Seen)\n",
            ..RUN
        }],
        kept: &[
            Kept::File(Name::Log, 0, &[HEADER, VALIDITY, APPEND, SEEN, CLOSED]),
            Kept::File(Name::Mail(1), 0, &[FIRST_FILE]),
            Kept::Count(2),
        ],
    },
    Case {
        name: "a CHECK writes its group and a snapshot",
        files: ONE_SEEN,
        runs: &[CHECK],
        kept: &[
            Kept::File(Name::Log, 92, &[CHECKED]),
            Kept::Length(Name::Index, 136),
        ],
    },
    Case {
        name: "a snapshot of another mailbox counts as none",
        files: ONE_SEEN,
        runs: &[
            CHECK,
            Run {
                before: Before::Renumbered,
                script: "c SELECT\n",
                text: &[
                    "c * 1 EXISTS\nc * OK [UIDVALIDITY 1000]\nc * OK [UIDNEXT 2]\n",
                    "c * 1 FETCH (UID 1 FLAGS (\\Seen))\nc OK [MARK 1:160] SELECT\n",
                    "END 0 MARK 1:160 GROUPS 0\n",
                ],
                ..RUN
            },
        ],
        kept: &[],
    },
    Case {
        name: "a log without its closed place is mended",
        files: &[(Name::Log, &[HEADER])],
        runs: &[Run {
            script: "c SELECT\n",
            text: &["", "\nEND 0 MARK 1:40 GROUPS 0\n"],
            ..RUN
        }],
        kept: &[Kept::Length(Name::Log, 44)],
    },
];

// A SELECT over a log that is cut between these sizes, and how long the log is then, where it is
// mended.
struct Cut {
    from: usize,
    to: usize,
    asked: Run,
    length: Option<usize>,
}

// The log of one message with `\Seen` opens at a whole record or not at all.
const CUTS: &[Cut] = &[
    Cut {
        from: 72,
        to: 76,
        asked: Run {
            script: "c SELECT\n",
            text: &["", "\nEND 0 MARK 1:72 GROUPS 0\n"],
            ..RUN
        },
        length: Some(76),
    },
    Cut {
        from: 76,
        to: 92,
        asked: Run {
            script: "c SELECT\n",
            status: 3,
            text: &["FAULT 3 BadRecord 72\n"],
            ..RUN
        },
        length: None,
    },
    Cut {
        from: 92,
        to: 93,
        asked: Run {
            script: "c SELECT\n",
            text: &["", "\nEND 0 MARK 1:92 GROUPS 0\n"],
            ..RUN
        },
        length: Some(96),
    },
    Cut {
        from: 93,
        to: 96,
        asked: Run {
            script: "c SELECT\n",
            text: &["", "\nEND 0 MARK 1:92 GROUPS 0\n"],
            ..RUN
        },
        length: None,
    },
];

// The header of a second file, behind a first one that ends at place 92.
const SECOND: &[u8] = b"\x01\x03\x28\x00\xe8\x03\x00\x00\x02\x00\x00\x00\x01\x00\x00\x00\
    \x5c\x00\x00\x00\xe8\x03\x00\x00\x01\x00\x00\x00\x00\x00\x00\x00\
    \x01\x00\x00\x00\x00\x00\x00\x00";

// Snapshots of the older version, of one message: at place 72 without flags, and at 92 with
// `\Seen`.
const OLD_INDEX: &[u8] = b"\xc9\x01\x78\x00\x78\x00\x00\x00\x08\x00\x00\x00\x00\x00\x00\x00\
    \xe8\x03\x00\x00\x00\x00\x00\x00\
    \xe8\x03\x00\x00\x02\x00\x00\x00\x01\x00\x00\x00\x01\x00\x00\x00\
    \x48\x00\x00\x00\x00\x00\x00\x00\x00\x00\x00\x00\
    \x00\x00\x00\x00\x00\x00\x00\x00\x00\x00\x00\x00\x00\x00\x00\x00";

const OLD_SEEN_INDEX: &[u8] = b"\xc9\x01\x78\x00\x78\x00\x00\x00\x08\x00\x00\x00\x00\x00\x00\x00\
    \xe8\x03\x00\x00\x00\x00\x00\x00\
    \xe8\x03\x00\x00\x02\x00\x00\x00\x01\x00\x00\x00\x01\x00\x00\x00\
    \x5c\x00\x00\x00\x00\x00\x00\x00\x00\x00\x00\x00\
    \x00\x00\x00\x00\x00\x00\x00\x00\x01\x00\x00\x00\x00\x00\x00\x00";

const ZEROS: &[u8] = &[0; 52];

const ROW: &[u8] = b"\x01\x00\x00\x00\x00\x00\x00\x00";

const SEEN_ROW: &[u8] = b"\x01\x00\x00\x00\x08\x00\x00\x00";

// A first snapshot is of the old version, and the next of the new one.
const OLD: Run = Run {
    script: "a SELECT\na FETCH 1 (MODSEQ)\na CHECK\n",
    once: "a * 1 FETCH (UID 1 MODSEQ (4))\n",
    ..RUN
};

const SNAPSHOTS: &[Case] = &[
    Case {
        name: "an old snapshot before the last record numbers its rows by the log",
        files: &[
            (Name::Log, &[HEADER, VALIDITY, APPEND, SEEN, CLOSED]),
            (Name::Index, &[OLD_INDEX, ZEROS, ROW]),
        ],
        runs: &[OLD],
        kept: &[Kept::Start(Name::Index, b"\xc9\x02\x78\x00")],
    },
    Case {
        name: "an old snapshot behind the last record numbers its rows by the log",
        files: &[
            (Name::Log, &[HEADER, VALIDITY, APPEND, SEEN, CLOSED]),
            (Name::Index, &[OLD_SEEN_INDEX, ZEROS, SEEN_ROW]),
        ],
        runs: &[OLD],
        kept: &[Kept::Start(Name::Index, b"\xc9\x02\x78\x00")],
    },
];

const ROTATED: Files = &[
    (Name::Log, &[SECOND, CLOSED]),
    (Name::Log2, &[HEADER, VALIDITY, APPEND, SEEN, CLOSED]),
];

const BOTH: Files = &[
    (Name::Log, &[HEADER, VALIDITY, APPEND, SEEN, CLOSED]),
    (Name::Log2, &[HEADER, VALIDITY, APPEND, SEEN, CLOSED]),
];

const SECOND_ALONE: Files = &[(Name::Log, &[SECOND, CLOSED])];

// One message is shown, once, with `\Seen`.
const SHOWN: Run = Run {
    script: "a SELECT\n",
    text: &["", "\nEND 0 MARK 2:40 GROUPS 0\n"],
    once: "a * 1 FETCH (UID 1 FLAGS (\\Seen))\n",
    ..RUN
};

const JOINED: &[Case] = &[
    Case {
        name: "a snapshot before the end of the rotated log",
        files: ONE,
        runs: &[
            CHECK,
            Run {
                before: Before::Snapshot(ROTATED),
                ..SHOWN
            },
        ],
        kept: &[],
    },
    Case {
        name: "a rotated log that is the log",
        files: ONE,
        runs: &[
            CHECK,
            Run {
                before: Before::Snapshot(BOTH),
                text: &["", "\nEND 0 MARK 1:92 GROUPS 0\n"],
                ..SHOWN
            },
        ],
        kept: &[],
    },
    Case {
        name: "a snapshot at the end of the log before the only one",
        files: ONE_SEEN,
        runs: &[
            CHECK,
            Run {
                before: Before::Snapshot(SECOND_ALONE),
                ..SHOWN
            },
        ],
        kept: &[],
    },
    Case {
        name: "a rotated log without a snapshot",
        files: ROTATED,
        runs: &[SHOWN],
        kept: &[],
    },
    Case {
        name: "a gap between the snapshot and the log",
        files: ONE,
        runs: &[
            CHECK,
            Run {
                before: Before::Snapshot(SECOND_ALONE),
                script: "a SELECT\n",
                status: 3,
                text: &["FAULT 3 Gap 1:72 2:40\n"],
                ..RUN
            },
        ],
        kept: &[],
    },
];

// The log of one message with `\Seen`, cut to so many bytes.
fn cut_log(alloc: Global, size: usize) -> Result<Folder, NoMemory> {
    let log = joined(alloc, &[HEADER, VALIDITY, APPEND, SEEN, CLOSED])?;
    let (front, _) = log.as_slice().split_at(size.min(log.len()));
    let mut folder = List::new(alloc);
    add(alloc, &mut folder, Name::Log, front)?;
    Ok(folder)
}

// Whether a log that is cut to so many bytes opens so.
fn is_cut_so(alloc: Global, size: usize, cut: &Cut) -> Result<bool, NoMemory> {
    let folder = cut_log(alloc, size)?;
    let mut left = play(alloc, &folder, &cut.asked)?;
    let length = bytes_of(alloc, &mut left.shelf, Name::Log).len();
    Ok(length == cut.length.unwrap_or(size) && is_as_said(alloc, &left, &cut.asked)?)
}

// The first size at which a log opens otherwise.
fn other_size(alloc: Global, cut: &Cut) -> Option<usize> {
    for size in cut.from..cut.to {
        if !matches!(is_cut_so(alloc, size, cut), Ok(true)) {
            return Some(size);
        }
    }
    None
}

#[test]
fn folders_are_written_and_joined(rt: HostRuntime) {
    for cases in [WRITTEN, SNAPSHOTS, JOINED] {
        play_cases(&rt, rt.alloc(), cases);
    }
}

#[test]
fn a_cut_log_opens_at_a_whole_record_or_not_at_all(rt: HostRuntime) {
    for cut in CUTS {
        let other = other_size(rt.alloc(), cut);
        assert!(rt; other.is_none(), "cut to {}", other.unwrap_or(0));
    }
}
