//! The worked rows: scripts over folders, with all that is written or its end.

use crate::runs::{Case, Files, RUN, Run, play_cases};
use dv_shelf::Name;

pub const HEADER: &[u8] = b"\x01\x03\x28\x00\xe8\x03\x00\x00\x01\x00\x00\x00\x00\x00\x00\x00\
    \x00\x00\x00\x00\xe8\x03\x00\x00\x01\x00\x00\x00\x00\x00\x00\x00\
    \x01\x00\x00\x00\x00\x00\x00\x00";
// A header from place 12 on.
const HEADER_REST: &[u8] = b"\x00\x00\x00\x00\x00\x00\x00\x00\xe8\x03\x00\x00\
    \x01\x00\x00\x00\x00\x00\x00\x00\x01\x00\x00\x00\x00\x00\x00\x00";

pub const VALIDITY: &[u8] = b"\x80\x80\x80\x84\x20\x00\x00\x00\x18\x00\x04\x00\xe8\x03\x00\x00";

pub const APPEND: &[u8] = b"\x80\x80\x80\x84\x02\x00\x00\x10\x01\x00\x00\x00\x00\x00\x00\x00";

pub const SEEN: &[u8] =
    b"\x80\x80\x80\x85\x04\x00\x00\x10\x01\x00\x00\x00\x01\x00\x00\x00\x08\x00\x00\x00";

pub const CLOSED: &[u8] = b"\x00\x00\x00\x00";

pub const FIRST_FILE: &[u8] = b"2 M1e C3e9\n\x01\x02N          0000000000000005\nhello\n\x01\x03\n\
G000003e8000003e800000001000003e9\nR3e9\nZ5\nV5\n\n";

pub const NEW: Files = &[];

pub const MADE: Files = &[(Name::Log, &[HEADER, VALIDITY, CLOSED])];

pub const ONE: Files = &[
    (Name::Log, &[HEADER, VALIDITY, APPEND, CLOSED]),
    (Name::Mail(1), &[FIRST_FILE]),
];

pub const ONE_SEEN: Files = &[
    (Name::Log, &[HEADER, VALIDITY, APPEND, SEEN, CLOSED]),
    (Name::Mail(1), &[FIRST_FILE]),
];

const SELECTED: &str =
    "a * 0 EXISTS\na * OK [UIDVALIDITY 1000]\na * OK [UIDNEXT 1]\na OK [MARK 1:56] SELECT\n";

const APPENDED: &str =
    "a * 1 EXISTS\na * 1 FETCH (UID 1 FLAGS ())\na OK [APPENDUID 1000 1] [MARK 1:72] APPEND\n";

const STORED: &str = "a * 1 FETCH (UID 1 FLAGS (\\Seen))\na OK [MARK 1:92] STORE\n";

const ONE_SHOWN: &str = "a * 1 EXISTS\na * OK [UIDVALIDITY 1000]\na * OK [UIDNEXT 2]\n\
    a * 1 FETCH (UID 1 FLAGS ())\n";

const SEEN_SELECTED: &str = "a * 1 EXISTS\na * OK [UIDVALIDITY 1000]\na * OK [UIDNEXT 2]\n\
    a * 1 FETCH (UID 1 FLAGS (\\Seen))\na OK [MARK 1:92] SELECT\n";

const EMPTY: &[Case] = &[
    Case {
        name: "an empty script makes a mailbox",
        files: NEW,
        runs: &[Run {
            text: &["END 0 MARK 1:56 GROUPS 0\n"],
            ..RUN
        }],
        kept: &[],
    },
    Case {
        name: "a new mailbox is selected",
        files: NEW,
        runs: &[Run {
            script: "a SELECT\n",
            text: &[SELECTED, "END 0 MARK 1:56 GROUPS 0\n"],
            ..RUN
        }],
        kept: &[],
    },
    Case {
        name: "a session reads what it wrote, and a write without a record is no group",
        files: NEW,
        runs: &[Run {
            script: "a SELECT\na APPEND () {5}\nhello\na STORE 1 +FLAGS (\\Seen)\na EXPUNGE\n\
            a STORE 1 +FLAGS ()\na STORE 1 FLAGS (\\Draft k1)\na SEARCH OR SEEN KEYWORD k1\n\
            a UID SEARCH NOT DRAFT\na SEARCH LARGER 4\na SEARCH HEADER Subject \"\"\n",
            text: &[
                SELECTED,
                APPENDED,
                STORED,
                "a OK [MARK 1:92] EXPUNGE\na OK [MARK 1:92] STORE\n",
                "a * 1 FETCH (UID 1 FLAGS (\\Draft k1))\na OK [MARK 1:152] STORE\n",
                "a * SEARCH 1\na OK [MARK 1:152] SEARCH\n",
                "a * SEARCH\na OK [MARK 1:152] UID SEARCH\n",
                "a * SEARCH 1\na OK [MARK 1:152] SEARCH\na * SEARCH\na OK [MARK 1:152] SEARCH\n",
                "END 0 MARK 1:152 GROUPS 3\n",
            ],
            ..RUN
        }],
        kept: &[],
    },
];

const EXPUNGED: &[Case] = &[
    Case {
        name: "expunged numbers fall from the highest",
        files: NEW,
        runs: &[Run {
            script: "a SELECT\na APPEND () {1}\n1\na APPEND () {1}\n2\na APPEND () {1}\n3\n\
            a APPEND () {1}\n4\na APPEND () {1}\n5\na APPEND () {1}\n6\na APPEND () {1}\n7\n\
            a APPEND () {1}\n8\na APPEND () {1}\n9\na STORE 5:9 +FLAGS (\\Deleted)\na EXPUNGE\n",
            text: &[
                "",
                "a OK [MARK 1:220] STORE\n",
                "a * 9 EXPUNGE\na * 8 EXPUNGE\na * 7 EXPUNGE\na * 6 EXPUNGE\na * 5 EXPUNGE\n",
                "a OK [MARK 1:328] EXPUNGE\nEND 0 MARK 1:328 GROUPS 11\n",
            ],
            ..RUN
        }],
        kept: &[],
    },
    Case {
        name: "an expunge is told where numbers may change",
        files: NEW,
        runs: &[Run {
            script: "a SELECT\na APPEND (\\Deleted) {2}\nhi\nb SELECT\na EXPUNGE\n\
                b FETCH 1 (FLAGS)\n\
            b NOOP\n",
            text: &[
                SELECTED,
                "a * 1 EXISTS\na * 1 FETCH (UID 1 FLAGS (\\Deleted))\n",
                "a OK [APPENDUID 1000 1] [MARK 1:72] APPEND\n",
                "b * 1 EXISTS\nb * OK [UIDVALIDITY 1000]\nb * OK [UIDNEXT 2]\n",
                "b * 1 FETCH (UID 1 FLAGS (\\Deleted))\nb OK [MARK 1:72] SELECT\n",
                "a * 1 EXPUNGE\na OK [MARK 1:100] EXPUNGE\n",
                "b * 1 FETCH (UID 1 FLAGS (\\Deleted))\nb OK [MARK 1:100] FETCH\n",
                "b * 1 EXPUNGE\nb OK [MARK 1:100] NOOP\nEND 0 MARK 1:100 GROUPS 2\n",
            ],
            ..RUN
        }],
        kept: &[],
    },
    Case {
        name: "the text of an expunged message is gone",
        files: NEW,
        runs: &[Run {
            script: "a SELECT\na APPEND (\\Deleted) {2}\nhi\nb SELECT\na EXPUNGE\n\
            b FETCH 1 (BODY[])\n",
            text: &[
                "",
                "a * 1 EXPUNGE\na OK [MARK 1:100] EXPUNGE\n",
                "b NO [EXPUNGEISSUED] UID 1 MARK 1:100\nEND 0 MARK 1:100 GROUPS 2\n",
            ],
            ..RUN
        }],
        kept: &[],
    },
];

const UNTOLD: &[Case] = &[
    Case {
        name: "a row that a session wasn't told of is passed over by its STORE",
        files: NEW,
        runs: &[Run {
            script: "a SELECT\na APPEND (\\Deleted) {1}\nx\na APPEND () {1}\ny\nb SELECT\n\
                a EXPUNGE\n\
            b STORE 1:2 +FLAGS (\\Flagged)\n",
            text: &[
                "",
                "a * 1 EXPUNGE\na OK [MARK 1:116] EXPUNGE\nb * 2 FETCH (UID 2 FLAGS (\\Flagged))\n",
                "b NO [EXPUNGEISSUED] UID 1 MARK 1:136\nEND 0 MARK 1:136 GROUPS 4\n",
            ],
            ..RUN
        }],
        kept: &[],
    },
    Case {
        name: "a message that came and went is never told",
        files: NEW,
        runs: &[Run {
            script: "a SELECT\nb SELECT\na APPEND (\\Deleted) {2}\nhi\na EXPUNGE\nb NOOP\n",
            text: &[
                "",
                "a * 1 EXPUNGE\na OK [MARK 1:100] EXPUNGE\nb OK [MARK 1:100] NOOP\n",
                "END 0 MARK 1:100 GROUPS 2\n",
            ],
            ..RUN
        }],
        kept: &[],
    },
    Case {
        name: "the largest UID",
        files: &[(
            Name::Log,
            &[
                HEADER,
                b"\x80\x80\x80\x85\x20\x00\x00\x00\x18\x00\x08\x00\xe8\x03\x00\x00\xfe\xff\xff\xff",
                CLOSED,
            ],
        )],
        runs: &[Run {
            script: "a SELECT\na APPEND () {1}\nx\na APPEND () {1}\ny\n",
            text: &[
                "",
                "a OK [APPENDUID 1000 4294967294] [MARK 1:76] APPEND\na NO [LIMIT] UIDS\n",
                "END 0 MARK 1:76 GROUPS 1\n",
            ],
            ..RUN
        }],
        kept: &[],
    },
];

const FAILED: &[Case] = &[
    Case {
        name: "a failed write is undone by the next",
        files: NEW,
        runs: &[Run {
            fails: &[11],
            script: "a SELECT\na APPEND () {5}\nhello\na STORE 1 +FLAGS (\\Seen)\n\
            a STORE 1 +FLAGS (\\Seen)\n",
            text: &[
                SELECTED,
                APPENDED,
                "a NO [UNAVAILABLE] FAULTS 1\n",
                STORED,
                "END 0 MARK 1:92 GROUPS 2\n",
            ],
            ..RUN
        }],
        kept: &[],
    },
    Case {
        name: "a failed append of no bytes is undone by the next",
        files: NEW,
        runs: &[Run {
            fails: &[7],
            script: "a SELECT\na APPEND () {0}\n\na APPEND () {0}\n",
            text: &[
                SELECTED,
                "a NO [UNAVAILABLE] FAULTS 1\n",
                APPENDED,
                "END 0 MARK 1:72 GROUPS 1\n",
            ],
            ..RUN
        }],
        kept: &[],
    },
];

const LOGS: &[Case] = &[
    Case {
        name: "a log without the four bytes behind its end",
        files: &[(
            Name::Log,
            &[
                HEADER,
                VALIDITY,
                b"\x80\x80\x80\x83\x00\x00\x08\x00\x1c\x00\x00\x00",
                APPEND,
            ],
        )],
        runs: &[Run {
            script: "a SELECT\n",
            text: &[
                ONE_SHOWN,
                "a OK [MARK 1:84] SELECT\nEND 0 MARK 1:84 GROUPS 0\n",
            ],
            ..RUN
        }],
        kept: &[],
    },
    Case {
        name: "a keyword replaces all others over a wide range",
        files: &[(
            Name::Log,
            &[
                HEADER,
                VALIDITY,
                b"\x80\x80\x80\x84\x02\x00\x00\x10\x07\x00\x00\x00\x00\x00\x00\x00",
                b"\x80\x80\x80\x86\x00\x04\x00\x10\x00\x00\x03\x00old\x00\
                    \x07\x00\x00\x00\x07\x00\x00\x00",
                b"\x80\x80\x80\x86\x00\x04\x00\x10\x02\x00\x03\x00new\x00\
                    \x01\x00\x00\x00\xff\xff\xff\xff",
                CLOSED,
            ],
        )],
        runs: &[Run {
            script: "a SELECT\n",
            text: &[
                "a * 1 EXISTS\na * OK [UIDVALIDITY 1000]\na * OK [UIDNEXT 8]\n",
                "a * 1 FETCH (UID 7 FLAGS (new))\na OK [MARK 1:120] SELECT\n",
                "END 0 MARK 1:120 GROUPS 0\n",
            ],
            ..RUN
        }],
        kept: &[],
    },
];

const MESSAGES: &[Case] = &[
    Case {
        name: "a snapshot with the cache",
        files: ONE_SEEN,
        runs: &[Run {
            script: "a SELECT\na CHECK\na FETCH 1 (FIELD Subject)\n",
            text: &[
                SEEN_SELECTED,
                "a OK [MARK 1:160] CHECK\na * 1 FETCH (UID 1 FIELD Subject NIL)\n",
                "a OK [MARK 1:160] FETCH\nEND 0 MARK 1:160 GROUPS 1\n",
            ],
            ..RUN
        }],
        kept: &[],
    },
    Case {
        name: "a message is read from its file",
        files: ONE,
        runs: &[Run {
            script: "a SELECT\na FETCH 1 (RFC822.SIZE BODY[])\n",
            text: &[
                ONE_SHOWN,
                "a OK [MARK 1:72] SELECT\na * 1 FETCH (UID 1 RFC822.SIZE 5 BODY[] {5}\nhello)\n",
                "a OK [MARK 1:72] FETCH\nEND 0 MARK 1:72 GROUPS 0\n",
            ],
            ..RUN
        }],
        kept: &[],
    },
    Case {
        name: "an empty file is no message",
        files: &[
            (Name::Log, &[HEADER, VALIDITY, APPEND, CLOSED]),
            (Name::Mail(1), &[]),
        ],
        runs: &[Run {
            script: "a SELECT\na FETCH 1 (RFC822.SIZE BODY[])\n",
            text: &[
                ONE_SHOWN,
                "a OK [MARK 1:72] SELECT\na NO [CORRUPTION] UID 1 MARK 1:72\n",
                "END 0 MARK 1:72 GROUPS 0\n",
            ],
            ..RUN
        }],
        kept: &[],
    },
];

const NUMBERS: &[Case] = &[
    Case {
        name: "numbers that aren't there",
        files: NEW,
        runs: &[Run {
            script: "a NOOP\na SELECT\na FETCH 1 (FLAGS)\na FETCH * (FLAGS)\n\
                a UID FETCH 1:* (FLAGS)\n",
            text: &[
                "a BAD NOT SELECTED\n",
                SELECTED,
                "a BAD NO MESSAGE 1\na BAD NO MESSAGE 0\na OK [MARK 1:56] UID FETCH\n",
                "END 0 MARK 1:56 GROUPS 0\n",
            ],
            ..RUN
        }],
        kept: &[],
    },
    Case {
        name: "UIDs are removed once",
        files: ONE_SEEN,
        runs: &[Run {
            script: "a SELECT\na UID REMOVE 1:5\na UID REMOVE 1:5\n",
            text: &[
                SEEN_SELECTED,
                "a * 1 EXPUNGE\na OK [MARK 1:120] UID REMOVE\na OK [MARK 1:120] UID REMOVE\n",
                "END 0 MARK 1:120 GROUPS 1\n",
            ],
            ..RUN
        }],
        kept: &[],
    },
    Case {
        name: "modification sequences",
        files: ONE_SEEN,
        runs: &[Run {
            script: "a SELECT\na FETCH 1 (MODSEQ)\na STORE 1 (UNCHANGEDSINCE 3) \
                +FLAGS (\\Flagged)\n\
            a STORE 1 (UNCHANGEDSINCE 4) +FLAGS (\\Flagged)\n",
            text: &[
                SEEN_SELECTED,
                "a * 1 FETCH (UID 1 MODSEQ (4))\na OK [MARK 1:92] FETCH\n",
                "a OK [MODIFIED 1] [MARK 1:92] STORE\n",
                "a * 1 FETCH (UID 1 FLAGS (\\Flagged \\Seen))\na OK [MARK 1:112] STORE\n",
                "END 0 MARK 1:112 GROUPS 1\n",
            ],
            ..RUN
        }],
        kept: &[],
    },
];

const DAMAGED: &[Case] = &[
    Case {
        name: "messages without a log",
        files: &[(Name::Mail(1), &[FIRST_FILE])],
        runs: &[Run {
            script: "a SELECT\n",
            status: 3,
            text: &["FAULT 3 NoLog\n"],
            ..RUN
        }],
        kept: &[],
    },
    Case {
        name: "a log header that is cut",
        files: &[(
            Name::Log,
            &[
                b"\x01\x03\x28\x00\xe8\x03\x00\x00\x01\x00\x00\x00\x00\x00\x00\x00\
                    \x00\x00\x00\x00\xe8\x03\x00",
            ],
        )],
        runs: &[Run {
            script: "a SELECT\n",
            status: 3,
            text: &["FAULT 3 BadLogHeader\n"],
            ..RUN
        }],
        kept: &[],
    },
    Case {
        name: "a log header of another size",
        files: &[(
            Name::Log,
            &[
                b"\x01\x03\x17\x00\xe8\x03\x00\x00\x01\x00\x00\x00",
                HEADER_REST,
                VALIDITY,
                CLOSED,
            ],
        )],
        runs: &[Run {
            script: "a SELECT\n",
            status: 3,
            text: &["FAULT 3 BadLogHeader\n"],
            ..RUN
        }],
        kept: &[],
    },
];

const BEHIND: &[Case] = &[
    Case {
        name: "a log header without its index's number",
        files: &[(
            Name::Log,
            &[
                b"\x01\x03\x28\x00\x00\x00\x00\x00\x01\x00\x00\x00",
                HEADER_REST,
                VALIDITY,
                CLOSED,
            ],
        )],
        runs: &[Run {
            script: "a SELECT\n",
            status: 3,
            text: &["FAULT 3 BadLogHeader\n"],
            ..RUN
        }],
        kept: &[],
    },
    Case {
        name: "the second file of a mailbox, without the first and without a snapshot",
        files: &[(
            Name::Log,
            &[
                b"\x01\x03\x28\x00\xe8\x03\x00\x00\x02\x00\x00\x00",
                HEADER_REST,
                VALIDITY,
                CLOSED,
            ],
        )],
        runs: &[Run {
            script: "a SELECT\n",
            status: 3,
            text: &["FAULT 3 BadIndex\n"],
            ..RUN
        }],
        kept: &[],
    },
    Case {
        name: "the fifth file of a mailbox",
        files: &[(
            Name::Log,
            &[
                b"\x01\x03\x28\x00\xe8\x03\x00\x00\x05\x00\x00\x00",
                HEADER_REST,
                VALIDITY,
                CLOSED,
            ],
        )],
        runs: &[Run {
            script: "a SELECT\n",
            status: 3,
            text: &["FAULT 3 BadIndex\n"],
            ..RUN
        }],
        kept: &[],
    },
];

const RECORDS: &[Case] = &[
    Case {
        name: "a UID that was given before",
        files: &[(Name::Log, &[HEADER, VALIDITY, APPEND, APPEND, CLOSED])],
        runs: &[Run {
            script: "a SELECT\n",
            status: 3,
            text: &["FAULT 3 BadRecord 72\n"],
            ..RUN
        }],
        kept: &[],
    },
    Case {
        name: "a record's size that is no multiple of four",
        files: &[(
            Name::Log,
            &[
                HEADER,
                b"\x80\x80\x80\x81\x20\x00\x00\x00\x18\x00\x04\x00\xe8\x03\x00\x00",
                CLOSED,
            ],
        )],
        runs: &[Run {
            script: "a SELECT\n",
            status: 3,
            text: &["FAULT 3 BadRecord 40\n"],
            ..RUN
        }],
        kept: &[],
    },
    Case {
        name: "an expunge without its guard",
        files: &[(
            Name::Log,
            &[
                HEADER,
                VALIDITY,
                b"\x80\x80\x80\x84\x01\x00\x00\x10\x01\x00\x00\x00\x01\x00\x00\x00",
                CLOSED,
            ],
        )],
        runs: &[Run {
            script: "a SELECT\n",
            status: 3,
            text: &["FAULT 3 BadRecord 56\n"],
            ..RUN
        }],
        kept: &[],
    },
];

const INDEXES: &[Case] = &[
    Case {
        name: "a UID of 0",
        files: &[(
            Name::Log,
            &[
                HEADER,
                VALIDITY,
                b"\x80\x80\x80\x84\x02\x00\x00\x10\x00\x00\x00\x00\x00\x00\x00\x00",
                CLOSED,
            ],
        )],
        runs: &[Run {
            script: "a SELECT\n",
            status: 3,
            text: &["FAULT 3 BadRecord 56\n"],
            ..RUN
        }],
        kept: &[],
    },
    Case {
        name: "a log of its header alone",
        files: &[(Name::Log, &[HEADER])],
        runs: &[Run {
            script: "a SELECT\n",
            text: &[
                "a * 0 EXISTS\na * OK [UIDVALIDITY 1000]\na * OK [UIDNEXT 1]\n",
                "a OK [MARK 1:40] SELECT\nEND 0 MARK 1:40 GROUPS 0\n",
            ],
            ..RUN
        }],
        kept: &[],
    },
    Case {
        name: "a snapshot that is none",
        files: &[
            (Name::Log, &[HEADER, VALIDITY, CLOSED]),
            (Name::Index, &[HEADER]),
        ],
        runs: &[Run {
            script: "a SELECT\n",
            text: &[SELECTED, "END 0 MARK 1:56 GROUPS 0\n"],
            ..RUN
        }],
        kept: &[],
    },
];

const ENDS: &[Case] = &[
    Case {
        name: "the first call fails",
        files: NEW,
        runs: &[Run {
            fails: &[1],
            script: "a SELECT\n",
            status: 2,
            text: &["FAULT 2 DISK 1\n"],
            ..RUN
        }],
        kept: &[],
    },
    Case {
        name: "the second call over a mailbox fails",
        files: MADE,
        runs: &[Run {
            fails: &[2],
            script: "a SELECT\n",
            status: 2,
            text: &["FAULT 2 DISK 1\n"],
            ..RUN
        }],
        kept: &[],
    },
    Case {
        name: "a line that is none",
        files: NEW,
        runs: &[Run {
            fails: &[1],
            script: "a FETCH 0 (FLAGS)\n",
            status: 5,
            text: &["FAULT 5 LINE 1\n"],
            ..RUN
        }],
        kept: &[],
    },
    Case {
        name: "a literal that is cut",
        files: NEW,
        runs: &[Run {
            fails: &[1],
            script: "a APPEND () {5}\nhel",
            status: 5,
            text: &["FAULT 5 SHORT LITERAL 1\n"],
            ..RUN
        }],
        kept: &[],
    },
];

#[test]
fn sessions_write_and_read(rt: HostRuntime) {
    for cases in [EMPTY, EXPUNGED, UNTOLD, NUMBERS] {
        play_cases(&rt, rt.alloc(), cases);
    }
}

#[test]
fn what_others_wrote_is_read(rt: HostRuntime) {
    for cases in [LOGS, MESSAGES, RECORDS, INDEXES] {
        play_cases(&rt, rt.alloc(), cases);
    }
}

#[test]
fn failed_calls_and_bad_folders_are_told(rt: HostRuntime) {
    for cases in [FAILED, DAMAGED, BEHIND, ENDS] {
        play_cases(&rt, rt.alloc(), cases);
    }
}
