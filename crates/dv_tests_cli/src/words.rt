//! What other words ask for, what is told beside the output, and calls outside that fail.

use crate::rows::{APPEND, FIRST_FILE, HEADER, NEW, VALIDITY};
use crate::runs::{Case, Files, RUN, Run, play_cases};
use dv_shelf::Name;

const SECOND: &[u8] = b"\x80\x80\x80\x84\x02\x00\x00\x10\x02\x00\x00\x00\x00\x00\x00\x00";

const THIRD: &[u8] = b"\x80\x80\x80\x84\x02\x00\x00\x10\x03\x00\x00\x00\x00\x00\x00\x00";

const FOURTH: &[u8] = b"\x80\x80\x80\x84\x02\x00\x00\x10\x04\x00\x00\x00\x00\x00\x00\x00";

const SECOND_SEEN: &[u8] =
    b"\x80\x80\x80\x85\x04\x00\x00\x10\x02\x00\x00\x00\x02\x00\x00\x00\x08\x00\x00\x00";

// Four messages, of which the second has `\Seen` and the third an empty file, and the first bytes
// of one more record at place 140.
const CUT: Files = &[
    (
        Name::Log,
        &[
            HEADER,
            VALIDITY,
            APPEND,
            SECOND,
            THIRD,
            FOURTH,
            SECOND_SEEN,
            b"\x80\x80\x80\x84\x02\x00\x00\x10\x05\x00",
        ],
    ),
    (Name::Mail(1), &[FIRST_FILE]),
    (Name::Mail(2), &[FIRST_FILE]),
    (Name::Mail(3), &[]),
    (Name::Mail(4), &[FIRST_FILE]),
];

const SALVAGED: &str = "a * 3 EXISTS\na * OK [UIDVALIDITY 1000]\na * OK [UIDNEXT 5]\n\
    a * 1 FETCH (UID 1 FLAGS ())\na * 2 FETCH (UID 2 FLAGS (\\Seen))\n\
    a * 3 FETCH (UID 4 FLAGS ())\na OK [MARK 1:104] SELECT\nEND 0 MARK 1:104 GROUPS 0\n";

const REBUILDS: &[Case] = &[
    Case {
        name: "a damaged folder isn't opened",
        files: CUT,
        runs: &[Run {
            script: "a SELECT\n",
            status: 3,
            text: &["FAULT 3 BadRecord 140\n"],
            ..RUN
        }],
        kept: &[],
    },
    Case {
        name: "a rebuild that the disk fails",
        files: CUT,
        runs: &[Run {
            words: &["rebuild"],
            script: "a SELECT\n",
            fails: &[2],
            status: 2,
            text: &["FAULT 2 DISK 1\n"],
            ..RUN
        }],
        kept: &[],
    },
    Case {
        name: "a damaged folder is rebuilt and served",
        files: CUT,
        runs: &[
            Run {
                words: &["rebuild"],
                script: "a SELECT\n",
                text: &["END 0 REBUILT kept 3 skipped 1\n"],
                ..RUN
            },
            Run {
                script: "a SELECT\n",
                text: &[SALVAGED],
                ..RUN
            },
        ],
        kept: &[],
    },
];

const WATCHED: &str = "a * 0 EXISTS\na * OK [UIDVALIDITY 1000]\na * OK [UIDNEXT 1]\n\
    a OK [MARK 1:56] SELECT\na * 1 EXISTS\na * 1 FETCH (UID 1 FLAGS ())\n\
    a OK [APPENDUID 1000 1] [MARK 1:72] APPEND\nWATCH\na * 1 FETCH (UID 1 FLAGS (\\Seen))\n\
    a OK [MARK 1:92] STORE\nWATCH 1\nEND 0 MARK 1:92 GROUPS 2\n";

// Both loads were played by another program, by the generator's definition.
const OTHERS: &[Case] = &[
    Case {
        name: "what a search finds is told behind each group",
        files: NEW,
        runs: &[Run {
            words: &["watch", "SEEN"],
            script: "a SELECT\na APPEND () {5}\nhello\na STORE 1 +FLAGS (\\Seen)\n",
            text: &[WATCHED],
            ..RUN
        }],
        kept: &[],
    },
    Case {
        name: "a load of one line is told and no reply",
        files: NEW,
        runs: &[Run {
            words: &["gen", "7", "1", "1"],
            text: &["GEN 7 1 1 EXISTS 0 UIDNEXT 1\nEND 0 MARK 1:56 GROUPS 0\n"],
            ..RUN
        }],
        kept: &[],
    },
    Case {
        name: "a load is told and no reply",
        files: NEW,
        runs: &[Run {
            words: &["gen", "7", "5000", "8"],
            text: &[
                "GEN 7 5000 8 EXISTS 1510 UIDNEXT 1910\n",
                "END 0 MARK 1:49148 GROUPS 2340\n",
            ],
            ..RUN
        }],
        kept: &[],
    },
];

const USAGE: Run = Run {
    status: 1,
    text: &["FAULT 1 USAGE\n"],
    ..RUN
};

const WRONG: &[Case] = &[Case {
    name: "words with other numbers ask for nothing",
    files: NEW,
    runs: &[
        Run {
            words: &["gen", "7", "1"],
            ..USAGE
        },
        Run {
            words: &["gen", "07", "1", "1"],
            ..USAGE
        },
        Run {
            words: &["gen", "+7", "1", "1"],
            ..USAGE
        },
        Run {
            words: &["gen", "18446744073709551616", "1", "1"],
            ..USAGE
        },
        Run {
            words: &["gen", "7", "1000001", "1"],
            ..USAGE
        },
        Run {
            words: &["gen", "7", "1", "0"],
            ..USAGE
        },
        Run {
            words: &["gen", "7", "1", "65"],
            ..USAGE
        },
        Run {
            words: &["rebuild", "again"],
            ..USAGE
        },
        Run {
            words: &["watch"],
            ..USAGE
        },
        Run {
            words: &["watch", "seen"],
            ..USAGE
        },
        Run {
            words: &["watch", "SEEN DELETED"],
            ..USAGE
        },
        Run {
            words: &["watch", "NOT LARGER 1"],
            ..USAGE
        },
    ],
    kept: &[],
}];

const FOUND: &str = "dovecot.index.log: flags and keywords come from it
dovecot.index.log.2: there is none
dovecot.index: there is none
messages in none of these files, kept without flags: 0
UIDVALIDITY 1000: kept
u.3 skipped: its first line is damaged
skipped files stay until the next CHECK, which removes those below UIDNEXT
";

const TOLD: &[Case] = &[
    Case {
        name: "a bad line is told",
        files: CUT,
        runs: &[Run {
            script: "a SELECT\na N\x01PE\na NOOP\n",
            status: 5,
            told: Some("bad line: a N?PE\n"),
            ..RUN
        }],
        kept: &[],
    },
    Case {
        name: "a line with a literal that is cut is told",
        files: CUT,
        runs: &[Run {
            script: "a APPEND () {9}\nshort",
            status: 5,
            told: Some("bad line: a APPEND () {9}\n"),
            ..RUN
        }],
        kept: &[],
    },
    Case {
        name: "nothing is told of good lines",
        files: CUT,
        runs: &[Run {
            script: "a SELECT\n",
            status: 3,
            told: Some(""),
            ..RUN
        }],
        kept: &[],
    },
    Case {
        name: "what a rebuild found is told",
        files: CUT,
        runs: &[Run {
            words: &["rebuild"],
            told: Some(FOUND),
            ..RUN
        }],
        kept: &[],
    },
];

const GOOD: Run = Run {
    script: "a SELECT\na APPEND () {1}\nx\n",
    ..RUN
};

const OUTSIDE: &[Case] = &[Case {
    name: "each fault outside has its status",
    files: NEW,
    runs: &[
        Run {
            words: &["run", "--thread"],
            status: 1,
            text: &["FAULT 1 USAGE\n"],
            ..GOOD
        },
        Run {
            words: &[],
            status: 1,
            text: &["FAULT 1 USAGE\n"],
            ..GOOD
        },
        Run {
            source_fails: &[1],
            status: 6,
            text: &["FAULT 6 SOURCE 1\n"],
            ..GOOD
        },
        Run {
            source_fails: &[2],
            status: 6,
            text: &["FAULT 6 SOURCE 1\n"],
            ..GOOD
        },
        Run {
            sink_fails: &[1],
            status: 7,
            text: &[],
            ..GOOD
        },
    ],
    kept: &[],
}];

#[test]
fn other_words_ask_for_other_tasks(rt: HostRuntime) {
    for cases in [REBUILDS, OTHERS, WRONG, TOLD, OUTSIDE] {
        play_cases(&rt, rt.alloc(), cases);
    }
}
