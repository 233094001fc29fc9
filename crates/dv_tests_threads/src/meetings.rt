//! Two sessions whose commands wait for one another, so that each answer is known.

use crate::gates::{Meeting, MeetingGate};
use crate::runs::{ended, given, play, shelf_of};
use dv_model::List;
use std::alloc::Global;
use std::sync::Wait;
use std::test::Fail;
use std::thread::Threads;

/// The sessions a and b in a new folder: how they meet, how many commands each has, and what is
/// printed.
struct Case {
    script: &'static [u8],
    meetings: &'static [Meeting],
    commands: (u64, u64),
    output: &'static [&'static str],
}

const A_SELECTED: &str =
    "a * 0 EXISTS\na * OK [UIDVALIDITY 1000]\na * OK [UIDNEXT 1]\na OK [MARK 1:56] SELECT\n";

const B_SELECTED: &str =
    "b * 0 EXISTS\nb * OK [UIDVALIDITY 1000]\nb * OK [UIDNEXT 1]\nb OK [MARK 1:56] SELECT\n";

const A_APPENDED: &str = "a * 1 EXISTS\na * 1 FETCH (UID 1 FLAGS (\\Deleted))\n\
    a OK [APPENDUID 1000 1] [MARK 1:72] APPEND\n";

const A_EXPUNGED: &str = "a * 1 EXPUNGE\na OK [MARK 1:100] EXPUNGE\na OK [MARK 1:100] NOOP\n";

const B_SHOWN: &str = "b * 1 EXISTS\nb * OK [UIDVALIDITY 1000]\nb * OK [UIDNEXT 2]\n\
    b * 1 FETCH (UID 1 FLAGS (\\Deleted))\nb OK [MARK 1:72] SELECT\n";

const MEETINGS: &[Case] = &[
    // Both have begun before either goes on.
    Case {
        script: b"a SELECT\na NOOP\nb SELECT\nb NOOP\n",
        meetings: &[((1, 2), (2, 2)), ((2, 2), (1, 2))],
        commands: (2, 2),
        output: &[
            A_SELECTED,
            "a OK [MARK 1:56] NOOP\n",
            B_SELECTED,
            "b OK [MARK 1:56] NOOP\nEND 0 MARK 1:56 GROUPS 0\n",
        ],
    },
    // A command isn't answered before the gate lets it begin.
    Case {
        script: b"a SELECT\na NOOP\nb SELECT\nb APPEND () {1}\nx\nb FETCH 1 (FLAGS)\nb NOOP\n\
            b NOOP\n",
        meetings: &[((2, 2), (1, 2)), ((1, 2), (2, 5))],
        commands: (2, 5),
        output: &[
            A_SELECTED,
            "a * 1 EXISTS\na * 1 FETCH (UID 1 FLAGS ())\na OK [MARK 1:72] NOOP\n",
            B_SELECTED,
            "b * 1 EXISTS\nb * 1 FETCH (UID 1 FLAGS ())\n",
            "b OK [APPENDUID 1000 1] [MARK 1:72] APPEND\n",
            "b * 1 FETCH (UID 1 FLAGS ())\nb OK [MARK 1:72] FETCH\n",
            "b OK [MARK 1:72] NOOP\nb OK [MARK 1:72] NOOP\nEND 0 MARK 1:72 GROUPS 1\n",
        ],
    },
];

// What b is told of two messages, of which one is expunged then.
const B_SHOWN_TWO: &str = "b * 2 EXISTS\nb * OK [UIDVALIDITY 1000]\nb * OK [UIDNEXT 3]\n\
    b * 1 FETCH (UID 1 FLAGS (\\Deleted))\nb * 2 FETCH (UID 2 FLAGS ())\n\
    b OK [MARK 1:88] SELECT\n";

const EXPUNGES: &[Case] = &[
    // An expunge is told where numbers may change.
    Case {
        script: b"a SELECT\na APPEND (\\Deleted) {2}\nhi\nb SELECT\na EXPUNGE\nb FETCH 1 (FLAGS)\n\
            b NOOP\na NOOP\n",
        meetings: &[((2, 1), (1, 3)), ((1, 3), (2, 2)), ((2, 2), (1, 4))],
        commands: (4, 3),
        output: &[
            A_SELECTED,
            A_APPENDED,
            A_EXPUNGED,
            B_SHOWN,
            "b * 1 FETCH (UID 1 FLAGS (\\Deleted))\nb OK [MARK 1:100] FETCH\n",
            "b * 1 EXPUNGE\nb OK [MARK 1:100] NOOP\nEND 0 MARK 1:100 GROUPS 2\n",
        ],
    },
    // The text of an expunged message is gone.
    Case {
        script: b"a SELECT\na APPEND (\\Deleted) {2}\nhi\nb SELECT\na EXPUNGE\n\
            b FETCH 1 (BODY[])\na NOOP\n",
        meetings: &[((2, 1), (1, 3)), ((1, 3), (2, 2)), ((2, 2), (1, 4))],
        commands: (4, 2),
        output: &[
            A_SELECTED,
            A_APPENDED,
            A_EXPUNGED,
            B_SHOWN,
            "b NO [EXPUNGEISSUED] UID 1 MARK 1:100\nEND 0 MARK 1:100 GROUPS 2\n",
        ],
    },
    // A message that a session wasn't told to be gone is passed over by its STORE.
    Case {
        script: b"a SELECT\na APPEND (\\Deleted) {1}\nx\na APPEND () {1}\ny\nb SELECT\na EXPUNGE\n\
            b STORE 1:2 +FLAGS (\\Flagged)\na NOOP\nb NOOP\n",
        meetings: &[
            ((2, 1), (1, 4)),
            ((1, 4), (2, 2)),
            ((2, 2), (1, 5)),
            ((1, 5), (2, 3)),
        ],
        commands: (5, 3),
        output: &[
            A_SELECTED,
            A_APPENDED,
            "a * 2 EXISTS\na * 2 FETCH (UID 2 FLAGS ())\n",
            "a OK [APPENDUID 1000 2] [MARK 1:88] APPEND\n",
            "a * 1 EXPUNGE\na OK [MARK 1:116] EXPUNGE\n",
            "a * 1 FETCH (UID 2 FLAGS (\\Flagged))\na OK [MARK 1:136] NOOP\n",
            B_SHOWN_TWO,
            "b * 2 FETCH (UID 2 FLAGS (\\Flagged))\n",
            "b NO [EXPUNGEISSUED] UID 1 MARK 1:136\n",
            "b * 1 EXPUNGE\nb OK [MARK 1:136] NOOP\nEND 0 MARK 1:136 GROUPS 4\n",
        ],
    },
    // A message that came and went is never told.
    Case {
        script: b"a SELECT\nb SELECT\na APPEND (\\Deleted) {2}\nhi\na EXPUNGE\nb NOOP\na NOOP\n",
        meetings: &[((1, 2), (2, 2)), ((2, 2), (1, 4))],
        commands: (4, 2),
        output: &[
            A_SELECTED,
            A_APPENDED,
            A_EXPUNGED,
            B_SELECTED,
            "b OK [MARK 1:100] NOOP\nEND 0 MARK 1:100 GROUPS 2\n",
        ],
    },
];

// Fails unless both sessions met, and were answered so.
fn check<R: Threads + Wait + Sync>(rt: &R, alloc: Global, case: &Case) -> Result<(), Fail> {
    let gate = MeetingGate::new(case.meetings, 10_000_000);
    let shelf = shelf_of(alloc, &List::new(alloc), &[])?;
    let left = play(rt, alloc, shelf, &gate, given(case.script))?;
    if !gate.all_met() {
        return Err(Fail::from("a wait gave up"));
    }
    if gate.called() != case.commands {
        return Err(Fail::from("the gate was called for other commands"));
    }
    let mut output = List::new(alloc);
    for part in case.output {
        output.extend(part.as_bytes())?;
    }
    ended(&left, 0, output.as_slice())
}

#[test]
fn sessions_meet_at_a_gate(rt: HostRuntime) -> Result<(), Fail> {
    for case in MEETINGS {
        check(&rt, rt.alloc(), case)?;
    }
    Ok(())
}

#[test]
fn an_expunge_is_told_by_what_its_session_may_know(rt: HostRuntime) -> Result<(), Fail> {
    for case in EXPUNGES {
        check(&rt, rt.alloc(), case)?;
    }
    Ok(())
}
