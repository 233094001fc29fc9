//! How runs end that answer no command, or not all.

use crate::runs::{Setting, ended, given, play, shelf_of};
use dv_model::{Bytes, List};
use dv_shelf::{Name, OpenGate};
use std::alloc::Global;
use std::sync::Wait;
use std::test::Fail;
use std::thread::Threads;

const GOOD: Setting = Setting {
    words: &["run", "--threads"],
    script: b"a SELECT\nb SELECT\n",
    source_fails: &[],
    sink_fails: &[],
};

// A log without messages, whose record makes the largest UID the next one.
const LAST_UID_IS_NEXT: &[u8] = b"\x01\x03\x28\x00\xe8\x03\x00\x00\x01\x00\x00\x00\
    \x00\x00\x00\x00\x00\x00\x00\x00\xe8\x03\x00\x00\x01\x00\x00\x00\
    \x00\x00\x00\x00\x01\x00\x00\x00\x00\x00\x00\x00\
    \x80\x80\x80\x85\x20\x00\x00\x00\x18\x00\x08\x00\xe8\x03\x00\x00\xfe\xff\xff\xff\
    \x00\x00\x00\x00";

/// What a run over a folder is given that has perhaps one file and of which these calls fail, and
/// how it ends.
struct Case {
    given: Setting<'static>,
    file: Option<(Name, &'static [u8])>,
    fails: &'static [u32],
    status: u8,
    output: &'static str,
}

const CASES: &[Case] = &[
    // Other words.
    Case {
        given: Setting {
            words: &["run", "--threads", "2"],
            ..GOOD
        },
        file: None,
        fails: &[],
        status: 1,
        output: "FAULT 1 USAGE\n",
    },
    // The first call on the folder fails.
    Case {
        given: GOOD,
        file: None,
        fails: &[1],
        status: 2,
        output: "FAULT 2 DISK 1\n",
    },
    // Message files without a log, and a log without a whole header.
    Case {
        given: GOOD,
        file: Some((Name::Mail(1), b"2")),
        fails: &[],
        status: 3,
        output: "FAULT 3 NoLog\n",
    },
    Case {
        given: GOOD,
        file: Some((Name::Log, b"\x01\x03\x28\x00\xe8\x03\x00\x00\x01\x00\x00")),
        fails: &[],
        status: 3,
        output: "FAULT 3 BadLogHeader\n",
    },
    // The last UID is given.
    Case {
        given: Setting {
            script: b"a SELECT\na APPEND () {1}\nx\na APPEND () {1}\ny\n",
            ..GOOD
        },
        file: Some((Name::Log, LAST_UID_IS_NEXT)),
        fails: &[],
        status: 0,
        output: "a * 0 EXISTS\na * OK [UIDVALIDITY 1000]\na * OK [UIDNEXT 4294967294]\n\
            a OK [MARK 1:60] SELECT\n\
            a * 1 EXISTS\na * 1 FETCH (UID 4294967294 FLAGS ())\n\
            a OK [APPENDUID 1000 4294967294] [MARK 1:76] APPEND\na NO [LIMIT] UIDS\n\
            END 0 MARK 1:76 GROUPS 1\n",
    },
    // Scripts that are none: the folder isn't looked at.
    Case {
        given: Setting {
            script: b"a SELECT\nb FETCH 0 (FLAGS)\n",
            ..GOOD
        },
        file: None,
        fails: &[1],
        status: 5,
        output: "FAULT 5 LINE 2\n",
    },
    Case {
        given: Setting {
            script: b"a APPEND () {5}\nhel",
            ..GOOD
        },
        file: None,
        fails: &[1],
        status: 5,
        output: "FAULT 5 SHORT LITERAL 1\n",
    },
    // The script can't be read.
    Case {
        given: Setting {
            source_fails: &[1],
            ..GOOD
        },
        file: None,
        fails: &[],
        status: 6,
        output: "FAULT 6 SOURCE 1\n",
    },
    // The output fails.
    Case {
        given: Setting {
            sink_fails: &[1],
            ..GOOD
        },
        file: None,
        fails: &[],
        status: 7,
        output: "",
    },
];

// Fails unless the case ends so.
fn check<R: Threads + Wait + Sync>(rt: &R, alloc: Global, case: &Case) -> Result<(), Fail> {
    let mut folder = List::new(alloc);
    if let Some((name, bytes)) = case.file {
        folder.push((name, Bytes::from_slice(alloc, bytes)?))?;
    }
    let shelf = shelf_of(alloc, &folder, case.fails)?;
    let left = play(rt, alloc, shelf, &OpenGate, case.given)?;
    ended(&left, case.status, case.output.as_bytes())
}

#[test]
fn each_fault_has_its_status(rt: HostRuntime) -> Result<(), Fail> {
    for case in CASES {
        check(&rt, rt.alloc(), case)?;
    }
    Ok(())
}

#[test]
fn a_last_command_needs_no_line_end(rt: HostRuntime) -> Result<(), Fail> {
    let alloc = rt.alloc();
    let shelf = shelf_of(alloc, &List::new(alloc), &[])?;
    let left = play(
        &rt,
        alloc,
        shelf,
        &OpenGate,
        given(b"\n# none\r\n\r\na NOOP"),
    )?;
    ended(&left, 0, b"a BAD NOT SELECTED\nEND 0 MARK 1:56 GROUPS 0\n")
}
