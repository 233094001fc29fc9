//! How runs end that answer no line, or not all.

use crate::runs::{Setting, ended, files_of, folder_of, given, play, play_at, shelf_of};
use dv_model::{Bytes, List};
use dv_shelf::{Folder, Gate, Name};
use std::alloc::Global;
use std::sync::Wait;
use std::sync::atomic::{AtomicU64, Ordering};
use std::test::Fail;
use std::thread::Threads;

const GOOD: Setting = Setting {
    words: &["pop3"],
    script: b"STAT\nNOOP\n",
    source_fails: &[],
    sink_fails: &[],
};

/// What a run is given over a folder with perhaps one file, of which these calls fail, how it ends,
/// and how many files are left.
struct Case {
    given: Setting<'static>,
    file: Option<(Name, &'static [u8])>,
    fails: &'static [u32],
    status: u8,
    output: &'static str,
    files: usize,
}

const ENDED: Case = Case {
    given: GOOD,
    file: None,
    fails: &[],
    status: 0,
    output: "+OK\r\n+OK 0 0\r\n+OK\r\nEND 0 MARK 1:56 GROUPS 0\n",
    files: 1,
};

const CASES: &[Case] = &[
    ENDED,
    // Other words.
    Case {
        given: Setting {
            words: &["pop3", "1"],
            ..GOOD
        },
        status: 1,
        output: "FAULT 1 USAGE\n",
        files: 0,
        ..ENDED
    },
    Case {
        given: Setting {
            words: &["POP3"],
            ..GOOD
        },
        status: 1,
        output: "FAULT 1 USAGE\n",
        files: 0,
        ..ENDED
    },
    // A folder that can't be listed, or made.
    Case {
        fails: &[1],
        status: 2,
        output: "FAULT 2 DISK 1\n",
        files: 0,
        ..ENDED
    },
    Case {
        fails: &[2],
        status: 2,
        output: "FAULT 2 DISK 1\n",
        files: 0,
        ..ENDED
    },
    // Message files without a log, and a log without a whole header.
    Case {
        file: Some((Name::Mail(1), b"2")),
        status: 3,
        output: "FAULT 3 NoLog\n",
        ..ENDED
    },
    Case {
        file: Some((Name::Log, b"\x01\x03\x28\x00\xe8\x03\x00\x00\x01\x00\x00")),
        status: 3,
        output: "FAULT 3 BadLogHeader\n",
        ..ENDED
    },
    // The script can't be read: the folder isn't looked at.
    Case {
        given: Setting {
            source_fails: &[1],
            ..GOOD
        },
        status: 6,
        output: "FAULT 6 SOURCE 1\n",
        files: 0,
        ..ENDED
    },
    // The greeting can't be written, an answer, or the last line.
    Case {
        given: Setting {
            sink_fails: &[1],
            ..GOOD
        },
        status: 7,
        output: "",
        ..ENDED
    },
    Case {
        given: Setting {
            sink_fails: &[3],
            ..GOOD
        },
        status: 7,
        output: "+OK\r\n+OK 0 0\r\n",
        ..ENDED
    },
    Case {
        given: Setting {
            sink_fails: &[4],
            ..GOOD
        },
        status: 7,
        output: "+OK\r\n+OK 0 0\r\n+OK\r\n",
        ..ENDED
    },
];

// The folder of a case.
fn folder(alloc: Global, case: &Case) -> Result<Folder, Fail> {
    let mut folder = List::new(alloc);
    if let Some((name, bytes)) = case.file {
        folder.push((name, Bytes::from_slice(alloc, bytes)?))?;
    }
    Ok(folder)
}

// Fails unless the case ends so.
fn check<R: Threads + Wait + Sync>(rt: &R, alloc: Global, case: &Case) -> Result<(), Fail> {
    let shelf = shelf_of(alloc, &folder(alloc, case)?, case.fails, None)?;
    let mut left = play(rt, alloc, shelf, case.given)?;
    ended(&left, case.status, case.output.as_bytes())?;
    if files_of(alloc, &mut left.shelf)?.len() != case.files {
        return Err(Fail::from("another number of files"));
    }
    Ok(())
}

#[test]
fn each_end_has_its_status(rt: HostRuntime) -> Result<(), Fail> {
    for case in CASES {
        check(&rt, rt.alloc(), case)?;
    }
    Ok(())
}

#[test]
fn a_script_of_more_than_64_mib_is_refused(rt: HostRuntime) -> Result<(), Fail> {
    let alloc = rt.alloc();
    let script = vec![in alloc; b'\n'; 67_108_865]?;
    let shelf = shelf_of(alloc, &List::new(alloc), &[1], None)?;
    let left = play(&rt, alloc, shelf, given(script.as_slice()))?;
    ended(&left, 5, b"FAULT 5 TOO LONG\n")
}

/// A gate that counts its calls.
#[derive(Drop)]
struct CountingGate {
    calls: AtomicU64,
}

impl Gate for CountingGate {
    fn before(&self, _session: u32, _command: u32) {
        self.calls.fetch_add(1, Ordering::SeqCst);
    }
}

#[test]
fn no_gate_is_called(rt: HostRuntime) -> Result<(), Fail> {
    let alloc = rt.alloc();
    let folder = folder_of(&rt, alloc, &[b"hello"], b"")?;
    let gate = CountingGate {
        calls: AtomicU64::new(0),
    };
    let shelf = shelf_of(alloc, &folder, &[], None)?;
    let left = play_at(&rt, alloc, shelf, &gate, given(b"RETR 1\nDELE 1\nQUIT\n"))?;
    if gate.calls.load(Ordering::SeqCst) != 0 {
        return Err(Fail::from("it is called"));
    }
    ended(
        &left,
        0,
        b"+OK\r\n+OK 5\r\nhello\r\n.\r\n+OK\r\n+OK\r\nEND 0 MARK 1:100 GROUPS 1\n",
    )
}
