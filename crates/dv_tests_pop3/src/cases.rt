//! The lines of a session over a mailbox, and what is printed.

use crate::runs::{ended, folder_of, given, play, shelf_of};
use dv_model::{Bytes, List};
use dv_shelf::{Folder, Name};
use std::alloc::Global;
use std::sync::Wait;
use std::test::Fail;
use std::thread::Threads;

/// The messages of a mailbox, further lines of who appended them, which message files were spoilt
/// then (their bytes; none where one was removed), the lines of a session, and what is printed.
pub struct Case {
    pub messages: &'static [&'static [u8]],
    pub lines: &'static [u8],
    pub spoilt: &'static [(u32, Option<&'static [u8]>)],
    pub script: &'static [u8],
    pub output: &'static str,
}

/// No line over an empty folder, where a mailbox is made.
pub const NONE: Case = Case {
    messages: &[],
    lines: b"",
    spoilt: &[],
    script: b"",
    output: "+OK\r\nEND 0 MARK 1:56 GROUPS 0\n",
};

// Whether the file is one that was spoilt.
fn is_spoilt(case: &Case, name: Name) -> bool {
    case.spoilt
        .iter()
        .any(|(number, _)| name == Name::Mail(*number))
}

// The files of the folder of a case.
fn folder<R: Threads + Wait + Sync>(rt: &R, alloc: Global, case: &Case) -> Result<Folder, Fail> {
    let files = folder_of(rt, alloc, case.messages, case.lines)?;
    let mut folder = List::new(alloc);
    for (name, bytes) in files.as_slice() {
        if !is_spoilt(case, *name) {
            folder.push((*name, Bytes::from_slice(alloc, bytes.as_slice())?))?;
        }
    }
    for (number, bytes) in case.spoilt {
        if let Some(bytes) = bytes {
            folder.push((Name::Mail(*number), Bytes::from_slice(alloc, bytes)?))?;
        }
    }
    Ok(folder)
}

/// Fails unless that is printed, at status 0.
pub fn check<R: Threads + Wait + Sync>(rt: &R, alloc: Global, case: &Case) -> Result<(), Fail> {
    let shelf = shelf_of(alloc, &folder(rt, alloc, case)?, &[], None)?;
    let left = play(rt, alloc, shelf, given(case.script))?;
    ended(&left, 0, case.output.as_bytes())
}

/// Fails unless each of them ends so.
pub fn check_all<R: Threads + Wait + Sync>(
    rt: &R,
    alloc: Global,
    cases: &[Case],
) -> Result<(), Fail> {
    for case in cases {
        check(rt, alloc, case)?;
    }
    Ok(())
}
