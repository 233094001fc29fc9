use crate::allowed::Change;
use crate::cases::{Case, all_hold};
use crate::folders::{Failures, Found, NEW, Setup, Step, WITH_LOG, count_calls, play};
use dv_disk::Missing;
use dv_memory_system::Trace;
use dv_model::NoMemory;
use dv_shelf::Name;
use std::alloc::Global;
use std::test::Fail;

const RUN: [Change; 10] = [
    Change::Replace(Name::Index, b"first"),
    Change::Write(Name::Log, 0, b"abcd"),
    Change::Sync(Name::Log),
    Change::Write(Name::Log, 2, b"wxyz"),
    Change::Sync(Name::Log),
    Change::Replace(Name::Log, b"another log"),
    Change::Write(Name::Log, 8, b"LOG!"),
    Change::Replace(Name::Index, b"second"),
    Change::Sync(Name::Log),
    Change::Remove(Name::Index),
];

// A folder, and what holds of it.
enum Played {
    Once(Setup<'static>, &'static [Step]),
    // Each call from the first to the last fails alone, and leaves this trace.
    Fails(Trace, u32, u32, &'static [Step]),
    // Each of so many numbers of calls is how many pass.
    Stops(u32, Setup<'static>, &'static [Step]),
    // The run, of which each call fails alone and leaves this trace, or else is the first that
    // fails.
    Run(Option<Trace>),
}

// The call fails alone and leaves this trace, or else so many calls pass.
fn setup_of<'a>(
    setup: &Setup<'a>,
    trace: Option<Trace>,
    fails: &'a [u32],
    passing: u32,
) -> Setup<'a> {
    match trace {
        Some(trace) => Setup {
            fails,
            trace,
            ..*setup
        },
        None => Setup {
            stop: Some(passing),
            ..*setup
        },
    }
}

// Whether the steps hold of each call from the first to the last.
fn hold_in_turn(
    alloc: Global,
    setup: &Setup<'_>,
    trace: Option<Trace>,
    calls: (u32, u32),
    steps: &[Step],
) -> Result<bool, NoMemory> {
    for call in calls.0..=calls.1 {
        let fails = [call];
        let failing = setup_of(setup, trace, &fails, call.saturating_sub(1));
        if !play(alloc, &failing, steps)? {
            return Ok(false);
        }
    }
    Ok(true)
}

fn run_holds(alloc: Global, trace: Option<Trace>) -> Result<bool, NoMemory> {
    let count = count_calls(alloc, &RUN)?;
    let steps = [Step::Follows(None, &RUN, Failures::Some)];
    Ok(20 < count && count < 100 && hold_in_turn(alloc, &NEW, trace, (1, count), &steps)?)
}

impl Case for Played {
    fn holds(&self, alloc: Global) -> Result<bool, NoMemory> {
        match self {
            Played::Once(setup, steps) => play(alloc, setup, steps),
            Played::Fails(trace, first, last, steps) => {
                hold_in_turn(alloc, &WITH_LOG, Some(*trace), (*first, *last), steps)
            }
            Played::Stops(count, setup, steps) => {
                hold_in_turn(alloc, setup, None, (1, *count), steps)
            }
            Played::Run(trace) => run_holds(alloc, *trace),
        }
    }
}

const READ_AND_LISTED: [Step; 9] = [
    Step::Lists(&[]),
    Step::Reads(Name::Log, None),
    Step::Follows(None, &RUN, Failures::None),
    Step::Reads(Name::Log, Some(b"another LOG!")),
    Step::Reads(Name::Index, None),
    Step::Changes(Change::Replace(Name::Mail(7), b"mail"), true),
    Step::Lists(&[Name::Log, Name::Mail(7)]),
    Step::Has(Some(true)),
    Step::Faults(0),
];

const LOCK_FAILS: Setup<'static> = Setup {
    fails: &[2, 4, 6, 8, 10, 12, 14],
    trace: Trace::Shown,
    ..NEW
};

// Each of the seven calls makes the folder, and is refused its lock; and then none is.
const UNLOCKED: [Step; 16] = [
    Step::Has(None),
    Step::ListFails,
    Step::ReadFails(Name::Log),
    Step::Changes(Change::Write(Name::Log, 0, b"log"), false),
    Step::Changes(Change::Sync(Name::Log), false),
    Step::Changes(Change::Replace(Name::Log, b"log"), false),
    Step::Changes(Change::Remove(Name::Log), false),
    Step::Faults(7),
    Step::Calls(14),
    Step::Has(Some(false)),
    Step::Lists(&[]),
    Step::Reads(Name::Log, None),
    Step::Changes(Change::Write(Name::Log, 0, b"log"), true),
    Step::Changes(Change::Sync(Name::Log), true),
    Step::Changes(Change::Replace(Name::Log, b"log"), true),
    Step::Changes(Change::Remove(Name::Log), true),
];

const GAPS: [Step; 6] = [
    Step::Changes(Change::Write(Name::Log, 2, b""), true),
    Step::Reads(Name::Log, Some(b"\0\0")),
    Step::Changes(Change::Write(Name::Log, 1, b""), true),
    Step::Reads(Name::Log, Some(b"\0\0")),
    Step::Changes(Change::Write(Name::Log, 5, b""), true),
    Step::Reads(Name::Log, Some(b"\0\0\0\0\0")),
];

const LEFT_OVER: Setup<'static> = Setup {
    found: Found::Folder(Some((Name::Log, b"log")), b"a longer text of a killed run"),
    ..NEW
};

const WRITTEN_OVER: [Step; 2] = [
    Step::Follows(
        Some(b"log"),
        &[Change::Replace(Name::Log, b"new")],
        Failures::Any,
    ),
    Step::ListsOrFails(&[Name::Log]),
];

// Behind the removal of the old temporary file a new one is made, written, synced and renamed, and
// then the folder is synced.
const CLEARED: [Step; 3] = [
    Step::Changes(Change::Replace(Name::Log, b"new"), false),
    Step::Temporary(false),
    Step::Faults(1),
];

const NOT_REMOVED: [Step; 2] = [
    Step::Changes(Change::Replace(Name::Log, b"new"), false),
    Step::Temporary(true),
];

const REPLACED: [Step; 2] = [
    Step::Changes(Change::Replace(Name::Log, b"new"), true),
    Step::Faults(0),
];

const REFUSING: Setup<'static> = Setup {
    missing: Missing::Refuse,
    ..NEW
};

const REFUSING_WITH_LOG: Setup<'static> = Setup {
    missing: Missing::Refuse,
    ..WITH_LOG
};

// Each of the seven calls looks for the folder, and does nothing else.
const REFUSED: [Step; 9] = [
    Step::Has(None),
    Step::ListFails,
    Step::ReadFails(Name::Log),
    Step::Changes(Change::Write(Name::Log, 0, b"log"), false),
    Step::Changes(Change::Sync(Name::Log), false),
    Step::Changes(Change::Replace(Name::Log, b"log"), false),
    Step::Changes(Change::Remove(Name::Log), false),
    Step::Faults(7),
    Step::Calls(7),
];

const NOT_REFUSED: [Step; 7] = [
    Step::Has(Some(true)),
    Step::Lists(&[Name::Log]),
    Step::Reads(Name::Log, Some(b"log")),
    Step::Changes(Change::Write(Name::Log, 0, b"log"), true),
    Step::Changes(Change::Sync(Name::Log), true),
    Step::Changes(Change::Replace(Name::Log, b"log"), true),
    Step::Changes(Change::Remove(Name::Log), true),
];

const CASES: [(&str, Played); 21] = [
    (
        "changes are read and listed",
        Played::Once(NEW, &READ_AND_LISTED),
    ),
    (
        "nothing is done without the lock",
        Played::Once(LOCK_FAILS, &UNLOCKED),
    ),
    ("a write of no bytes fills a gap", Played::Once(NEW, &GAPS)),
    (
        "a call fails that has done nothing",
        Played::Run(Some(Trace::Nothing)),
    ),
    (
        "a call fails and reads do not see what it did",
        Played::Run(Some(Trace::Hidden)),
    ),
    (
        "a call fails and reads see what it did",
        Played::Run(Some(Trace::Shown)),
    ),
    ("each call is the last", Played::Run(None)),
    (
        "a temporary file that is left over is written over",
        Played::Stops(20, LEFT_OVER, &WRITTEN_OVER),
    ),
    (
        "a replace of which a call failed that has done nothing leaves no temporary file",
        Played::Fails(Trace::Nothing, 6, 10, &CLEARED),
    ),
    (
        "a replace of which a call failed that reads do not see leaves no temporary file",
        Played::Fails(Trace::Hidden, 6, 10, &CLEARED),
    ),
    (
        "a replace of which a call failed that reads see leaves no temporary file",
        Played::Fails(Trace::Shown, 6, 10, &CLEARED),
    ),
    (
        "a temporary file that is not removed stays",
        Played::Fails(Trace::Nothing, 5, 5, &NOT_REMOVED),
    ),
    (
        "no call is behind a replace",
        Played::Fails(Trace::Nothing, 11, 11, &REPLACED),
    ),
    (
        "a missing folder is not made where that is refused",
        Played::Once(REFUSING, &REFUSED),
    ),
    (
        "a folder that is there is taken",
        Played::Once(REFUSING_WITH_LOG, &NOT_REFUSED),
    ),
    (
        "an index makes a mailbox",
        Played::Once(
            Setup {
                found: Found::Folder(Some((Name::Index, b"")), b""),
                ..NEW
            },
            &[Step::Has(Some(true))],
        ),
    ),
    (
        "a log makes a mailbox",
        Played::Once(
            Setup {
                found: Found::Folder(Some((Name::Log, b"")), b""),
                ..NEW
            },
            &[Step::Has(Some(true))],
        ),
    ),
    (
        "a rotated log makes a mailbox",
        Played::Once(
            Setup {
                found: Found::Folder(Some((Name::Log2, b"")), b""),
                ..NEW
            },
            &[Step::Has(Some(true))],
        ),
    ),
    (
        "a message file makes a mailbox",
        Played::Once(
            Setup {
                found: Found::Folder(Some((Name::Mail(7), b"")), b""),
                ..NEW
            },
            &[Step::Has(Some(true))],
        ),
    ),
    (
        "no file makes no mailbox",
        Played::Once(
            Setup {
                found: Found::Folder(None, b""),
                ..NEW
            },
            &[Step::Has(Some(false))],
        ),
    ),
    (
        "a cache makes no mailbox",
        Played::Once(
            Setup {
                found: Found::Folder(Some((Name::Cache, b"")), b""),
                ..NEW
            },
            &[Step::Has(Some(false))],
        ),
    ),
];

#[test]
fn a_folder_is_as_its_calls_leave_it(rt: HostRuntime) -> Result<(), Fail> {
    all_hold(rt.alloc(), &CASES)
}
