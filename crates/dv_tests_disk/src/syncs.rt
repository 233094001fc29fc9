use crate::allowed::file_in;
use crate::cases::{Case, all_hold};
use crate::folders::files_of;
use dv_memory_system::{MemFile, MemSystem, Trace};
use dv_model::{Bytes, List, NoMemory};
use dv_shelf::{Folder, Name};
use dv_system::{Access, Entry, System};
use std::alloc::Global;
use std::test::Fail;

// A call of a system that passes or fails, or whether an image has this file of the log, or none.
#[derive(Clone, Copy)]
enum Step {
    // The open file is written.
    Writes(u32, &'static [u8]),
    // It is synced, and this is whether that answers Ok.
    Syncs(bool),
    SyncsData,
    // The temporary file becomes the log.
    Renames,
    SyncsFolder,
    Shows(Option<&'static [u8]>, bool),
}

// What is done with a new temporary file in a new folder; or with a log that is there, where the
// third call fails and leaves this trace.
enum Opened {
    New(&'static [Step]),
    Log(Trace, &'static [Step]),
}

fn are_shown(images: &[Folder], log: Option<&[u8]>) -> bool {
    for image in images {
        if file_in(image, Name::Log) == log {
            return true;
        }
    }
    false
}

// Whether an image has this file of the log.
fn shows(alloc: Global, system: &MemSystem, log: Option<&[u8]>) -> Result<bool, NoMemory> {
    let images = system.images(alloc)?;
    Ok(are_shown(images.as_slice(), log))
}

fn holds(
    alloc: Global,
    system: &mut MemSystem,
    file: &MemFile,
    step: Step,
) -> Result<bool, NoMemory> {
    Ok(match step {
        Step::Writes(at, bytes) => system.write(file, at, bytes).is_ok(),
        Step::Syncs(is_ok) => system.sync(file).is_ok() == is_ok,
        Step::SyncsData => system.sync_data(file).is_ok(),
        Step::Renames => system.rename(Name::Log).is_ok(),
        Step::SyncsFolder => system.sync_folder().is_ok(),
        Step::Shows(log, is_shown) => shows(alloc, system, log)? == is_shown,
    })
}

fn hold(
    alloc: Global,
    system: &mut MemSystem,
    file: &MemFile,
    steps: &[Step],
) -> Result<bool, NoMemory> {
    for step in steps {
        if !holds(alloc, system, file, *step)? {
            return Ok(false);
        }
    }
    Ok(true)
}

fn hold_of_made(alloc: Global, system: &mut MemSystem, steps: &[Step]) -> Result<bool, NoMemory> {
    if system.make_folder().is_err() || system.sync_parent().is_err() {
        return Ok(false);
    }
    match system.create(Entry::Temporary) {
        Ok(file) => hold(alloc, system, &file, steps),
        Err(_) => Ok(false),
    }
}

fn hold_of_new(alloc: Global, steps: &[Step]) -> Result<bool, NoMemory> {
    let mut system = MemSystem::new(alloc, List::new(alloc), None, Trace::Nothing);
    hold_of_made(alloc, &mut system, steps)
}

fn hold_of_opened(alloc: Global, system: &mut MemSystem, steps: &[Step]) -> Result<bool, NoMemory> {
    match system.open(Entry::File(Name::Log), Access::Write) {
        Ok(Some(file)) => hold(alloc, system, &file, steps),
        _ => Ok(false),
    }
}

fn system_over(
    alloc: Global,
    files: &List<(Name, Bytes)>,
    trace: Trace,
) -> Result<MemSystem, NoMemory> {
    let fails = List::from_slice(alloc, &[3])?;
    MemSystem::of(alloc, files, &None, fails, None, trace)
}

fn system_with_log(alloc: Global, trace: Trace) -> Result<MemSystem, NoMemory> {
    let files = files_of(alloc, Some((Name::Log, b"log")))?;
    system_over(alloc, &files, trace)
}

fn hold_of_log(alloc: Global, trace: Trace, steps: &[Step]) -> Result<bool, NoMemory> {
    let mut system = system_with_log(alloc, trace)?;
    hold_of_opened(alloc, &mut system, steps)
}

impl Case for Opened {
    fn holds(&self, alloc: Global) -> Result<bool, NoMemory> {
        match self {
            Opened::New(steps) => hold_of_new(alloc, steps),
            Opened::Log(trace, steps) => hold_of_log(alloc, *trace, steps),
        }
    }
}

const CASES: [(&str, Opened); 4] = [
    // Without a sync a crash loses the bytes, and without one of the folder the name.
    (
        "what is not synced may be lost",
        Opened::New(&[
            Step::Writes(9, b""),
            Step::Writes(0, b"text"),
            Step::Renames,
            Step::Shows(None, true),
            Step::Shows(Some(b""), true),
            Step::Shows(Some(b"te"), true),
            Step::Shows(Some(b"text"), true),
            Step::SyncsFolder,
            Step::Shows(None, false),
            Step::Shows(Some(b""), true),
            Step::SyncsData,
            Step::Shows(Some(b""), false),
            Step::Shows(Some(b"text"), true),
        ]),
    ),
    // A sync that failed isn't made good by the next one.
    (
        "a sync that failed and did nothing is made good",
        Opened::Log(
            Trace::Nothing,
            &[
                Step::Writes(0, b"LOG"),
                Step::Syncs(false),
                Step::Syncs(true),
                Step::Shows(Some(b"log"), false),
            ],
        ),
    ),
    (
        "a failed sync that reads do not see is not made good",
        Opened::Log(
            Trace::Hidden,
            &[
                Step::Writes(0, b"LOG"),
                Step::Syncs(false),
                Step::Syncs(true),
                Step::Shows(Some(b"log"), true),
            ],
        ),
    ),
    (
        "a failed sync that reads see is not made good",
        Opened::Log(
            Trace::Shown,
            &[
                Step::Writes(0, b"LOG"),
                Step::Syncs(false),
                Step::Syncs(true),
                Step::Shows(Some(b"log"), true),
            ],
        ),
    ),
];

#[test]
fn a_crash_loses_what_is_not_synced(rt: HostRuntime) -> Result<(), Fail> {
    all_hold(rt.alloc(), &CASES)
}
