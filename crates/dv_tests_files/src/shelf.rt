//! Streams and a folder in memory: what their calls answer, and what a crash may leave.

use crate::steps::{Step, is_answered};
use dv_model::{Bytes, List, NoMemory};
use dv_shelf::{Folder, MemShelf, MemSink, MemSource, Name, Shelf, Sink, Source};
use std::alloc::Global;
use std::test::Fail;

// How many bytes a read gives, where it doesn't fail; what stands in its buffer of two bytes then;
// and how many reads have failed.
type Read = (Option<usize>, &'static [u8], u64);

const READS: [Read; 4] = [
    (Some(2), b"ab", 0),
    (None, b"ab", 1),
    (Some(1), b"cb", 1),
    (Some(0), b"cb", 1),
];

fn is_read(source: &mut MemSource, buf: &mut [u8], expected: &Read) -> bool {
    let count = source.read(buf).ok();
    count == expected.0 && *buf == *expected.1 && source.faults() == expected.2
}

// The second read of the source fails.
fn are_read(alloc: Global, bytes: &[u8], reads: &[Read]) -> Result<(), Fail> {
    let bytes = Bytes::from_slice(alloc, bytes)?;
    let mut source = MemSource::new(alloc, bytes, List::from_slice(alloc, &[2])?);
    let mut buf = [0; 2];
    for (at, expected) in reads.iter().enumerate() {
        if !is_read(&mut source, &mut buf, expected) {
            return Err(Fail::from(at));
        }
    }
    Ok(())
}

#[test]
fn reads_come_in_order_and_listed_ones_fail(rt: HostRuntime) -> Result<(), Fail> {
    are_read(rt.alloc(), b"abc", &READS)
}

// What is written, and whether that is answered Ok; all that the sink has taken then, and how many
// writes have failed.
type Write = (&'static [u8], bool, &'static [u8], u64);

const WRITES: [Write; 4] = [
    (b"abc", true, b"abc", 0),
    (b"x", false, b"abc", 1),
    (b"def", false, b"abc", 2),
    (b"de", true, b"abcde", 2),
];

fn is_taken(sink: &mut MemSink, write: &Write) -> bool {
    let (bytes, is_ok, taken, faults) = *write;
    sink.write_all(bytes).is_ok() == is_ok && sink.taken() == taken && sink.faults() == faults
}

// The sink has room for five bytes, and its second write fails.
fn are_taken(alloc: Global, writes: &[Write]) -> Result<(), Fail> {
    let mut sink = MemSink::new(alloc, 5, List::from_slice(alloc, &[2])?)?;
    for (at, write) in writes.iter().enumerate() {
        if !is_taken(&mut sink, write) {
            return Err(Fail::from(at));
        }
    }
    Ok(())
}

#[test]
fn a_sink_refuses_what_is_longer_than_its_room(rt: HostRuntime) -> Result<(), Fail> {
    are_taken(rt.alloc(), &WRITES)
}

// Whether an image has the log alone, with these bytes.
fn is_log(image: &Folder, bytes: &[u8]) -> bool {
    match image.as_slice() {
        [file] => file.0 == Name::Log && file.1.as_slice() == bytes,
        _ => false,
    }
}

fn are_logs(images: &[Folder], expected: &[&[u8]]) -> bool {
    if images.len() != expected.len() {
        return false;
    }
    for (image, bytes) in images.iter().zip(expected) {
        if !is_log(image, bytes) {
            return false;
        }
    }
    true
}

fn leaves(alloc: Global, shelf: &MemShelf, expected: &[&[u8]]) -> bool {
    match shelf.images(alloc) {
        Ok(images) => are_logs(images.as_slice(), expected),
        Err(_) => false,
    }
}

// Whether a step finds what it says.
fn holds(alloc: Global, shelf: &mut MemShelf, step: Step) -> bool {
    match step {
        Step::Calls(count) => shelf.call_count() == count,
        Step::Images(expected) => leaves(alloc, shelf, expected),
        _ => is_answered(alloc, shelf, step),
    }
}

// The place of the first step that doesn't hold.
fn first_other(alloc: Global, shelf: &mut MemShelf, steps: &[Step]) -> Option<usize> {
    for (at, step) in steps.iter().enumerate() {
        if !holds(alloc, shelf, *step) {
            return Some(at);
        }
    }
    None
}

// An empty folder with room for so many bytes, which calls of it fail, and behind which one all
// do. Where it shows them, reads see what replaces that failed have made.
#[derive(Clone, Copy)]
struct Case {
    name: &'static str,
    room: u32,
    fails: &'static [u32],
    stop: Option<u32>,
    shows_failed: bool,
    steps: &'static [Step],
}

const ROOMY: Case = Case {
    name: "",
    room: 1000,
    fails: &[],
    stop: None,
    shows_failed: false,
    steps: &[],
};

fn shelf_of(alloc: Global, case: &Case) -> Result<MemShelf, NoMemory> {
    let fails = List::from_slice(alloc, case.fails)?;
    let shelf = MemShelf::new(alloc, case.room, fails, case.stop)?;
    Ok(if case.shows_failed {
        shelf.showing_failed()
    } else {
        shelf
    })
}

const CASES: [Case; 4] = [
    Case {
        name: "a shelf gives back what it was given",
        steps: &[
            Step::Writes(Name::Log, 2, b"abc", true),
            Step::Replaces(Name::Mail(3), b"text", true),
            Step::Replaces(Name::Index, b"index", true),
            Step::Removes(Name::Index, true),
            Step::Writes(Name::Log, 3, b"xyz", true),
            Step::Syncs(Name::Log, true),
            Step::Names(&[Name::Log, Name::Mail(3)]),
            Step::Reads(Name::Log, Some(b"\0\0axyz")),
            Step::Reads(Name::Mail(3), Some(b"text")),
            Step::Reads(Name::Index, None),
            Step::Faults(0),
        ],
        ..ROOMY
    },
    Case {
        name: "a torn write leaves old and new and damaged bytes",
        steps: &[
            Step::Replaces(Name::Log, b"abcdef", true),
            Step::Writes(Name::Log, 2, b"XY", true),
            Step::Images(&[
                b"abXYef",
                b"abcdef",
                b"abXYef",
                b"ab\x80Yef",
                b"ab\0Yef",
                b"ab7Yef",
            ]),
            Step::Syncs(Name::Log, true),
            Step::Images(&[b"abXYef"]),
        ],
        ..ROOMY
    },
    Case {
        name: "a replace that fails may be read",
        fails: &[2],
        shows_failed: true,
        steps: &[
            Step::Replaces(Name::Log, b"older", true),
            Step::Replaces(Name::Log, b"newer", false),
            Step::Reads(Name::Log, Some(b"newer")),
            Step::Faults(1),
            Step::Images(&[b"newer"]),
        ],
        ..ROOMY
    },
    Case {
        name: "each call is counted",
        room: 100,
        fails: &[2],
        stop: Some(5),
        steps: &[
            Step::Writes(Name::Log, 0, b"a", true),
            Step::Lists(None),
            Step::Reads(Name::Log, Some(b"a")),
            // No room is left.
            Step::Syncs(Name::Log, false),
            Step::Removes(Name::Index, false),
            Step::ReadFails(Name::Log),
            Step::Calls(6),
            Step::Faults(4),
        ],
        ..ROOMY
    },
];

fn first_other_of(alloc: Global, case: &Case) -> Result<Option<usize>, NoMemory> {
    let mut shelf = shelf_of(alloc, case)?;
    Ok(first_other(alloc, &mut shelf, case.steps))
}

// Fails by the name of the first case that doesn't hold, and the place of its step.
fn all_hold(alloc: Global, cases: &[Case]) -> Result<(), Fail> {
    for case in cases {
        match first_other_of(alloc, case) {
            Ok(None) => {}
            Ok(Some(at)) => return Err(Fail::from((case.name, at))),
            Err(error) => return Err(Fail::from(error)),
        }
    }
    Ok(())
}

#[test]
fn a_folder_in_memory_answers_and_leaves_samples(rt: HostRuntime) -> Result<(), Fail> {
    all_hold(rt.alloc(), &CASES)
}

fn text_of(alloc: Global, length: u32) -> Result<Bytes, NoMemory> {
    let mut text = Bytes::new(alloc);
    for _ in 0..length {
        text.push(b'x')?;
    }
    Ok(text)
}

// So many messages, each ten bytes longer than the one before it.
fn folder_of(alloc: Global, count: u32) -> Result<Folder, NoMemory> {
    let mut folder = List::new(alloc);
    for n in 0..count {
        folder.push((Name::Mail(n), text_of(alloc, n.saturating_mul(10))?))?;
    }
    Ok(folder)
}

const MANY: [Step; 3] = [
    Step::Lists(Some(200)),
    Step::Length(Name::Mail(199), 1990),
    // No room is left beside them.
    Step::Syncs(Name::Mail(0), false),
];

fn many_hold(alloc: Global) -> Result<(), Fail> {
    let folder = folder_of(alloc, 200)?;
    let mut shelf = MemShelf::of(alloc, &folder, 0, List::new(alloc), None)?;
    match first_other(alloc, &mut shelf, &MANY) {
        Some(at) => Err(Fail::from(at)),
        None => Ok(()),
    }
}

#[test]
fn many_files_are_put_there(rt: HostRuntime) -> Result<(), Fail> {
    many_hold(rt.alloc())
}
