//! Calls of the folder that fail, or after which it stops, while two sessions write.

use crate::runs::{Left, count_of, given, play, shelf_of};
use dv_model::List;
use dv_shelf::{Folder, MemShelf, OpenGate};
use std::alloc::Global;
use std::sync::Wait;
use std::test::Fail;
use std::thread::Threads;

// Three messages, of two sessions.
const SCRIPT: &[u8] = b"a SELECT\nb SELECT\na APPEND () {1}\nx\nb APPEND () {1}\ny\n\
    a APPEND () {1}\nz\n";

// How many calls a new folder is opened by.
const OPENING: u32 = 2;

// A run over a folder in memory.
fn run_in<R: Threads + Wait + Sync>(rt: &R, alloc: Global, shelf: MemShelf) -> Result<Left, Fail> {
    play(rt, alloc, shelf, &OpenGate, given(SCRIPT))
}

// How many calls the run has where none fails.
fn calls<R: Threads + Wait + Sync>(rt: &R, alloc: Global) -> Result<u32, Fail> {
    let left = run_in(rt, alloc, shelf_of(alloc, &List::new(alloc), &[])?)?;
    if !left
        .output
        .as_slice()
        .ends_with(b"END 0 MARK 1:104 GROUPS 3\n")
    {
        return Err(Fail::from("another end"));
    }
    Ok(left.shelf.call_count().min(1000) as u32)
}

// Whether a run over the folder shows this number of messages, or one more.
fn shows<R: Threads + Wait + Sync>(
    rt: &R,
    alloc: Global,
    shelf: MemShelf,
    count: u32,
) -> Result<bool, Fail> {
    let left = play(rt, alloc, shelf, &OpenGate, given(b"c SELECT\n"))?;
    let output = left.output.as_slice();
    let more = count.saturating_add(1);
    let one = format!(in alloc; "c * {count} EXISTS\n")?;
    let other = format!(in alloc; "c * {more} EXISTS\n")?;
    Ok(output.starts_with(one.as_bytes()) || output.starts_with(other.as_bytes()))
}

// Fails unless the failed call is told once: by its command, or, before the first, by the run.
fn check_failed<R: Threads + Wait + Sync>(rt: &R, alloc: Global, call: u32) -> Result<(), Fail> {
    let left = run_in(rt, alloc, shelf_of(alloc, &List::new(alloc), &[call])?)?;
    let output = left.output.as_slice();
    if call <= OPENING {
        if left.status != 2 || output != "FAULT 2 DISK 1\n".as_bytes() {
            return Err(Fail::from("the opening went on"));
        }
        return Ok(());
    }
    if left.status != 0 || !output.ends_with(b"END 0 MARK 1:88 GROUPS 2\n") {
        return Err(Fail::from("another end"));
    }
    if count_of(output, b" NO [UNAVAILABLE] FAULTS 1\n") != 1 {
        return Err(Fail::from("not one command was unavailable"));
    }
    if !shows(rt, alloc, left.shelf, 2)? {
        return Err(Fail::from("other messages"));
    }
    Ok(())
}

#[test]
fn each_failed_call_costs_one_command(rt: HostRuntime) -> Result<(), Fail> {
    let alloc = rt.alloc();
    let calls = calls(&rt, alloc)?;
    if calls < 12 {
        return Err(Fail::from("too few calls"));
    }
    for call in 1..=calls {
        check_failed(&rt, alloc, call)?;
    }
    Ok(())
}

// Whether what a crash leaves has each message that was answered, or one more.
fn keeps<R: Threads + Wait + Sync>(
    rt: &R,
    alloc: Global,
    image: &Folder,
    answered: u32,
) -> Result<bool, Fail> {
    shows(rt, alloc, shelf_of(alloc, image, &[])?, answered)
}

// Fails unless each folder that a crash may leave has what was answered until the folder stopped.
fn check_stopped<R: Threads + Wait + Sync>(rt: &R, alloc: Global, stop: u32) -> Result<(), Fail> {
    let shelf = MemShelf::new(alloc, 1_000_000, List::new(alloc), Some(stop))?;
    let left = run_in(rt, alloc, shelf)?;
    let answered = count_of(left.output.as_slice(), b"] APPEND\n");
    let images = left.shelf.images(alloc)?;
    if images.is_empty() {
        return Err(Fail::from("a crash leaves nothing"));
    }
    for image in images.as_slice() {
        if !keeps(rt, alloc, image, answered)? {
            return Err(Fail::from("other messages behind a crash"));
        }
    }
    Ok(())
}

#[test]
fn each_stop_keeps_what_was_answered(rt: HostRuntime) -> Result<(), Fail> {
    let alloc = rt.alloc();
    for stop in 0..calls(&rt, alloc)? {
        check_stopped(&rt, alloc, stop)?;
    }
    Ok(())
}
