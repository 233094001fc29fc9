//! Sessions that sleep while a log is rotated three times.

use crate::runs::{Left, RUN, play_in};
use dv_model::{Bytes, List, NoMemory};
use dv_script::decimal_text;
use dv_shelf::MemShelf;
use std::alloc::Global;

/// How often each part of a script stands in it.
pub type Parts = &'static [(u32, &'static str)];

// A STORE of every second message of 164.
const STORE: &str = "a STORE 1,3,5,7,9,11,13,15,17,19,21,23,25,27,29,31,33,35,37,39,41,43,45,47,\
    49,51,53,55,57,59,61,63,65,67,69,71,73,75,77,79,81,83,85,87,89,91,93,95,97,99,101,103,105,\
    107,109,111,113,115,117,119,121,123,125,127,129,131,133,135,137,139,141,143,145,147,149,151,\
    153,155,157,159,161,163 +FLAGS (\\Seen)\n";

/// 164 appends, and 130 times that STORE.
pub const LONG: Parts = &[
    (1, "a SELECT\n"),
    (164, "a APPEND () {1}\nx\n"),
    (130, STORE),
];

// 164 appends and 400 times that STORE. Others select the mailbox before the first one, the 60th,
// the 120th and so on, and ask what came at the end.
const SLEEPERS: Parts = &[
    (1, "a SELECT\n"),
    (164, "a APPEND () {1}\nx\n"),
    (1, "b SELECT\nc SELECT\n"),
    (59, STORE),
    (1, "d SELECT\n"),
    (60, STORE),
    (1, "e SELECT\n"),
    (60, STORE),
    (1, "f SELECT\n"),
    (60, STORE),
    (1, "g SELECT\n"),
    (60, STORE),
    (1, "h SELECT\n"),
    (60, STORE),
    (1, "i SELECT\n"),
    (41, STORE),
    (
        1,
        "b NOOP\nc NOOP\nd NOOP\ne NOOP\nf NOOP\ng NOOP\nh NOOP\ni NOOP\n",
    ),
];

// Behind what is told to the second of those that selected it before the first STORE.
const END: &[u8] = b"c OK [MARK 4:4008] NOOP\nd OK [MARK 4:4008] NOOP\ne OK [MARK 4:4008] NOOP\n\
    f OK [MARK 4:4008] NOOP\ng OK [MARK 4:4008] NOOP\nh OK [MARK 4:4008] NOOP\n\
    i OK [MARK 4:4008] NOOP\nEND 0 MARK 4:4008 GROUPS 564\n";

fn add_times(script: &mut Bytes, times: u32, part: &str) -> Result<(), NoMemory> {
    for _ in 0..times {
        script.extend(part.as_bytes())?;
    }
    Ok(())
}

fn script_of(alloc: Global, parts: Parts) -> Result<Bytes, NoMemory> {
    let mut script = Bytes::new(alloc);
    for (times, part) in parts {
        add_times(&mut script, *times, part)?;
    }
    Ok(script)
}

// What a session is told of a message with `\Seen`.
fn add_line(text: &mut Bytes, name: &[u8], number: &[u8]) -> Result<(), NoMemory> {
    for part in [
        name,
        b" * ",
        number,
        b" FETCH (UID ",
        number,
        b" FLAGS (\\Seen))\n",
    ] {
        text.extend(part)?;
    }
    Ok(())
}

// What a session is told that sleeps through all STOREs.
fn add_lines(alloc: Global, text: &mut Bytes, name: &[u8]) -> Result<(), NoMemory> {
    for k in 0..82u64 {
        let number = decimal_text(alloc, 2 * k + 1)?;
        add_line(text, name, number.as_slice())?;
    }
    Ok(())
}

// The end of the output: two sessions selected before the first STORE, the others behind it.
fn add_end(alloc: Global, text: &mut Bytes) -> Result<(), NoMemory> {
    add_lines(alloc, text, b"b")?;
    text.extend(b"b OK [MARK 4:4008] NOOP\n")?;
    add_lines(alloc, text, b"c")?;
    text.extend(END)?;
    Ok(())
}

/// A script of these parts over a new folder with room for all of them.
pub fn play_parts(alloc: Global, parts: Parts) -> Result<Left<MemShelf>, NoMemory> {
    let script = script_of(alloc, parts)?;
    let shelf = MemShelf::new(alloc, 100_000_000, List::new(alloc), None)?;
    play_in(alloc, shelf, script.as_slice(), &RUN)
}

fn is_heard_once(alloc: Global) -> Result<bool, NoMemory> {
    let mut end = Bytes::new(alloc);
    add_end(alloc, &mut end)?;
    let left = play_parts(alloc, SLEEPERS)?;
    Ok(left.out.taken().ends_with(end.as_slice()))
}

#[test]
fn a_sleeper_hears_once_of_what_changed(rt: HostRuntime) {
    assert!(rt; matches!(is_heard_once(rt.alloc()), Ok(true)));
}
