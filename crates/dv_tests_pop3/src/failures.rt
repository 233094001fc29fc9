//! Calls of the folder that fail, or behind which it stops, and outputs that fail, of a session
//! that reads a message and removes two.

use crate::runs::{Left, Setting, commands, ended, folder_of, given, play, shelf_of};
use dv_shelf::{Folder, MemShelf};
use std::alloc::Global;
use std::sync::Wait;
use std::test::Fail;
use std::thread::Threads;

const THREE: &[&[u8]] = &[b"1", b"22", b"333"];

const READING: &[u8] = b"RETR 1\n";

const SCRIPT: &[u8] = b"RETR 1\nDELE 1\nDELE 3\nQUIT\n";

// What is printed where nothing fails, where the message isn't read, and where none is removed.
const DONE: &[u8] = b"+OK\r\n+OK 1\r\n1\r\n.\r\n+OK\r\n+OK\r\n+OK\r\nEND 0 MARK 1:152 GROUPS 1\n";

const UNREAD: &[u8] = b"+OK\r\n-ERR DISK 1\r\n+OK\r\n+OK\r\n+OK\r\nEND 0 MARK 1:152 GROUPS 1\n";

const UNREMOVED: &[u8] =
    b"+OK\r\n+OK 1\r\n1\r\n.\r\n+OK\r\n+OK\r\n-ERR DISK 1\r\nEND 0 MARK 1:104 GROUPS 0\n";

// A next run's script, and what it says of all three messages, and of the one that is left.
const SHOW: &[u8] = b"c SELECT\nc FETCH 1:* (BODY[])\n";

const ALL: &[u8] =
    b"] SELECT\nc * 1 FETCH (UID 1 BODY[] {1}\n1)\nc * 2 FETCH (UID 2 BODY[] {2}\n22)\n\
    c * 3 FETCH (UID 3 BODY[] {3}\n333)\nc OK [MARK ";

const ONE: &[u8] = b"] SELECT\nc * 1 FETCH (UID 2 BODY[] {2}\n22)\nc OK [MARK ";

// Whether the bytes stand in a text.
fn has(text: &[u8], bytes: &[u8]) -> bool {
    for at in 0..text.len() {
        let (_, rest) = text.split_at(at);
        if rest.starts_with(bytes) {
            return true;
        }
    }
    false
}

/// Which messages a folder may have.
#[derive(Clone, Copy, PartialEq, Eq)]
enum Shows {
    All,
    One,
    Either,
}

// Fails unless a next run shows such messages.
fn check_next<R: Threads + Wait + Sync>(
    rt: &R,
    alloc: Global,
    shelf: MemShelf,
    shows: Shows,
) -> Result<(), Fail> {
    let left = play(rt, alloc, shelf, commands(SHOW))?;
    let output = left.output.as_slice();
    let is_shown = match shows {
        Shows::All => has(output, ALL),
        Shows::One => has(output, ONE),
        Shows::Either => has(output, ALL) || has(output, ONE),
    };
    if left.status != 0 || !is_shown {
        return Err(Fail::from("other messages"));
    }
    Ok(())
}

// Fails unless it is so of each folder that a crash may leave.
fn check_images<R: Threads + Wait + Sync>(
    rt: &R,
    alloc: Global,
    shelf: &MemShelf,
    shows: Shows,
) -> Result<(), Fail> {
    let images = shelf.images(alloc)?;
    if images.is_empty() {
        return Err(Fail::from("a crash leaves nothing"));
    }
    for image in images.as_slice() {
        check_next(rt, alloc, shelf_of(alloc, image, &[], None)?, shows)?;
    }
    Ok(())
}

// How many calls a session of these lines has where none fails.
fn calls_of<R: Threads + Wait + Sync>(
    rt: &R,
    alloc: Global,
    folder: &Folder,
    script: &[u8],
) -> Result<u32, Fail> {
    let left = play(
        rt,
        alloc,
        shelf_of(alloc, folder, &[], None)?,
        given(script),
    )?;
    if left.status != 0 {
        return Err(Fail::from("another status"));
    }
    Ok(left.shelf.call_count().min(1000) as u32)
}

/// What is printed by a run, at which status, and which messages it leaves.
#[derive(Clone, Copy)]
struct End {
    status: u8,
    output: &'static [u8],
    shows: Shows,
}

// How a run ends of which a call failed: in opening and login, while the message is read, or while
// messages are removed.
fn end_of(call: u32, begun: u32, read: u32) -> End {
    if call <= begun {
        return End {
            status: 2,
            output: b"FAULT 2 DISK 1\n",
            shows: Shows::All,
        };
    }
    if call <= read {
        return End {
            status: 0,
            output: UNREAD,
            shows: Shows::One,
        };
    }
    End {
        status: 0,
        output: UNREMOVED,
        shows: Shows::Either,
    }
}

// Fails unless the failed call is told once, and no message is lost.
fn check_failed<R: Threads + Wait + Sync>(
    rt: &R,
    alloc: Global,
    folder: &Folder,
    call: u32,
    end: &End,
) -> Result<(), Fail> {
    let left = play(
        rt,
        alloc,
        shelf_of(alloc, folder, &[call], None)?,
        given(SCRIPT),
    )?;
    ended(&left, end.status, end.output)?;
    check_images(rt, alloc, &left.shelf, end.shows)?;
    check_next(rt, alloc, left.shelf, end.shows)
}

#[test]
fn each_failed_call_is_told_once(rt: HostRuntime) -> Result<(), Fail> {
    let alloc = rt.alloc();
    let folder = folder_of(&rt, alloc, THREE, b"")?;
    let begun = calls_of(&rt, alloc, &folder, b"")?;
    let read = calls_of(&rt, alloc, &folder, READING)?;
    let calls = calls_of(&rt, alloc, &folder, SCRIPT)?;
    if begun < 5 || read <= begun || calls <= read {
        return Err(Fail::from("too few calls"));
    }
    for call in 1..=calls {
        check_failed(&rt, alloc, &folder, call, &end_of(call, begun, read))?;
    }
    Ok(())
}

// Which messages there may be behind a run that was stopped: where QUIT was answered, the one left.
fn left_by(left: &Left) -> Shows {
    if left.output.as_slice() == DONE {
        Shows::One
    } else {
        Shows::Either
    }
}

#[test]
fn each_stop_keeps_an_answered_removal(rt: HostRuntime) -> Result<(), Fail> {
    let alloc = rt.alloc();
    let folder = folder_of(&rt, alloc, THREE, b"")?;
    let calls = calls_of(&rt, alloc, &folder, SCRIPT)?;
    for stop in 0..calls {
        let shelf = shelf_of(alloc, &folder, &[], Some(stop))?;
        let left = play(&rt, alloc, shelf, given(SCRIPT))?;
        check_images(&rt, alloc, &left.shelf, left_by(&left))?;
    }
    let shelf = shelf_of(alloc, &folder, &[], Some(calls))?;
    let left = play(&rt, alloc, shelf, given(SCRIPT))?;
    ended(&left, 0, DONE)?;
    check_images(&rt, alloc, &left.shelf, Shows::One)
}

// Fails unless an output whose write of this number fails ends the session there.
fn check_output<R: Threads + Wait + Sync>(
    rt: &R,
    alloc: Global,
    folder: &Folder,
    write: u32,
    shows: Shows,
) -> Result<(), Fail> {
    let given = Setting {
        sink_fails: &[write],
        ..given(SCRIPT)
    };
    let left = play(rt, alloc, shelf_of(alloc, folder, &[], None)?, given)?;
    if left.status != 7 || !DONE.starts_with(left.output.as_slice()) {
        return Err(Fail::from("another end"));
    }
    check_images(rt, alloc, &left.shelf, shows)
}

#[test]
fn a_failed_output_ends_the_session(rt: HostRuntime) -> Result<(), Fail> {
    let alloc = rt.alloc();
    let folder = folder_of(&rt, alloc, THREE, b"")?;
    // The greeting, the answers to RETR and both DELEs; then that to QUIT, and the last line.
    for write in 1..=4 {
        check_output(&rt, alloc, &folder, write, Shows::All)?;
    }
    for write in 5..=6 {
        check_output(&rt, alloc, &folder, write, Shows::One)?;
    }
    Ok(())
}
