//! A run that is stopped at each call of its folder: each folder that a power cut may leave opens,
//! and has every message whose save was answered and that wasn't dropped since.

use crate::runs::{ROOM, given, play, shelf_of};
use dv_model::List;
use dv_shelf::{Folder, MemShelf};
use std::alloc::Global;
use std::test::*;

// Two messages, of which the first is dropped and removed.
const SCRIPT: &[u8] = b"SAVE {1}\na\nSAVE {2}\nbc\nDROP 1\nPURGE\nGET 2\n";

// What is asked of each folder that is left, and the answers that there may be: to each the first
// answer of which none goes before.
const ASKED: &[u8] = b"GET 1\nGET 2\n";

const NOTHING: &str = "NO NONE\nNO NONE\n";

const FIRST: &str = "OK {1}\na\nNO NONE\n";

const BOTH: &str = "OK {1}\na\nOK {2}\nbc\n";

const SECOND: &str = "NO NONE\nOK {2}\nbc\n";

// How many lines were answered OK, of what was printed until the stop.
fn answered(output: &[u8]) -> usize {
    let mut count = 0;
    for at in 0..output.len() {
        let (_, rest) = output.split_at(at);
        if rest.starts_with(b"OK ") && count < 10 {
            count += 1;
        }
    }
    count
}

// The answers that a folder may give behind so many answered calls: those of the calls, or of one
// more.
fn is_allowed(done: usize, text: &[u8]) -> bool {
    let allowed: &[&str] = match done {
        0 => &[NOTHING, FIRST],
        1 => &[FIRST, BOTH],
        2 => &[BOTH, SECOND],
        _ => &[SECOND],
    };
    allowed
        .iter()
        .any(|front| text.starts_with(front.as_bytes()))
}

// Whether each folder that may be left behind so many calls opens to what it may.
fn are_good(alloc: Global, shelf: &MemShelf, done: usize) -> Result<bool, Fail> {
    let images = shelf.images(alloc)?;
    for image in images.as_slice() {
        if !is_good(alloc, image, done)? {
            return Ok(false);
        }
    }
    Ok(!images.is_empty())
}

fn is_good(alloc: Global, image: &Folder, done: usize) -> Result<bool, Fail> {
    let left = play(alloc, shelf_of(alloc, image)?, given(ASKED))?;
    Ok(left.status == 0 && is_allowed(done, left.output.as_slice()))
}

// The first number of calls behind which a stop leaves another storage.
fn first_bad_stop(alloc: Global) -> Result<Option<u32>, Fail> {
    for stop in 2..60 {
        let shelf = MemShelf::new(alloc, ROOM, List::new(alloc), Some(stop))?;
        let left = play(alloc, shelf, given(SCRIPT))?;
        if left.status == 2 {
            continue;
        }
        if !are_good(alloc, &left.shelf, answered(left.output.as_slice()))? {
            return Ok(Some(stop));
        }
    }
    Ok(None)
}

#[test]
fn a_stop_at_any_call_keeps_what_was_answered(rt: HostRuntime) -> Result<(), Fail> {
    assert_eq!(rt; first_bad_stop(rt.alloc())?, None);
    Ok(())
}
