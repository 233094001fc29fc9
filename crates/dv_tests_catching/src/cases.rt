//! Words over a folder that a script left, and what is printed.

use crate::runs::{Left, play};
use dv_model::List;
use dv_shelf::MemShelf;
use std::alloc::Global;
use std::test::Fail;

// What is written in the folder, at most.
const ROOM: u32 = 100_000;

/// A script over a new folder, if there is one, then words over what it leaves, of whose calls and
/// writes these fail.
pub struct Case {
    pub script: Option<&'static [u8]>,
    pub words: &'static [&'static str],
    pub sink_fails: &'static [u32],
    pub status: u8,
    pub output: &'static str,
}

// The folder that a script leaves.
fn folder_behind(alloc: Global, script: Option<&[u8]>) -> Result<MemShelf, Fail> {
    let shelf = MemShelf::new(alloc, ROOM, List::new(alloc), None)?;
    let Some(script) = script else {
        return Ok(shelf);
    };
    let left = play(alloc, &["run"], script, shelf, &[])?;
    Ok(left.shelf)
}

/// Fails unless that status and output come.
pub fn print(alloc: Global, case: &Case) -> Result<(), Fail> {
    let shelf = folder_behind(alloc, case.script)?;
    let left = play(alloc, case.words, b"", shelf, case.sink_fails)?;
    if left.status != case.status {
        return Err(Fail::from("another status"));
    }
    if left.output.as_slice() != case.output.as_bytes() {
        return Err(Fail::from("another output"));
    }
    Ok(())
}

/// Fails unless these words ask for nothing.
pub fn refuse(alloc: Global, words: &[&str]) -> Result<(), Fail> {
    let shelf = MemShelf::new(alloc, ROOM, List::new(alloc), None)?;
    let left = play(alloc, words, b"", shelf, &[])?;
    if left.status == 1 && left.output.as_slice() == b"FAULT 1 USAGE\n".as_slice() {
        Ok(())
    } else {
        Err(Fail::from("they ask for something"))
    }
}
