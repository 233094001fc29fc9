//! One run over a folder in memory.

use dv_cli::{Ran, run};
use dv_model::{Bytes, List};
use dv_shelf::{Folder, MemClock, MemShelf, MemSink, MemSource, Name, OpenGate, Shelf};
use std::alloc::{AllocError, Global};
use std::test::Fail;

// What is written in the folder, or printed, at most.
pub const ROOM: u32 = 100_000;

/// What a run is given but for its folder.
#[derive(Clone, Copy)]
pub struct Setting<'a> {
    pub words: &'a [&'a str],
    pub script: &'a [u8],
    pub source_fails: &'a [u32],
    pub sink_fails: &'a [u32],
}

/// The calls of a script, with nothing that fails.
pub fn given(script: &[u8]) -> Setting<'_> {
    Setting {
        words: &["mdbox"],
        script,
        source_fails: &[],
        sink_fails: &[],
    }
}

/// What a run left.
#[derive(Drop)]
pub struct Left {
    pub status: u8,
    pub output: Bytes,
    pub shelf: MemShelf,
}

fn strings(alloc: Global, words: &[&str]) -> Result<Vec<String>, AllocError> {
    let mut strings = Vec::new(alloc);
    for word in words {
        strings.push(String::from_str(alloc, word)?)?;
    }
    Ok(strings)
}

/// A run whose clock reads 1000.
pub fn play(alloc: Global, shelf: MemShelf, given: Setting<'_>) -> Result<Left, Fail> {
    let words = strings(alloc, given.words)?;
    let bytes = Bytes::from_slice(alloc, given.script)?;
    let mut script = MemSource::new(alloc, bytes, List::from_slice(alloc, given.source_fails)?);
    let mut out = MemSink::new(alloc, ROOM, List::from_slice(alloc, given.sink_fails)?)?;
    let clock = MemClock::new(alloc, List::from_slice(alloc, &[1000])?);
    let Ran {
        status,
        told: _told,
        shelf,
        clock: _clock,
    } = run(
        alloc,
        words.as_slice(),
        shelf,
        &mut script,
        &mut out,
        clock,
        &OpenGate,
    );
    Ok(Left {
        status,
        output: Bytes::from_slice(alloc, out.taken())?,
        shelf,
    })
}

/// A new folder of which these calls fail.
pub fn new_shelf(alloc: Global, fails: &[u32]) -> Result<MemShelf, Fail> {
    let fails = List::from_slice(alloc, fails)?;
    Ok(MemShelf::new(alloc, ROOM, fails, None)?)
}

/// A folder with these files.
pub fn shelf_of(alloc: Global, folder: &Folder) -> Result<MemShelf, Fail> {
    Ok(MemShelf::of(alloc, folder, ROOM, List::new(alloc), None)?)
}

/// The bytes of a file; none where it isn't there.
pub fn bytes_of(alloc: Global, shelf: &mut MemShelf, name: Name) -> Bytes {
    match shelf.read(alloc, name) {
        Ok(Some(bytes)) => bytes,
        _ => List::new(alloc),
    }
}

/// The files of the folder.
pub fn files_in(alloc: Global, shelf: &mut MemShelf) -> Result<List<Name>, Fail> {
    match shelf.list(alloc) {
        Ok(names) => Ok(names),
        Err(_) => Err(Fail::from("no names")),
    }
}

/// Fails unless that status and output came.
pub fn ended(left: &Left, status: u8, output: &str) -> Result<(), Fail> {
    if left.status != status {
        return Err(Fail::from("another status"));
    }
    if left.output.as_slice() != output.as_bytes() {
        return Err(Fail::from("another output"));
    }
    Ok(())
}
