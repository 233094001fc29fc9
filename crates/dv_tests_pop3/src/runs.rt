//! One run over a folder in memory.

use dv_cli::Ran;
use dv_model::{Bytes, List};
use dv_program::run;
use dv_shelf::{Folder, Gate, MemClock, MemShelf, MemSink, MemSource, Name, OpenGate, Shelf};
use std::alloc::{AllocError, Global};
use std::sync::Wait;
use std::test::Fail;
use std::thread::Threads;

// What is written in the folder, or printed, at most.
const ROOM: u32 = 1_000_000;

/// What a run is given but for its folder.
#[derive(Clone, Copy)]
pub struct Setting<'a> {
    pub words: &'a [&'a str],
    pub script: &'a [u8],
    pub source_fails: &'a [u32],
    pub sink_fails: &'a [u32],
}

/// The lines of a POP3 session, with nothing that fails.
pub fn given(script: &[u8]) -> Setting<'_> {
    Setting {
        words: &["pop3"],
        script,
        source_fails: &[],
        sink_fails: &[],
    }
}

/// The commands of a script, with nothing that fails.
pub fn commands(script: &[u8]) -> Setting<'_> {
    Setting {
        words: &["run"],
        ..given(script)
    }
}

/// What a run left.
#[derive(Drop)]
pub struct Left {
    pub status: u8,
    pub output: Bytes,
    pub shelf: MemShelf,
}

fn strings(alloc: Global, words: &[&str]) -> Result<Vec<String>, AllocError> {
    let mut strings = Vec::new(alloc);
    for word in words {
        strings.push(String::from_str(alloc, word)?)?;
    }
    Ok(strings)
}

/// A run whose clock reads 1000, with this gate.
pub fn play_at<G: Gate + Sync, R: Threads + Wait + Sync>(
    rt: &R,
    alloc: Global,
    shelf: MemShelf,
    gate: &G,
    given: Setting<'_>,
) -> Result<Left, Fail> {
    let words = strings(alloc, given.words)?;
    let bytes = Bytes::from_slice(alloc, given.script)?;
    let mut script = MemSource::new(alloc, bytes, List::from_slice(alloc, given.source_fails)?);
    let mut out = MemSink::new(alloc, ROOM, List::from_slice(alloc, given.sink_fails)?)?;
    let clock = MemClock::new(alloc, List::from_slice(alloc, &[1000])?);
    let Ran {
        status,
        told: _told,
        shelf,
        clock: _clock,
    } = run(
        rt,
        alloc,
        words.as_slice(),
        shelf,
        &mut script,
        &mut out,
        clock,
        gate,
    );
    Ok(Left {
        status,
        output: Bytes::from_slice(alloc, out.taken())?,
        shelf,
    })
}

/// A run whose clock reads 1000.
pub fn play<R: Threads + Wait + Sync>(
    rt: &R,
    alloc: Global,
    shelf: MemShelf,
    given: Setting<'_>,
) -> Result<Left, Fail> {
    play_at(rt, alloc, shelf, &OpenGate, given)
}

/// A folder with these files, of which these calls fail, and all behind so many.
pub fn shelf_of(
    alloc: Global,
    folder: &Folder,
    fails: &[u32],
    stop: Option<u32>,
) -> Result<MemShelf, Fail> {
    let fails = List::from_slice(alloc, fails)?;
    Ok(MemShelf::of(alloc, folder, ROOM, fails, stop)?)
}

/// The files of a folder.
pub fn files_of(alloc: Global, shelf: &mut MemShelf) -> Result<Folder, Fail> {
    let Ok(names) = shelf.list(alloc) else {
        return Err(Fail::from("no names"));
    };
    let mut files = List::new(alloc);
    for name in names.as_slice() {
        files.push((*name, bytes_of(alloc, shelf, *name)))?;
    }
    Ok(files)
}

// The bytes of a file; none where it isn't there.
fn bytes_of(alloc: Global, shelf: &mut MemShelf, name: Name) -> Bytes {
    match shelf.read(alloc, name) {
        Ok(Some(bytes)) => bytes,
        _ => List::new(alloc),
    }
}

/// The folder behind a script that appends these messages to a new mailbox and then has these
/// lines. No messages and no lines leave an empty folder.
pub fn folder_of<R: Threads + Wait + Sync>(
    rt: &R,
    alloc: Global,
    messages: &[&[u8]],
    lines: &[u8],
) -> Result<Folder, Fail> {
    if messages.is_empty() && lines.is_empty() {
        return Ok(List::new(alloc));
    }
    let mut script = Bytes::from_slice(alloc, b"a SELECT\n")?;
    for message in messages {
        let size = message.len();
        script.extend(format!(in alloc; "a APPEND () {{{size}}}\n")?.as_bytes())?;
        script.extend(message)?;
        script.push(b'\n')?;
    }
    script.extend(lines)?;
    let shelf = shelf_of(alloc, &List::new(alloc), &[], None)?;
    let mut left = play(rt, alloc, shelf, commands(script.as_slice()))?;
    if left.status != 0 {
        return Err(Fail::from("no folder"));
    }
    files_of(alloc, &mut left.shelf)
}

/// Fails unless that status and output came.
pub fn ended(left: &Left, status: u8, output: &[u8]) -> Result<(), Fail> {
    if left.status != status {
        return Err(Fail::from("another status"));
    }
    if left.output.as_slice() != output {
        return Err(Fail::from("another output"));
    }
    Ok(())
}
