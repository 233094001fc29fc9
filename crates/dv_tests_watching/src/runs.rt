//! One run over a new folder in memory.

use dv_cli::{Ran, run};
use dv_model::{Bytes, List};
use dv_shelf::{MemClock, MemShelf, MemSink, MemSource, OpenGate};
use std::alloc::{AllocError, Global};
use std::test::Fail;

// What is written in the folder, or printed, at most.
const ROOM: u32 = 100_000;

/// What a run left.
#[derive(Drop)]
pub struct Left {
    pub status: u8,
    pub output: Bytes,
}

fn strings(alloc: Global, words: &[&str]) -> Result<Vec<String>, AllocError> {
    let mut strings = Vec::new(alloc);
    for word in words {
        strings.push(String::from_str(alloc, word)?)?;
    }
    Ok(strings)
}

/// A run whose clock reads 1000.
pub fn play(alloc: Global, words: &[&str], script: &[u8]) -> Result<Left, Fail> {
    let words = strings(alloc, words)?;
    let bytes = Bytes::from_slice(alloc, script)?;
    let mut script = MemSource::new(alloc, bytes, List::new(alloc));
    let mut out = MemSink::new(alloc, ROOM, List::new(alloc))?;
    let shelf = MemShelf::new(alloc, ROOM, List::new(alloc), None)?;
    let clock = MemClock::new(alloc, List::from_slice(alloc, &[1000])?);
    let Ran {
        status,
        told: _told,
        shelf: _shelf,
        clock: _clock,
    } = run(
        alloc,
        words.as_slice(),
        shelf,
        &mut script,
        &mut out,
        clock,
        &OpenGate,
    );
    Ok(Left {
        status,
        output: Bytes::from_slice(alloc, out.taken())?,
    })
}

// What is printed of a script whose lines are all answered.
fn printed(alloc: Global, words: &[&str], script: &[u8]) -> Result<Bytes, Fail> {
    let left = play(alloc, words, script)?;
    if left.status == 0 {
        Ok(left.output)
    } else {
        Err(Fail::from("a script that isn't answered"))
    }
}

/// What is printed of a script.
pub fn unwatched(alloc: Global, script: &[u8]) -> Result<Bytes, Fail> {
    printed(alloc, &["run"], script)
}

/// What is printed of a script beside which a search of this key is kept.
pub fn watched(alloc: Global, script: &[u8], key: &[u8]) -> Result<Bytes, Fail> {
    let Ok(key) = str::from_utf8(key) else {
        return Err(Fail::from("a key that is no text"));
    };
    printed(alloc, &["watch", key], script)
}

/// Whether a search of this key is kept; else it is told that the words ask for nothing.
pub fn is_kept(alloc: Global, key: &[u8]) -> Result<bool, Fail> {
    let Ok(key) = str::from_utf8(key) else {
        return Err(Fail::from("a key that is no text"));
    };
    let left = play(alloc, &["watch", key], b"")?;
    match left.status {
        0 => Ok(true),
        1 if left.output.as_slice() == b"FAULT 1 USAGE\n".as_slice() => Ok(false),
        _ => Err(Fail::from("another end")),
    }
}
