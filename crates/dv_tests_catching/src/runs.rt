//! One run over a folder in memory.

use dv_cli::{Ran, run};
use dv_model::{Bytes, List};
use dv_shelf::{MemClock, MemShelf, MemSink, MemSource, OpenGate};
use std::alloc::{AllocError, Global};
use std::test::Fail;

// What is printed at most.
const ROOM: u32 = 100_000;

/// What a run left.
#[derive(Drop)]
pub struct Left {
    pub status: u8,
    pub output: Bytes,
    pub shelf: MemShelf,
}

fn strings(alloc: Global, words: &[&str]) -> Result<Vec<String>, AllocError> {
    let mut strings = Vec::new(alloc);
    for word in words {
        strings.push(String::from_str(alloc, word)?)?;
    }
    Ok(strings)
}

/// A run whose clock reads 1000, and of whose output these writes fail.
pub fn play(
    alloc: Global,
    words: &[&str],
    script: &[u8],
    shelf: MemShelf,
    sink_fails: &[u32],
) -> Result<Left, Fail> {
    let words = strings(alloc, words)?;
    let bytes = Bytes::from_slice(alloc, script)?;
    let mut script = MemSource::new(alloc, bytes, List::new(alloc));
    let mut out = MemSink::new(alloc, ROOM, List::from_slice(alloc, sink_fails)?)?;
    let clock = MemClock::new(alloc, List::from_slice(alloc, &[1000])?);
    let Ran {
        status,
        told: _told,
        shelf,
        clock: _clock,
    } = run(
        alloc,
        words.as_slice(),
        shelf,
        &mut script,
        &mut out,
        clock,
        &OpenGate,
    );
    Ok(Left {
        status,
        output: Bytes::from_slice(alloc, out.taken())?,
        shelf,
    })
}
