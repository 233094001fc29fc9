//! One run over a folder in memory.

use dv_mdbox_lines::open_lines;
use dv_mdbox_serving::{Ran, StorageEnd, run_storage};
use dv_model::{Bytes, List};
use dv_shelf::{Folder, MemClock, MemShelf, MemSink, Name, Shelf};
use std::alloc::Global;
use std::test::Fail;

// What is written in the folder, or printed, at most.
const ROOM: u32 = 4_000_000;

/// What a run left.
#[derive(Drop)]
pub struct Left {
    pub end: StorageEnd,
    pub output: Bytes,
    pub shelf: MemShelf,
}

/// A folder with these files, of which the calls that are listed fail, and those behind a stop.
pub fn shelf_of(
    alloc: Global,
    folder: &Folder,
    fails: &[u32],
    stop: Option<u32>,
) -> Result<MemShelf, Fail> {
    let fails = List::from_slice(alloc, fails)?;
    Ok(MemShelf::of(alloc, folder, ROOM, fails, stop)?)
}

/// A run over this folder, whose clock reads 1000.
pub fn play(alloc: Global, shelf: MemShelf, script: &[u8]) -> Result<Left, Fail> {
    let Ok(calls) = open_lines(script) else {
        return Err(Fail::from("a bad script"));
    };
    let mut out = MemSink::new(alloc, ROOM, List::new(alloc))?;
    let clock = MemClock::new(alloc, List::from_slice(alloc, &[1000])?);
    let Ran {
        end,
        shelf,
        clock: _clock,
    } = run_storage(alloc, calls, shelf, clock, &mut out);
    Ok(Left {
        end,
        output: Bytes::from_slice(alloc, out.taken())?,
        shelf,
    })
}

/// Whether these are the message files that are there.
pub fn has_files(alloc: Global, shelf: &mut MemShelf, files: &[u32]) -> Result<bool, Fail> {
    let Ok(names) = shelf.list(alloc) else {
        return Err(Fail::from("the folder isn't listed"));
    };
    let mut left = files.len();
    for name in names.as_slice() {
        if let Name::Mail(number) = *name {
            if left == 0 || !files.contains(&number) {
                return Ok(false);
            }
            left -= 1;
        }
    }
    Ok(left == 0)
}
