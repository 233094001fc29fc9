//! Folders in memory. What can't be had of one counts as want of memory, which no test expects.

use dv_chain::{Chain, open};
use dv_model::{List, NoMemory};
use dv_shelf::{Folder, MemShelf, Name, Shelf};
use std::alloc::Global;

/// A file by its name, with its bytes.
pub type File<'a> = (Name, &'a [u8]);

// How many bytes a folder has room for.
const ROOM: u32 = 10_000;

/// The folder of an image, at rest.
pub fn copy_of(alloc: Global, image: &Folder) -> Result<MemShelf, NoMemory> {
    MemShelf::of(alloc, image, ROOM, List::new(alloc), None)
}

/// A folder of these files, at rest. The calls of `fails` fail, and those behind `stop`.
pub fn shelf_of(
    alloc: Global,
    files: &[File],
    fails: &[u32],
    stop: Option<u32>,
) -> Result<MemShelf, NoMemory> {
    let mut folder = List::new(alloc);
    for (name, bytes) in files {
        folder.push((*name, List::from_slice(alloc, bytes)?))?;
    }
    let fails = List::from_slice(alloc, fails)?;
    MemShelf::of(alloc, &folder, ROOM, fails, stop)
}

/// Whether the file has these bytes.
pub fn has_file(alloc: Global, shelf: &mut MemShelf, file: File) -> bool {
    match shelf.read(alloc, file.0) {
        Ok(Some(found)) => found.as_slice() == file.1,
        _ => false,
    }
}

/// Whether the mailbox has the row of UID 1 alone, which was seen, and the modification sequence 4.
pub fn has_first(chain: &Chain) -> bool {
    if chain.live.count() != 1 || chain.live.next_uid() != 2 || chain.live.highest() != 4 {
        return false;
    }
    let row = chain.live.row(0);
    row.uid == 1 && row.flags == 8 && row.modseq == 4
}

/// The chain of a folder that opens.
pub fn chain_in(alloc: Global, shelf: &mut MemShelf) -> Option<Chain> {
    open(alloc, shelf).ok()
}
