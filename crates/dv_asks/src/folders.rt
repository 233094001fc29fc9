//! Folders in memory, and what they hold.

ghost use Rattle.std.specs.Prelude.{◌<◌, length};

use crate::asks::MemStore;
use dv_model::{Bytes, List};
use dv_shelf::{Folder, MemClock, MemShelf, Name, Shelf};
use dv_store::Store;
use std::alloc::Global;
use std::test::Fail;

/// A file by its name and its bytes.
pub type File = (Name, &'static [u8]);

// The room for what is written, in bytes.
const ROOM: u32 = 1_500_000;

// These files.
fn folder_of(alloc: Global, files: &[File]) -> Result<Folder, Fail> {
    let mut folder = List::new(alloc);
    for file in files {
        folder.push((file.0, Bytes::from_slice(alloc, file.1)?))?;
    }
    Ok(folder)
}

/// A folder of these files. The calls of `fails` fail, and those behind `stop`.
pub fn shelf_of(
    alloc: Global,
    folder: &Folder,
    fails: &[u32],
    stop: Option<u32>,
) -> Result<MemShelf, Fail> {
    let fails = List::from_slice(alloc, fails)?;
    Ok(MemShelf::of(alloc, folder, ROOM, fails, stop)?)
}

/// A folder of these files, of which these calls fail.
pub fn shelf_with(alloc: Global, files: &[File], fails: &[u32]) -> Result<MemShelf, Fail> {
    shelf_of(alloc, &folder_of(alloc, files)?, fails, None)
}

/// A clock with these readings, the last one again and again.
pub fn clock_of(alloc: Global, readings: &[u32]) -> Result<MemClock, Fail> {
    let readings = List::from_slice(alloc, readings)?;
    if readings.len() == 0 {
        return Err(Fail::from("no reading"));
    }
    Ok(MemClock::new(alloc, readings))
}

/// The store of a folder that is opened.
pub fn opened(alloc: Global, shelf: MemShelf, clock: MemClock) -> Result<MemStore, Fail> {
    match Store::open(alloc, shelf, clock) {
        Ok(store) => Ok(store),
        Err(_) => Err(Fail::from("not opened")),
    }
}

/// The store of a folder that is made.
pub fn created(alloc: Global, shelf: MemShelf, clock: MemClock) -> Result<MemStore, Fail> {
    match Store::create(alloc, shelf, clock) {
        Ok(store) => Ok(store),
        Err(_) => Err(Fail::from("not made")),
    }
}

/// Puts these files into a folder.
pub fn put_all(shelf: &mut MemShelf, files: &[File]) -> Result<(), Fail> {
    for file in files {
        if shelf.replace(file.0, file.1).is_err() {
            return Err(Fail::from("not replaced"));
        }
    }
    Ok(())
}

// Whether a file's bytes from a place on are these.
fn ends_with(file: &[u8], at: usize, bytes: &[u8]) -> bool {
    if at > file.len() {
        return false;
    }
    let (_, rest) = file.split_at(at);
    rest == bytes
}

/// Whether the file has these bytes from a place on, or is missing where there are none.
pub fn has_file(
    alloc: Global,
    shelf: &mut MemShelf,
    name: Name,
    at: usize,
    bytes: Option<&[u8]>,
) -> bool {
    match (shelf.read(alloc, name), bytes) {
        (Ok(Some(file)), Some(bytes)) => ends_with(file.as_slice(), at, bytes),
        (Ok(None), None) => true,
        _ => false,
    }
}
