use dv_model::{Bytes, List};
use dv_rebuild::{RebuildFault, Rebuilt, rebuild};
use dv_shelf::{MemClock, MemShelf, Name};
use std::alloc::Global;
use std::test::Fail;

// The log of index 1000: its UIDVALIDITY of 1000, appends of UID 1 and of UIDs 2 and 3, and the
// flag Seen of UID 2. Its records end at 56, 72, 96 and 116.
pub const LOG: &[u8] = &[
    1, 3, 40, 0, 0xe8, 3, 0, 0, 1, 0, 0, 0, 0, 0, 0, 0, 0, 0, 0, 0, //
    0xe8, 3, 0, 0, 1, 0, 0, 0, 0, 0, 0, 0, 1, 0, 0, 0, 0, 0, 0, 0, //
    0x80, 0x80, 0x80, 0x84, 0x20, 0, 0, 0, 24, 0, 4, 0, 0xe8, 3, 0, 0, //
    0x80, 0x80, 0x80, 0x84, 2, 0, 0, 0x10, 1, 0, 0, 0, 0, 0, 0, 0, //
    0x80, 0x80, 0x80, 0x86, 2, 0, 0, 0x10, 2, 0, 0, 0, 0, 0, 0, 0, 3, 0, 0, 0, 0, 0, 0, 0, //
    0x80, 0x80, 0x80, 0x85, 4, 0, 0, 0x10, 2, 0, 0, 0, 2, 0, 0, 0, 8, 0, 0, 0, //
    0, 0, 0, 0,
];

// A message file of the message hello. Its first line has 11 bytes, its message header 30, and what
// is behind the message 10.
pub const HELLO: &[u8] =
    b"2 M1e C3e9\n\x01\x02N          0000000000000005\nhello\n\x01\x03\nR3e9\n\n";

// The snapshot of UID 1 at 1:72 of index 1000.
pub const INDEX: &[u8] = &[
    201, 2, 120, 0, 120, 0, 0, 0, 16, 0, 0, 0, 0, 0, 0, 0, //
    0xe8, 3, 0, 0, 0, 0, 0, 0, 0xe8, 3, 0, 0, 2, 0, 0, 0, //
    1, 0, 0, 0, 1, 0, 0, 0, 72, 0, 0, 0, 0, 0, 0, 0, //
    0, 0, 0, 0, 0, 0, 0, 0, 0, 0, 0, 0, 0, 0, 0, 0, //
    0, 0, 0, 0, 9, 0, 0, 0, 0, 0, 0, 0, 0, 0, 0, 0, //
    0, 0, 0, 0, 0, 0, 0, 0, 0, 0, 0, 0, 0, 0, 0, 0, //
    0, 0, 0, 0, 0, 0, 0, 0, 0, 0, 0, 0, 0, 0, 0, 0, //
    0, 0, 0, 0, 0, 0, 0, 0, 1, 0, 0, 0, 0, 0, 0, 0, //
    7, 0, 0, 0, 0, 0, 0, 0,
];

// The files of a folder, by their names.
pub type Files = List<(Name, Bytes)>;

pub fn add(alloc: Global, files: &mut Files, name: Name, bytes: &[u8]) -> Result<(), Fail> {
    files.push((name, Bytes::from_slice(alloc, bytes)?))?;
    Ok(())
}

pub fn shelf_of(alloc: Global, files: &Files) -> Result<MemShelf, Fail> {
    Ok(MemShelf::of(alloc, files, 10_000, List::new(alloc), None)?)
}

// The counts of a rebuild.
#[derive(Clone, Copy, PartialEq, Eq, Debug)]
pub struct Counts {
    pub kept: u32,
    pub skipped: u32,
}

// A rebuild at the time 2000.
pub fn rebuilt(alloc: Global, shelf: &mut MemShelf) -> Result<Result<Counts, RebuildFault>, Fail> {
    let mut clock = MemClock::new(alloc, List::from_slice(alloc, &[2000])?);
    match rebuild(alloc, shelf, &mut clock) {
        Ok(Rebuilt { kept, skipped, .. }) => Ok(Ok(Counts { kept, skipped })),
        Err(e) => Ok(Err(e)),
    }
}
