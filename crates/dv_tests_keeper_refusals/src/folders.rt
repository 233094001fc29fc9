//! A folder whose log is due to be rotated, with so many messages that an EXPUNGE of them is longer
//! than a generation.

use dv_model::{Bytes, List, NoMemory};
use dv_shelf::{Folder, MemShelf, Name};
use std::alloc::Global;

// A mailbox that was made at 1000.
const MADE: &[u8] = b"\x01\x03\x28\0\xe8\x03\0\0\x01\0\0\0\0\0\0\0\0\0\0\0\
    \xe8\x03\0\0\x01\0\0\0\0\0\0\0\x01\0\0\0\0\0\0\0\
    \x80\x80\x80\x84\x20\0\0\0\x18\0\x04\0\xe8\x03\0\0";

// How many messages there are.
const ROWS: u32 = 6560;

// The beginning of an append of so many rows.
const APPEND: &[u8] = b"\x80\x80\xe6\xc2\x02\0\0\x10";

// UIDs 4 to 6560 get the flag Deleted.
const DELETED: &[u8] = b"\x80\x80\x80\x85\x04\0\0\x10\x04\0\0\0\xa0\x19\0\0\x04\0\0\0";

// The beginning of a record that is carried, the number of its other bytes, and four behind it.
const CARRIED: &[u8] = b"\x80\x82\x80\x82\0\0\x08\0";

const CARRIED_BYTES: usize = 131_072 + 4;

const MAIL: &[u8] = b"2 M1e C3e8\n\x01\x02N          0000000000000005\nhello\n\x01\x03\n\n";

// The room for what is written, in bytes.
const ROOM: u32 = 2_000_000;

fn add_rows(text: &mut Bytes) -> Result<(), NoMemory> {
    text.extend(APPEND)?;
    for at in 0..ROWS {
        text.extend(&at.saturating_add(1).to_le_bytes())?;
        text.extend(&[0; 4])?;
    }
    text.extend(DELETED)?;
    Ok(())
}

fn log(alloc: Global) -> Result<Bytes, NoMemory> {
    let mut text = Bytes::from_slice(alloc, MADE)?;
    add_rows(&mut text)?;
    text.extend(CARRIED)?;
    text.extend(&vec![in alloc; 0; CARRIED_BYTES]?)?;
    Ok(text)
}

/// A folder of messages of which the first alone has its file, and all but the first three the flag
/// Deleted.
pub fn large_shelf(alloc: Global) -> Result<MemShelf, NoMemory> {
    let mut folder: Folder = List::new(alloc);
    folder.push((Name::Log, log(alloc)?))?;
    folder.push((Name::Mail(1), Bytes::from_slice(alloc, MAIL)?))?;
    MemShelf::of(alloc, &folder, ROOM, List::new(alloc), None)
}
