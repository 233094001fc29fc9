//! Logs of many rows and of many keywords.

use dv_model::{Bytes, List};
use dv_shelf::{Folder, Name};
use std::alloc::Global;
use std::test::Fail;

// The header of the first log of index 1000, and its UIDVALIDITY of 1000.
const FRONT: [u8; 56] = [
    1, 3, 40, 0, 0xe8, 3, 0, 0, 1, 0, 0, 0, 0, 0, 0, 0, 0, 0, 0, 0, //
    0xe8, 3, 0, 0, 1, 0, 0, 0, 0, 0, 0, 0, 1, 0, 0, 0, 0, 0, 0, 0, //
    0x80, 0x80, 0x80, 0x84, 0x20, 0, 0, 0, 24, 0, 4, 0, 0xe8, 3, 0, 0, //
];

// The size and the type of an append of 70,000 rows, of eight bytes each.
const APPEND_MANY: [u8; 8] = [0x80, 0x88, 0xc5, 0xe2, 2, 0, 0, 0x10];

/// How many rows it has.
pub const ROWS: u32 = 70_000;

// An append of UIDs 1 and 2.
const APPEND_TWO: [u8; 24] = [
    0x80, 0x80, 0x80, 0x86, 2, 0, 0, 0x10, 1, 0, 0, 0, 0, 0, 0, 0, 2, 0, 0, 0, 0, 0, 0, 0,
];

// The size, the type and the front of a record that gives UIDs 1 and 2 a keyword whose name has 240
// bytes, and what stands behind the name.
const KEYWORD: [u8; 12] = [0x80, 0x80, 0x80, 0xc1, 0, 4, 0, 0x10, 0, 0, 240, 0];

const TO_BOTH: [u8; 8] = [1, 0, 0, 0, 2, 0, 0, 0];

// Such a name begins with five digits.
const REST_OF_NAME: [u8; 235] = [b'x'; 235];

const FIRST_NAME: u32 = 10_000;

/// So many keywords have names and records of 260 bytes, more than 1 MiB in all.
pub const KEYWORDS: u32 = 4_500;

// A message file of the message hello.
const HELLO: &[u8] = b"2 M1e C3e9\n\x01\x02N          0000000000000005\nhello\n\x01\x03\nR3e9\n\n";

/// A log of rows without flags.
pub fn log_of_rows(alloc: Global) -> Result<Bytes, Fail> {
    let mut log = Bytes::from_slice(alloc, &FRONT)?;
    log.extend(&APPEND_MANY)?;
    for uid in 1..ROWS + 1 {
        log.extend(&uid.to_le_bytes())?;
        log.extend(&[0; 4])?;
    }
    log.extend(&[0; 4])?;
    Ok(log)
}

// A log of two rows with many keywords.
fn log_of_keywords(alloc: Global) -> Result<Bytes, Fail> {
    let mut log = Bytes::from_slice(alloc, &FRONT)?;
    log.extend(&APPEND_TWO)?;
    for n in FIRST_NAME..FIRST_NAME + KEYWORDS {
        log.extend(&KEYWORD)?;
        log.extend(format!(in alloc; "{n}")?.as_bytes())?;
        log.extend(&REST_OF_NAME)?;
        log.extend(&TO_BOTH)?;
    }
    log.extend(&[0; 4])?;
    Ok(log)
}

/// A folder with this log alone.
pub fn folder_of(alloc: Global, log: Bytes) -> Result<Folder, Fail> {
    let mut folder = List::new(alloc);
    folder.push((Name::Log, log))?;
    Ok(folder)
}

/// A folder of two messages with many keywords.
pub fn named_folder(alloc: Global) -> Result<Folder, Fail> {
    let mut folder = folder_of(alloc, log_of_keywords(alloc)?)?;
    folder.push((Name::Mail(1), Bytes::from_slice(alloc, HELLO)?))?;
    folder.push((Name::Mail(2), Bytes::from_slice(alloc, HELLO)?))?;
    Ok(folder)
}
