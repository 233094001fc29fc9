ghost use Rattle.std.specs.Prelude.{All};
ghost use Rattle.dv_model.specs.Spelling.{IsRecord};

use super::*;
use dv_logfile::{LogHeader, ScanEnd, create};

const HEADER: LogHeader = LogHeader {
    major_version: 1,
    minor_version: 3,
    hdr_size: 40,
    indexid: 1000,
    file_seq: 1,
    prev_file_seq: 0,
    prev_file_offset: 0,
    create_stamp: 1000,
    initial_modseq: 1,
    compat_flags: 1,
};

// The records behind the header, what follows them, the records' places, and the end.
type Worked = (&'static [u8], &'static [u8], &'static [u32], u32);

const LOGS: [Worked; 4] = [
    // an appended message and its flag \Seen
    (
        &[
            0x80, 0x80, 0x80, 0x84, 0x20, 0, 0, 0, 24, 0, 4, 0, 0xe8, 3, 0, 0, //
            0x80, 0x80, 0x80, 0x84, 2, 0, 0, 0x10, 1, 0, 0, 0, 0, 0, 0, 0, //
            0x80, 0x80, 0x80, 0x85, 4, 0, 0, 0x10, 1, 0, 0, 0, 1, 0, 0, 0, 8, 0, 0, 0,
        ],
        &[0, 0, 0, 0],
        &[40, 56, 72],
        92,
    ),
    // a record of an unknown type, and a message behind it, with which the file ends
    (
        &[
            0x80, 0x80, 0x80, 0x84, 0x20, 0, 0, 0, 24, 0, 4, 0, 0xe8, 3, 0, 0, //
            0x80, 0x80, 0x80, 0x83, 0, 0, 8, 0, 0x1c, 0, 0, 0, //
            0x80, 0x80, 0x80, 0x84, 2, 0, 0, 0x10, 1, 0, 0, 0, 0, 0, 0, 0,
        ],
        &[],
        &[40, 56, 68],
        84,
    ),
    // a UIDNEXT of 4294967294, and three bytes of a size
    (
        &[
            0x80, 0x80, 0x80, 0x85, 0x20, 0, 0, 0, 24, 0, 8, 0, 0xe8, 3, 0, 0, 0xfe, 0xff, 0xff,
            0xff,
        ],
        &[0x80, 0x80, 0x80],
        &[40],
        60,
    ),
    // a message whose first byte isn't written
    (
        &[
            0x80, 0x80, 0x80, 0x84, 0x20, 0, 0, 0, 24, 0, 4, 0, 0xe8, 3, 0, 0,
        ],
        &[
            0, 0x80, 0x80, 0x84, 2, 0, 0, 0x10, 1, 0, 0, 0, 0, 0, 0, 0, 0, 0, 0, 0, 0,
        ],
        &[40],
        56,
    ),
];

// The header and these bytes behind it.
fn file_of(alloc: Global, records: &[u8], behind: &[u8]) -> Result<Bytes, NoMemory> {
    let mut file = List::from_slice(alloc, &LOG[..40])?;
    file.extend(records)?;
    file.extend(behind)?;
    Ok(file)
}

// Whether a log of these records is written as this text.
fn is_written(alloc: Global, records: &List<Record>, text: &[u8]) -> Result<bool, NoMemory>
    requires { All IsRecord records.now }
{
    let written = create(alloc, &HEADER, records)?;
    Ok(written.as_slice() == text)
}

fn is_found(alloc: Global, file: &[u8], log: &Worked, closed: &[u8]) -> Result<bool, NoMemory> {
    let Ok(found) = scan(alloc, file) else {
        return Ok(false);
    };
    Ok(
        found.header == HEADER
            && found.places.as_slice() == log.2
            && found.end == log.3
            && is_written(alloc, &found.records, closed)?,
    )
}

// Whether the file of a log is read as it says, and written with a closed end.
fn is_read(alloc: Global, log: &Worked) -> Result<bool, NoMemory> {
    let file = file_of(alloc, log.0, log.1)?;
    let closed = file_of(alloc, log.0, &[0; 4])?;
    is_found(alloc, file.as_slice(), log, closed.as_slice())
}

// Fails by the end of the first log that isn't.
fn are_read(alloc: Global, logs: &[Worked]) -> Result<(), Fail> {
    for log in logs {
        if is_read(alloc, log) != Ok(true) {
            return Err(Fail::from(log.3));
        }
    }
    Ok(())
}

#[test]
fn logs_are_read_with_their_places(rt: HostRuntime) -> Result<(), Fail> {
    are_read(rt.alloc(), &LOGS)
}

// Second records of which none is read.
const FAULTS: [&[u8]; 3] = [
    // a size that goes past the end
    &[0x80, 0x80, 0x80, 0x84, 2, 0, 0, 0x10, 1, 0, 0, 0],
    // an expunge without its protection
    &[0x80, 0x80, 0x80, 0x82, 1, 0, 0, 0x10],
    // a UID of 0
    &[
        0x80, 0x80, 0x80, 0x84, 2, 0, 0, 0x10, 0, 0, 0, 0, 0, 0, 0, 0,
    ],
];

// A header of 23 bytes, in a file of as many.
const SHORT: [u8; 23] = [
    1, 3, 23, 0, 0xe8, 3, 0, 0, 1, 0, 0, 0, 0, 0, 0, 0, 0, 0, 0, 0, 0xe8, 3, 0,
];

// Why there is no log of the UIDVALIDITY and a second record.
fn end_behind(alloc: Global, second: &[u8]) -> Result<Option<ScanEnd>, NoMemory> {
    let file = file_of(alloc, &LOG[40..56], second)?;
    Ok(scan(alloc, file.as_slice()).err())
}

// Fails by the place of the first one that is no bad record.
fn are_bad(alloc: Global, records: &[&[u8]]) -> Result<(), Fail> {
    for (at, second) in records.iter().enumerate() {
        if end_behind(alloc, second) != Ok(Some(ScanEnd::BadRecord { offset: 56 })) {
            return Err(Fail::from(at));
        }
    }
    Ok(())
}

#[test]
fn a_fault_is_named_by_its_place(rt: HostRuntime) -> Result<(), Fail> {
    are_bad(rt.alloc(), &FAULTS)
}

fn has_bad_header(alloc: Global, file: &[u8]) -> Result<(), Fail> {
    match scan(alloc, file) {
        Err(ScanEnd::BadHeader) => Ok(()),
        _ => Err(Fail::from("another end")),
    }
}

#[test]
fn a_short_header_is_bad(rt: HostRuntime) -> Result<(), Fail> {
    has_bad_header(rt.alloc(), &SHORT)
}
