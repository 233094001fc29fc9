use dv_apply::Live;
use dv_chain::{Chain, open};
use dv_logfile::scan;
use dv_model::{Bytes, List, NoMemory, OpenFault};
use dv_shelf::{Folder, MemShelf, Name};
use std::alloc::Global;
use std::test::*;

// A log file as a server writes it, in pieces: its header and each record.
const FIRST: [&[u8]; 11] = [
    // version 1.3, 40 bytes, index 0x4a6f7b2c, the first file, initial_modseq 1
    b"\x01\x03\x28\0\x2c\x7b\x6f\x4a\x01\0\0\0\0\0\0\0\0\0\0\0\x2c\x7b\x6f\x4a\x01\0\0\0\0\0\0\0\x01\0\0\0\0\0\0\0",
    // at 40: UIDVALIDITY 0x4a6f7b2c
    b"\x80\x80\x80\x84\x20\0\0\x10\x18\0\x04\0\x2c\x7b\x6f\x4a",
    // at 56: a boundary, which is carried
    b"\x80\x80\x80\x83\0\0\x08\x10\x68\0\0\0",
    // at 68: UIDs 1, 2 and 3, the last with Seen
    b"\x80\x80\x80\x88\x02\0\0\x10\x01\0\0\0\0\0\0\0\x02\0\0\0\0\0\0\0\x03\0\0\0\x08\0\0\0",
    // at 100: the extension cache, four bytes of each row
    b"\x80\x80\x80\x89\x40\0\0\x10\xff\xff\xff\xff\x30\x7b\x6f\x4a\0\0\0\0\x04\0\x04\0\0\0\x05\0cache\0\0\0",
    // at 136: those of UIDs 1 and 3
    b"\x80\x80\x80\x86\0\x02\0\x10\x01\0\0\0\x20\0\0\0\x03\0\0\0\x40\0\0\0",
    // at 160: it is reset, and its bytes with it
    b"\x80\x80\x80\x84\x80\0\0\x10\x31\x7b\x6f\x4a\0\0\0\0",
    // at 176: those of UIDs 2 and 3
    b"\x80\x80\x80\x86\0\x02\0\x10\x02\0\0\0\x30\0\0\0\x03\0\0\0\x50\0\0\0",
    // at 200: UIDs 1 to 3 get the keyword NonJunk
    b"\x80\x80\x80\x87\0\x04\0\x10\0\0\x07\0NonJunk\0\x01\0\0\0\x03\0\0\0",
    // at 228: UIDs 2 and 3 get Flagged
    b"\x80\x80\x80\x85\x04\0\0\x10\x02\0\0\0\x03\0\0\0\x02\0\0\0",
    // at 248: UID 2 leaves
    b"\x80\x80\x80\x84\x91\xcd\0\x10\x02\0\0\0\x02\0\0\0",
];

// The file behind it.
const SECOND: [&[u8]; 10] = [
    // the second file, behind the first one and its end 264, with initial_modseq 11
    b"\x01\x03\x28\0\x2c\x7b\x6f\x4a\x02\0\0\0\x01\0\0\0\x08\x01\0\0\x3c\x89\x6f\x4a\x0b\0\0\0\0\0\0\0\x01\0\0\0\0\0\0\0",
    // at 40: UID 3 loses its keywords
    b"\x80\x80\x80\x84\0\x08\0\x10\x03\0\0\0\x03\0\0\0",
    // at 56: UID 1 loses NonJunk
    b"\x80\x80\x80\x87\0\x04\0\x10\x01\0\x07\0NonJunk\0\x01\0\0\0\x01\0\0\0",
    // at 84: UID 3 gets $Forwarded
    b"\x80\x80\x80\x88\0\x04\0\x10\0\0\x0a\0$Forwarded\0\0\x03\0\0\0\x03\0\0\0",
    // at 116: the extension at place 0 once more, with a header of four bytes
    b"\x80\x80\x80\x87\x40\0\0\x10\0\0\0\0\x31\x7b\x6f\x4a\x04\0\0\0\x04\0\x04\0\0\0\0\0",
    // at 144: the bytes of UID 3
    b"\x80\x80\x80\x84\0\x02\0\x10\x03\0\0\0\x60\0\0\0",
    // at 160: those of the header
    b"\x80\x80\x80\x84\0\x01\0\x10\0\0\x04\0\x07\0\0\0",
    // at 176: UID 4
    b"\x80\x80\x80\x84\x02\0\0\x10\x04\0\0\0\0\0\0\0",
    // at 192: UID 1 leaves, with its GUID
    b"\x80\x80\x80\x87\x90\xed\0\x10\x01\0\0\0\x4f\xb8\x26\x1c\x2c\x7b\x6f\x4a\x3e\x0f\0\0\x9a\x2e\x51\xd0",
    // at 220: UID 3 is only asked to leave
    b"\x80\x80\x80\x87\x90\xed\0\0\x03\0\0\0\x50\xb8\x26\x1c\x2c\x7b\x6f\x4a\x3e\x0f\0\0\x9a\x2e\x51\xd0",
];

fn file_of(alloc: Global, pieces: &[&[u8]]) -> Result<Bytes, NoMemory> {
    let mut file = List::new(alloc);
    for piece in pieces {
        file.extend(piece)?;
    }
    Ok(file)
}

// Whether a scan finds the records at these places, the last up to this end.
fn has_records(alloc: Global, file: &Bytes, places: &[u32], end: u32) -> bool {
    match scan(alloc, file.as_slice()) {
        Ok(found) => found.places.as_slice() == places && found.end == end,
        Err(_) => false,
    }
}

fn finds(alloc: Global, pieces: &[&[u8]], places: &[u32], end: u32) -> Result<bool, NoMemory> {
    let file = file_of(alloc, pieces)?;
    Ok(has_records(alloc, &file, places, end))
}

#[test]
fn logs_of_a_server_are_scanned(rt: HostRuntime) {
    let places = [40, 56, 68, 100, 136, 160, 176, 200, 228, 248];
    assert_eq!(rt; finds(rt.alloc(), &FIRST, &places, 264), Ok(true));
    let places = [40, 56, 84, 116, 144, 160, 176, 192, 220];
    assert_eq!(rt; finds(rt.alloc(), &SECOND, &places, 248), Ok(true));
}

// A row: its UID, its flags, its keywords, its modification sequence, its part.
type Seen<'a> = (u32, u8, &'a [u32], u64, &'a [u8]);

// Whether the mailbox has this row at a place, with one part.
fn has_row(live: &Live, place: u32, wanted: Seen) -> bool {
    if place >= live.count() {
        return false;
    }
    let row = live.row(place);
    let [part] = row.parts.as_slice() else {
        return false;
    };
    (row.uid, row.flags, row.modseq) == (wanted.0, wanted.1, wanted.3)
        && row.keywords.as_slice() == wanted.2
        && part.as_slice() == wanted.4
}

// Whether the mailbox has this one extension.
fn has_extension(live: &Live, reset_id: u32, header: &[u8]) -> bool {
    let [extension] = live.extensions().list().as_slice() else {
        return false;
    };
    extension.name.as_slice() == b"cache".as_slice()
        && extension.reset_id == reset_id
        && extension.header.as_slice() == header
}

// Whether these are the keywords' names.
fn has_names(live: &Live, names: &[&[u8]]) -> bool {
    let all = live.names().names();
    all.len() == names.len()
        && all
            .iter()
            .zip(names)
            .all(|(name, wanted)| name.as_slice() == *wanted)
}

fn add(alloc: Global, files: &mut Folder, name: Name, pieces: &[&[u8]]) -> Result<(), NoMemory> {
    let file = file_of(alloc, pieces)?;
    files.push((name, file))?;
    Ok(())
}

fn open_files(alloc: Global, files: &Folder) -> Result<Chain, OpenFault> {
    let mut shelf = MemShelf::of(alloc, files, 2000, List::new(alloc), None)?;
    open(alloc, &mut shelf)
}

// The UIDVALIDITY, the highest modification sequence, the number of rows, the UIDNEXT and the end.
fn numbers_of(chain: &Chain) -> (u32, u64, u32, u32, u32) {
    let live = &chain.live;
    (
        live.uid_validity(),
        live.highest(),
        live.count(),
        live.next_uid(),
        chain.log.end,
    )
}

// Whether a mailbox has the first row, the second, the extension and the names.
fn has_first(live: &Live) -> [bool; 4] {
    [
        has_row(live, 0, (1, 0, &[0], 9, &[0; 4])),
        has_row(live, 1, (3, 0x0a, &[0], 10, &[0x50, 0, 0, 0])),
        has_extension(live, 0x4a6f_7b31, &[]),
        has_names(live, &[b"NonJunk"]),
    ]
}

fn first_opened(alloc: Global) -> Result<((u32, u64, u32, u32, u32), [bool; 4]), OpenFault> {
    let mut files = List::new(alloc);
    add(alloc, &mut files, Name::Log, &FIRST)?;
    let chain = open_files(alloc, &files)?;
    Ok((numbers_of(&chain), has_first(&chain.live)))
}

#[test]
fn a_server_s_first_log_is_opened(rt: HostRuntime) {
    let numbers = (0x4a6f_7b2c, 11, 2, 4, 264);
    assert_eq!(rt; first_opened(rt.alloc()), Ok((numbers, [true; 4])));
}

fn has_joined(live: &Live) -> [bool; 4] {
    [
        has_row(live, 0, (3, 0x0a, &[1], 14, &[0x60, 0, 0, 0])),
        has_row(live, 1, (4, 0, &[], 18, &[0; 4])),
        has_extension(live, 0x4a6f_7b31, &[7, 0, 0, 0]),
        has_names(live, &[b"NonJunk", b"$Forwarded"]),
    ]
}

fn joined(alloc: Global) -> Result<((u32, u64, u32, u32, u32), [bool; 4]), OpenFault> {
    let mut files = List::new(alloc);
    add(alloc, &mut files, Name::Log, &SECOND)?;
    add(alloc, &mut files, Name::Log2, &FIRST)?;
    let chain = open_files(alloc, &files)?;
    Ok((numbers_of(&chain), has_joined(&chain.live)))
}

#[test]
fn a_server_s_logs_are_joined(rt: HostRuntime) {
    let numbers = (0x4a6f_7b2c, 20, 2, 5, 248);
    assert_eq!(rt; joined(rt.alloc()), Ok((numbers, [true; 4])));
}
