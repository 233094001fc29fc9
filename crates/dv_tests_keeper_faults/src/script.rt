//! What two sessions are asked over a log that is due to be rotated, and what they are told.

use dv_model::{Bytes, List};
use dv_shelf::{Folder, MemShelf, Name};
use dv_tests_keeper::Ask;
use dv_tests_keeper::Ask::Line;
use std::alloc::Global;
use std::test::Fail;

// A mailbox that was made at 1000, and the beginning of a record that is carried.
const MADE: &[u8] = b"\x01\x03\x28\0\xe8\x03\0\0\x01\0\0\0\0\0\0\0\0\0\0\0\
    \xe8\x03\0\0\x01\0\0\0\0\0\0\0\x01\0\0\0\0\0\0\0\
    \x80\x80\x80\x84\x20\0\0\0\x18\0\x04\0\xe8\x03\0\0\
    \x80\x82\x80\x82\0\0\x08\0";

// The other bytes of that record, and four behind it.
const CARRIED: usize = 131_072 + 4;

// The room for what is written, in bytes.
const ROOM: u32 = 500_000;

/// Both write and read messages. The log is rotated before the first message.
pub const ASKS: [Ask; 16] = [
    Line(b"a SELECT\n"),
    Line(b"b SELECT\n"),
    Line(b"a APPEND (\\Seen k1) {19}\nSubject: one\n\none\n\n\n"),
    Line(b"b APPEND () {5}\nhello\n"),
    Line(b"a FETCH 1 (RFC822.SIZE BODY[])\n"),
    Line(b"b NOOP\n"),
    Line(b"b STORE 2 +FLAGS (\\Deleted k2)\n"),
    Line(b"a CHECK\n"),
    Line(b"b SEARCH HEADER subject \"one\"\n"),
    Line(b"a EXPUNGE\n"),
    Line(b"b UID REMOVE 1\n"),
    Line(b"a APPEND (\\Draft) {1}\nx\n"),
    Line(b"b CHECK\n"),
    Line(b"a FETCH 1 (BODY[])\n"),
    Line(b"a NOOP\n"),
    Line(b"b NOOP\n"),
];

/// Which of these write.
pub const WRITES: [usize; 8] = [2, 3, 6, 7, 9, 10, 11, 12];

/// How many calls the folder is opened by.
pub const OPENING: u32 = 4;

/// How many calls there are with all that is asked: the opening; a read and three files of the
/// rotation; three messages; a STORE; a CHECK with two reads, the listing, two files and the
/// commit; an EXPUNGE and a removal with a read; a CHECK with reads of the cache file and of a
/// message, the listing, two removals, two files and the commit; and three messages that are read.
pub const CALLS: u64 = 4 + 4 + 3 * 5 + 4 + 9 + 2 * 5 + 11 + 3;

/// What both are told.
pub const TOLD: &str = "a * 0 EXISTS\na * OK [UIDVALIDITY 1000]\na * OK [UIDNEXT 1]\n\
    a OK [MARK 1:131136] SELECT\n\
    b * 0 EXISTS\nb * OK [UIDVALIDITY 1000]\nb * OK [UIDNEXT 1]\n\
    b OK [MARK 1:131136] SELECT\n\
    a * 1 EXISTS\na * 1 FETCH (UID 1 FLAGS (\\Seen k1))\n\
    a OK [APPENDUID 1000 1] [MARK 2:80] APPEND\n\
    b * 2 EXISTS\nb * 1 FETCH (UID 1 FLAGS (\\Seen k1))\nb * 2 FETCH (UID 2 FLAGS ())\n\
    b OK [APPENDUID 1000 2] [MARK 2:96] APPEND\n\
    a * 1 FETCH (UID 1 RFC822.SIZE 23 BODY[] {19}\nSubject: one\n\none\n\n)\n\
    a * 2 EXISTS\na * 2 FETCH (UID 2 FLAGS ())\na OK [MARK 2:96] FETCH\n\
    b OK [MARK 2:96] NOOP\n\
    b * 2 FETCH (UID 2 FLAGS (\\Deleted k2))\nb OK [MARK 2:140] STORE\n\
    a * 2 FETCH (UID 2 FLAGS (\\Deleted k2))\na OK [MARK 2:216] CHECK\n\
    b * SEARCH 1\nb OK [MARK 2:216] SEARCH\n\
    a * 2 EXPUNGE\na OK [MARK 2:244] EXPUNGE\n\
    b * 2 EXPUNGE\nb * 1 EXPUNGE\nb OK [MARK 2:272] UID REMOVE\n\
    a * 1 EXPUNGE\na * 1 EXISTS\na * 1 FETCH (UID 3 FLAGS (\\Draft))\n\
    a OK [APPENDUID 1000 3] [MARK 2:288] APPEND\n\
    b * 1 EXISTS\nb * 1 FETCH (UID 3 FLAGS (\\Draft))\nb OK [MARK 2:356] CHECK\n\
    a * 1 FETCH (UID 3 BODY[] {1}\nx)\na OK [MARK 2:356] FETCH\n\
    a OK [MARK 2:356] NOOP\nb OK [MARK 2:356] NOOP\n";

/// What shows the mailbox of a folder, with its messages.
pub const SHOWS: [Ask; 2] = [
    Line(b"a SELECT\n"),
    Line(b"a UID FETCH 1:* (FLAGS MODSEQ RFC822.SIZE BODY[])\n"),
];

fn folder(alloc: Global) -> Result<Folder, Fail> {
    let mut text = Bytes::from_slice(alloc, MADE)?;
    text.extend(&vec![in alloc; 0; CARRIED]?)?;
    let mut folder = List::new(alloc);
    folder.push((Name::Log, text))?;
    Ok(folder)
}

/// The folder, of which these calls fail, and those behind the stop.
pub fn shelf(alloc: Global, fails: &[u32], stop: Option<u32>) -> Result<MemShelf, Fail> {
    let fails = List::from_slice(alloc, fails)?;
    Ok(MemShelf::of(alloc, &folder(alloc)?, ROOM, fails, stop)?)
}

/// A folder of these files.
pub fn shelf_of(alloc: Global, files: &Folder) -> Result<MemShelf, Fail> {
    Ok(MemShelf::of(alloc, files, ROOM, List::new(alloc), None)?)
}
