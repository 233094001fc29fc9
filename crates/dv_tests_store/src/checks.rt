use crate::cases::{Case, NONE, Step, play};
use crate::said::Said;
use dv_asks::{Ask, File};
use dv_model::How;
use dv_shelf::Name;
use std::test::Fail;

// A message, and its flag Seen.
const APPENDED: Step = (Ask::Append(0, b"hello"), Said::Appended(1, 72, 1));

const STORED: Step = (Ask::Store(1, 1, How::Add, 8), Said::Wrote(1, 92, &[1]));

const CHECKED: Step = (Ask::Check, Said::Wrote(1, 160, &[]));

// The extension `cache`, its number 1, and the place of the only row.
const GROUP: &[u8] = b"\x80\x80\x80\x89\x40\0\0\0\xff\xff\xff\xff\0\0\0\0\0\0\0\0\
    \x04\0\x04\0\0\0\x05\0cache\0\0\0\
    \x80\x80\x80\x84\x80\0\0\0\x01\0\0\0\0\0\0\0\
    \x80\x80\x80\x84\0\x02\0\0\x01\0\0\0\x20\0\0\0\0\0\0\0";

// The snapshot at 1:92: UID 1 with Seen and the modification sequence 4.
const INDEX: &[u8] = b"\xc9\x02\x78\0\x78\0\0\0\x10\0\0\0\0\0\0\0\
    \xe8\x03\0\0\0\0\0\0\xe8\x03\0\0\x02\0\0\0\
    \x01\0\0\0\x01\0\0\0\x5c\0\0\0\0\0\0\0\
    \0\0\0\0\0\0\0\0\0\0\0\0\x01\0\0\0\
    \0\0\0\0\x04\0\0\0\0\0\0\0\0\0\0\0\
    \0\0\0\0\0\0\0\0\0\0\0\0\0\0\0\0\
    \0\0\0\0\0\0\0\0\0\0\0\0\0\0\0\0\
    \0\0\0\0\0\0\0\0\x01\0\0\0\x08\0\0\0\
    \x04\0\0\0\0\0\0\0";

// UID 1 has the sizes 5 and 5, and none of the five fields.
const CACHE: &[u8] = b"dvca\x01\0\0\0\xe8\x03\0\0\x01\0\0\0\x01\0\0\0\x44\0\0\0\0\0\0\0\0\0\0\0\
    \x01\0\0\0\x05\0\0\0\x05\0\0\0\x30\0\0\0\
    \xff\xff\xff\xff\xff\xff\xff\xff\xff\xff\xff\xff\xff\xff\xff\xff\xff\xff\xff\xff";

// The same, numbered 9.
const FOREIGN: &[File] = &[(
    Name::Cache,
    b"dvca\x01\0\0\0\xe8\x03\0\0\x09\0\0\0\x01\0\0\0\x44\0\0\0\0\0\0\0\0\0\0\0\
    \x01\0\0\0\x05\0\0\0\x05\0\0\0\x30\0\0\0\
    \xff\xff\xff\xff\xff\xff\xff\xff\xff\xff\xff\xff\xff\xff\xff\xff\xff\xff\xff\xff",
)];

// The making, a message, a STORE, and of the CHECK a message that is read, the listing, two files
// and the commit.
const CHECK_CALLS: u64 = 18;

const CHECK: Case = Case {
    steps: &[APPENDED, STORED, CHECKED],
    calls: CHECK_CALLS,
    left: &[
        (Name::Log, 92, Some(GROUP)),
        (Name::Index, 0, Some(INDEX)),
        (Name::Cache, 0, Some(CACHE)),
    ],
    ..NONE
};

#[test]
fn check_writes_its_group_the_index_and_the_cache(rt: HostRuntime) -> Result<(), Fail> {
    play(rt.alloc(), &CHECK)
}

// The snapshot of the same mailbox is written by itself.
const CHECKPOINT: Case = Case {
    steps: &[APPENDED, STORED, (Ask::Checkpoint, Said::Done)],
    // The making, a message, a STORE, and one file.
    calls: 11,
    left: &[(Name::Index, 0, Some(INDEX)), (Name::Cache, 0, None)],
    ..NONE
};

#[test]
fn checkpoint_writes_the_index(rt: HostRuntime) -> Result<(), Fail> {
    play(rt.alloc(), &CHECKPOINT)
}

const NO_SUBJECT: Step = (Ask::Field(1, b"Subject"), Said::Absent);

// Only the cache file is read, once.
const KEPT: Case = Case {
    steps: &[
        APPENDED,
        STORED,
        CHECKED,
        NO_SUBJECT,
        NO_SUBJECT,
        (Ask::Sizes(1), Said::Sizes(5, 5)),
        (Ask::Facts(1, b"Subject"), Said::Facts(5, None)),
    ],
    calls: CHECK_CALLS + 1,
    ..NONE
};

#[test]
fn cached_field_is_found_without_its_message(rt: HostRuntime) -> Result<(), Fail> {
    play(rt.alloc(), &KEPT)
}

// A field of another name isn't kept.
const OTHER: Case = Case {
    steps: &[
        APPENDED,
        STORED,
        CHECKED,
        (Ask::Field(1, b"Received"), Said::Absent),
    ],
    calls: CHECK_CALLS + 1,
    ..NONE
};

#[test]
fn other_field_is_read_from_its_message(rt: HostRuntime) -> Result<(), Fail> {
    play(rt.alloc(), &OTHER)
}

// The file is put there, the folder opened by three reads, and the cache file and the message read.
const FOREIGN_CACHE: Case = Case {
    steps: &[APPENDED, STORED, CHECKED],
    put: FOREIGN,
    later: &[NO_SUBJECT],
    calls: CHECK_CALLS + 6,
    ..NONE
};

#[test]
fn cache_of_another_number_tells_nothing(rt: HostRuntime) -> Result<(), Fail> {
    play(rt.alloc(), &FOREIGN_CACHE)
}

// The number of the second CHECK's cache is 2.
const SECOND_GROUP: &[u8] = b"\x80\x80\x80\x89\x40\0\0\0\xff\xff\xff\xff\x01\0\0\0\0\0\0\0\
    \x04\0\x04\0\0\0\x05\0cache\0\0\0\
    \x80\x80\x80\x84\x80\0\0\0\x02\0\0\0\0\0\0\0\
    \x80\x80\x80\x84\0\x02\0\0\x01\0\0\0\x20\0\0\0\0\0\0\0";

// A look between them reads the cache file, and one behind them reads it anew.
const AGAIN: Case = Case {
    steps: &[
        APPENDED,
        STORED,
        CHECKED,
        NO_SUBJECT,
        (Ask::Check, Said::Wrote(1, 228, &[])),
        NO_SUBJECT,
    ],
    calls: CHECK_CALLS + 10,
    left: &[(Name::Log, 160, Some(SECOND_GROUP))],
    ..NONE
};

#[test]
fn second_check_has_the_next_number(rt: HostRuntime) -> Result<(), Fail> {
    play(rt.alloc(), &AGAIN)
}

const MESSAGE: &[u8] = b"Subject: Hello\r\n world\r\n\r\nHi\n";

// UID 1 has the sizes 29 and 30 and the subject `Hello world`, and UID 3's file is damaged.
const SWEPT_CACHE: &[u8] =
    b"dvca\x01\0\0\0\xe8\x03\0\0\x01\0\0\0\x02\0\0\0\x5f\0\0\0\0\0\0\0\0\0\0\0\
    \x01\0\0\0\x1d\0\0\0\x1e\0\0\0\x40\0\0\0\
    \x03\0\0\0\0\0\0\0\0\0\0\0\0\0\0\0\
    \xff\xff\xff\xff\xff\xff\xff\xff\xff\xff\xff\xff\x0b\0\0\0Hello world\xff\xff\xff\xff";

// UID 2 left, UID 3's file is emptied, and a file has a number that wasn't given out yet.
const SWEEP: Case = Case {
    steps: &[
        (Ask::Append(0, MESSAGE), Said::Appended(1, 72, 1)),
        (Ask::Append(4, b"leaves"), Said::Appended(1, 88, 2)),
        (Ask::Append(0, b"emptied"), Said::Appended(1, 104, 3)),
        (Ask::Expunge, Said::Wrote(1, 132, &[2])),
    ],
    put: &[(Name::Mail(3), b""), (Name::Mail(4), b"not yet")],
    later: &[
        (Ask::Check, Said::Wrote(1, 208, &[])),
        (Ask::Field(1, b"SUBJECT"), Said::Bytes(b"Hello world")),
        (Ask::Sizes(1), Said::Sizes(29, 30)),
        (Ask::Sizes(3), Said::Damaged),
        (Ask::Body(1), Said::Bytes(MESSAGE)),
    ],
    // The making, three messages, a read and a commit; two files and an opening; two reads, the
    // listing, a removal, two files and a commit; the cache file and two messages.
    calls: 1 + 15 + 5 + 2 + 3 + 10 + 3,
    left: &[
        (Name::Mail(2), 0, None),
        (Name::Mail(3), 0, Some(b"")),
        (Name::Mail(4), 0, Some(b"not yet")),
        (Name::Cache, 0, Some(SWEPT_CACHE)),
    ],
    ..NONE
};

#[test]
fn check_removes_the_files_of_messages_that_left(rt: HostRuntime) -> Result<(), Fail> {
    play(rt.alloc(), &SWEEP)
}
