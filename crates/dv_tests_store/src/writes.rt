use crate::cases::{Case, Left, NONE, Step, play};
use crate::said::Said;
use dv_asks::{Ask, File};
use dv_model::How;
use dv_shelf::Name;
use std::test::Fail;

const FLAGGED: u8 = 0x02;

const DELETED: u8 = 0x04;

const SEEN: u8 = 0x08;

const DRAFT: u8 = 0x10;

// The log of a mailbox that was made at 1000, with its first message.
const FIRST_LOG: &[u8] = b"\x01\x03\x28\0\xe8\x03\0\0\x01\0\0\0\0\0\0\0\0\0\0\0\
    \xe8\x03\0\0\x01\0\0\0\0\0\0\0\x01\0\0\0\0\0\0\0\
    \x80\x80\x80\x84\x20\0\0\0\x18\0\x04\0\xe8\x03\0\0\
    \x80\x80\x80\x84\x02\0\0\x10\x01\0\0\0\0\0\0\0\
    \0\0\0\0";

// The file of that message, which was received at 1001.
const FIRST_MAIL: &[u8] = b"2 M1e C3e9\n\x01\x02N          0000000000000005\nhello\n\x01\x03\n\
    G000003e8000003e800000001000003e9\nR3e9\nZ5\nV5\n\n";

const APPENDED: Step = (Ask::Append(0, b"hello"), Said::Appended(1, 72, 1));

const FIRST: Case = Case {
    readings: &[1000, 1001],
    steps: &[APPENDED],
    calls: 6,
    left: &[
        (Name::Log, 0, Some(FIRST_LOG)),
        (Name::Mail(1), 0, Some(FIRST_MAIL)),
        (Name::Log2, 0, None),
        (Name::Index, 0, None),
        (Name::Cache, 0, None),
    ],
    ..NONE
};

#[test]
fn first_append_writes_a_message_file_and_sixteen_bytes(rt: HostRuntime) -> Result<(), Fail> {
    play(rt.alloc(), &FIRST)
}

const SEEN_STEP: Step = (Ask::Store(1, 1, How::Add, SEEN), Said::Wrote(1, 92, &[1]));

// Seen of UID 1.
const SEEN_RECORD: &[u8] = b"\x80\x80\x80\x85\x04\0\0\x10\x01\0\0\0\x01\0\0\0\x08\0\0\0\0\0\0\0";

const READ_YOUR_WRITE: Case = Case {
    readings: &[1000, 1001],
    steps: &[
        APPENDED,
        SEEN_STEP,
        (Ask::Body(1), Said::Bytes(b"hello")),
        (Ask::Sizes(1), Said::Sizes(5, 5)),
        (Ask::Field(1, b"Subject"), Said::Absent),
        (Ask::Facts(1, b"Subject"), Said::Facts(5, None)),
        (Ask::Fetch(1), Said::Fetched(5, b"hello")),
        (Ask::Body(2), Said::Gone),
        (Ask::Sizes(2), Said::Gone),
        (Ask::Field(2, b"Subject"), Said::Gone),
        (Ask::Facts(2, b"Subject"), Said::Gone),
        (Ask::Fetch(2), Said::Absent),
    ],
    // Each of the first five looks reads the message file once.
    calls: 15,
    left: &[
        (Name::Log, 72, Some(SEEN_RECORD)),
        (Name::Mail(1), 0, Some(FIRST_MAIL)),
    ],
    ..NONE
};

#[test]
fn what_was_written_is_read(rt: HostRuntime) -> Result<(), Fail> {
    play(rt.alloc(), &READ_YOUR_WRITE)
}

const NOTHING: Case = Case {
    readings: &[1000, 1001],
    steps: &[
        APPENDED,
        SEEN_STEP,
        (Ask::Expunge, Said::Nothing(1, 92)),
        (Ask::Store(1, 1, How::Add, 0), Said::Nothing(1, 92)),
        (Ask::Store(2, 9, How::Add, SEEN), Said::Nothing(1, 92)),
        (Ask::Remove(2, 9), Said::Nothing(1, 92)),
        (Ask::Noop, Said::Nothing(1, 92)),
    ],
    calls: 10,
    left: &[(Name::Log, 72, Some(SEEN_RECORD))],
    ..NONE
};

#[test]
fn empty_groups_call_no_disk(rt: HostRuntime) -> Result<(), Fail> {
    play(rt.alloc(), &NOTHING)
}

// Draft alone of the five flags, the keyword k1 alone.
const REPLACED: &[u8] = b"\x80\x80\x80\x85\x04\0\0\x10\x01\0\0\0\x01\0\0\0\x10\x0f\0\0\
    \x80\x80\x80\x84\0\x08\0\x10\x01\0\0\0\x01\0\0\0\
    \x80\x80\x80\x86\0\x04\0\x10\0\0\x02\0k1\0\0\x01\0\0\0\x01\0\0\0\0\0\0\0";

const REPLACE: Case = Case {
    steps: &[
        APPENDED,
        SEEN_STEP,
        (
            Ask::StoreKeyword(1, 1, How::Replace, DRAFT, b"k1"),
            Said::Wrote(1, 152, &[1]),
        ),
    ],
    calls: 14,
    left: &[(Name::Log, 92, Some(REPLACED))],
    ..NONE
};

#[test]
fn flags_are_replaced_by_three_records(rt: HostRuntime) -> Result<(), Fail> {
    play(rt.alloc(), &REPLACE)
}

// The message has the modification sequence 4.
const SINCE: Case = Case {
    steps: &[
        APPENDED,
        SEEN_STEP,
        (Ask::StoreSince(1, 1, FLAGGED, 3), Said::Nothing(1, 92)),
        (Ask::StoreSince(1, 1, FLAGGED, 4), Said::Wrote(1, 112, &[1])),
    ],
    calls: 14,
    ..NONE
};

#[test]
fn store_leaves_what_has_changed_since(rt: HostRuntime) -> Result<(), Fail> {
    play(rt.alloc(), &SINCE)
}

// UIDs 5 to 9 leave, each with the GUID of its message.
const NINE_EXPUNGED: &[u8] = b"\x80\x80\x80\x9b\x90\xed\0\x10\
    \x05\0\0\0\0\0\x03\xe8\0\0\x03\xe8\0\0\0\x05\0\0\x03\xe8\
    \x06\0\0\0\0\0\x03\xe8\0\0\x03\xe8\0\0\0\x06\0\0\x03\xe8\
    \x07\0\0\0\0\0\x03\xe8\0\0\x03\xe8\0\0\0\x07\0\0\x03\xe8\
    \x08\0\0\0\0\0\x03\xe8\0\0\x03\xe8\0\0\0\x08\0\0\x03\xe8\
    \x09\0\0\0\0\0\x03\xe8\0\0\x03\xe8\0\0\0\x09\0\0\x03\xe8\
    \0\0\0\0";

const NINE_STEPS: [Step; 11] = [
    (Ask::Append(0, b"a"), Said::Appended(1, 72, 1)),
    (Ask::Append(0, b"b"), Said::Appended(1, 88, 2)),
    (Ask::Append(0, b"c"), Said::Appended(1, 104, 3)),
    (Ask::Append(0, b"d"), Said::Appended(1, 120, 4)),
    (Ask::Append(0, b"e"), Said::Appended(1, 136, 5)),
    (Ask::Append(0, b"f"), Said::Appended(1, 152, 6)),
    (Ask::Append(0, b"g"), Said::Appended(1, 168, 7)),
    (Ask::Append(0, b"h"), Said::Appended(1, 184, 8)),
    (Ask::Append(0, b"i"), Said::Appended(1, 200, 9)),
    (
        Ask::Store(5, 9, How::Add, DELETED),
        Said::Wrote(1, 220, &[5, 6, 7, 8, 9]),
    ),
    (Ask::Expunge, Said::Wrote(1, 328, &[5, 6, 7, 8, 9])),
];

// The files of the messages that left stay until a CHECK.
const NINE: Case = Case {
    steps: &NINE_STEPS,
    // The making, nine messages, a STORE, five files that are read, and the last commit.
    calls: 59,
    left: &[
        (Name::Log, 220, Some(NINE_EXPUNGED)),
        (
            Name::Mail(9),
            0,
            Some(
                b"2 M1e C3e8\n\x01\x02N          0000000000000001\ni\n\x01\x03\n\
                G000003e8000003e800000009000003e8\nR3e8\nZ1\nV1\n\n",
            ),
        ),
    ],
    ..NONE
};

#[test]
fn nine_messages_are_expunged_with_their_guids(rt: HostRuntime) -> Result<(), Fail> {
    play(rt.alloc(), &NINE)
}

// UID 1 leaves, with the GUID of its message, or with zeros where the file has none.
const REMOVED: &[u8] = b"\x80\x80\x80\x87\x90\xed\0\x10\
    \x01\0\0\0\0\0\x03\xe8\0\0\x03\xe8\0\0\0\x01\0\0\x03\xe9\0\0\0\0";

const GUID: [u8; 16] = [0, 0, 3, 232, 0, 0, 3, 232, 0, 0, 0, 1, 0, 0, 3, 233];

const REMOVED_DAMAGED: &[u8] = b"\x80\x80\x80\x87\x90\xed\0\x10\
    \x01\0\0\0\0\0\0\0\0\0\0\0\0\0\0\0\0\0\0\0\0\0\0\0";

const REMOVE: Case = Case {
    readings: &[1000, 1001],
    steps: &[
        APPENDED,
        SEEN_STEP,
        (Ask::Plan(1, 5), Said::Removal(28, 1, GUID)),
        (Ask::Remove(1, 5), Said::Wrote(1, 120, &[1])),
        (Ask::Remove(1, 5), Said::Nothing(1, 120)),
        (Ask::Body(1), Said::Gone),
        (Ask::Sweep(1), Said::Done),
    ],
    // The making, a message, a STORE, a read, a read and a commit, and a removal.
    calls: 17,
    left: &[(Name::Log, 92, Some(REMOVED)), (Name::Mail(1), 0, None)],
    ..NONE
};

#[test]
fn messages_are_removed_by_uid_whatever_their_flags(rt: HostRuntime) -> Result<(), Fail> {
    play(rt.alloc(), &REMOVE)
}

const EMPTIED: &[File] = &[(Name::Mail(1), b"")];

const REMOVE_DAMAGED: Case = Case {
    readings: &[1000, 1001],
    steps: &[APPENDED, SEEN_STEP],
    put: EMPTIED,
    later: &[
        (Ask::Body(1), Said::Damaged),
        (Ask::Sizes(1), Said::Damaged),
        (Ask::Field(1, b"Subject"), Said::Damaged),
        (Ask::Facts(1, b"Subject"), Said::Damaged),
        (Ask::Fetch(1), Said::Absent),
        (Ask::Plan(1, 1), Said::Removal(28, 1, [0; 16])),
        (Ask::Remove(1, 5), Said::Wrote(1, 120, &[1])),
    ],
    // The emptying, an opening by three reads, six looks, a read, and a commit.
    calls: 25,
    left: &[(Name::Log, 92, Some(REMOVED_DAMAGED))],
    ..NONE
};

#[test]
fn emptied_message_file_is_damage_and_has_no_guid(rt: HostRuntime) -> Result<(), Fail> {
    play(rt.alloc(), &REMOVE_DAMAGED)
}

// The last sync of the STORE fails, so its group is taken back before the next write, and no
// sooner.
const UNDO: Case = Case {
    readings: &[1000, 1001],
    fails: &[10],
    steps: &[
        APPENDED,
        (Ask::Store(1, 1, How::Add, SEEN), Said::Disk(1)),
        (Ask::Body(1), Said::Bytes(b"hello")),
        (Ask::Expunge, Said::Nothing(1, 72)),
        SEEN_STEP,
    ],
    calls: 17,
    left: &[(Name::Log, 72, Some(SEEN_RECORD))],
    ..NONE
};

#[test]
fn failed_sync_is_undone_before_the_next_write(rt: HostRuntime) -> Result<(), Fail> {
    play(rt.alloc(), &UNDO)
}

// The next UID is the largest one that is given out.
const LAST_UID: &[File] = &[(
    Name::Log,
    b"\x01\x03\x28\0\xe8\x03\0\0\x01\0\0\0\0\0\0\0\0\0\0\0\
    \xe8\x03\0\0\x01\0\0\0\0\0\0\0\x01\0\0\0\0\0\0\0\
    \x80\x80\x80\x85\x20\0\0\0\x18\0\x08\0\xe8\x03\0\0\xfe\xff\xff\xff\0\0\0\0",
)];

const USED_UP: Case = Case {
    files: LAST_UID,
    steps: &[
        (
            Ask::Append(0, b"last"),
            Said::Appended(1, 76, 4_294_967_294),
        ),
        (Ask::Append(0, b"none"), Said::UidsUsedUp),
    ],
    calls: 8,
    left: &[(Name::Mail(4_294_967_295), 0, None)],
    ..NONE
};

#[test]
fn uids_are_used_up(rt: HostRuntime) -> Result<(), Fail> {
    play(rt.alloc(), &USED_UP)
}
