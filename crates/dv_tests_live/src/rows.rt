use crate::follower::Watcher;
use dv_model::NoMemory;
use std::alloc::Global;
use std::test::Fail;

const APPEND_1: &[u8] = b"\x80\x80\x80\x84\x02\0\0\x10\x01\0\0\0\0\0\0\0";

const SEE_1: &[u8] = b"\x80\x80\x80\x85\x04\0\0\x10\x01\0\0\0\x01\0\0\0\x08\0\0\0";

// Nine messages without flags.
const APPEND_NINE: &[u8] = b"\x80\x80\x80\x94\x02\0\0\x10\
    \x01\0\0\0\0\0\0\0\x02\0\0\0\0\0\0\0\x03\0\0\0\0\0\0\0\x04\0\0\0\0\0\0\0\x05\0\0\0\0\0\0\0\
    \x06\0\0\0\0\0\0\0\x07\0\0\0\0\0\0\0\x08\0\0\0\0\0\0\0\x09\0\0\0\0\0\0\0";

const DELETE_5_TO_9: &[u8] = b"\x80\x80\x80\x85\x04\0\0\x10\x05\0\0\0\x09\0\0\0\x04\0\0\0";

const EXPUNGE_5_TO_9: &[u8] = b"\x80\x80\x80\x84\x91\xcd\0\x10\x05\0\0\0\x09\0\0\0";

const ADD_K1_TO_2: &[u8] = b"\x80\x80\x80\x86\0\x04\0\x10\0\0\x02\0k1\0\0\x02\0\0\0\x02\0\0\0";

const ADD_K2_TO_2_AND_3: &[u8] =
    b"\x80\x80\x80\x86\0\x04\0\x10\0\0\x02\0k2\0\0\x02\0\0\0\x03\0\0\0";

const REMOVE_K2_FROM_3: &[u8] =
    b"\x80\x80\x80\x86\0\x04\0\x10\x01\0\x02\0k2\0\0\x03\0\0\0\x03\0\0\0";

// A record, and the UIDs that are found behind it.
struct Turn {
    record: &'static [u8],
    uids: &'static [u32],
}

// A key, and what becomes of a mailbox of which it is kept.
struct Kept {
    name: &'static str,
    key: &'static [u8],
    turns: &'static [Turn],
}

const KEPT: [Kept; 3] = [
    Kept {
        name: "a message is found once it is seen",
        key: b"SEEN",
        turns: &[
            Turn {
                record: APPEND_1,
                uids: &[],
            },
            Turn {
                record: SEE_1,
                uids: &[1],
            },
        ],
    },
    // Those that are to go leave the result when they are marked, and their expunge changes
    // nothing.
    Kept {
        name: "deleted messages leave the result once",
        key: b"NOT DELETED",
        turns: &[
            Turn {
                record: APPEND_NINE,
                uids: &[1, 2, 3, 4, 5, 6, 7, 8, 9],
            },
            Turn {
                record: DELETE_5_TO_9,
                uids: &[1, 2, 3, 4],
            },
            Turn {
                record: EXPUNGE_5_TO_9,
                uids: &[1, 2, 3, 4],
            },
        ],
    },
    // It gets its place in the table only now.
    Kept {
        name: "a keyword that is new is found",
        key: b"KEYWORD k2",
        turns: &[
            Turn {
                record: APPEND_NINE,
                uids: &[],
            },
            Turn {
                record: ADD_K1_TO_2,
                uids: &[],
            },
            Turn {
                record: ADD_K2_TO_2_AND_3,
                uids: &[2, 3],
            },
            Turn {
                record: REMOVE_K2_FROM_3,
                uids: &[2],
            },
        ],
    },
];

// Whether these UIDs are kept behind each turn, and a search anew finds them.
fn is_kept(alloc: Global, kept: &Kept) -> Result<bool, NoMemory> {
    let mut watcher = Watcher::new(alloc, kept.key)?;
    for turn in kept.turns {
        if !watcher.follows(alloc, kept.key, turn.record)? || watcher.uids() != turn.uids {
            return Ok(false);
        }
    }
    Ok(true)
}

// Fails by the name of the first that isn't as it says.
fn are_kept(alloc: Global, all: &[Kept]) -> Result<(), Fail> {
    for kept in all {
        if is_kept(alloc, kept) != Ok(true) {
            return Err(Fail::from(kept.name));
        }
    }
    Ok(())
}

#[test]
fn searches_follow_their_mailbox(rt: HostRuntime) -> Result<(), Fail> {
    are_kept(rt.alloc(), &KEPT)
}
