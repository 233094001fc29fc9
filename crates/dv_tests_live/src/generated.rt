ghost use Rattle.std.specs.Prelude.{◌<◌, OnOk};
ghost use Rattle.dv_live.specs.Laws.{IsOf};

use crate::follower::Watcher;
use dv_model::{Bytes, NoMemory};
use std::alloc::Global;
use std::test::Fail;

// Keys of every kind.
const KEYS: [&[u8]; 16] = [
    b"ALL",
    b"SEEN",
    b"UNSEEN",
    b"DELETED",
    b"UNFLAGGED",
    b"KEYWORD k0",
    b"KEYWORD k3",
    b"NOT KEYWORD k1",
    b"UID 3:7",
    b"UID 12,1:2,9",
    b"OR SEEN KEYWORD k2",
    b"(UNSEEN UNDELETED)",
    b"NOT (ANSWERED DRAFT)",
    b"OR (FLAGGED KEYWORD k1) UID 5:40",
    b"((NOT SEEN KEYWORD k3))",
    b"OR OR ANSWERED FLAGGED NOT OR DELETED KEYWORD k0",
];

// The records of one generated log.
const RECORDS: u32 = 24;

// How many logs are generated.
const LOGS: usize = 96;

// Draws of a generator of numbers, one after another, and the next UID of the mailbox.
#[derive(Drop)]
struct Draws {
    state: u64,
    next_uid: u32,
}

impl Draws {
    fn next(&mut self) -> u32 {
        self.state = self
            .state
            .wrapping_mul(6364136223846793005)
            .wrapping_add(1442695040888963407);
        (self.state / 2u64.pow(33)) as u32
    }

    fn below(&mut self, limit: u32) -> u32
        requires { 0 < limit }
        ensures { result < limit }
    {
        self.next() % limit
    }

    // The first UID of a range, which ends up to nine UIDs behind it, and the last one.
    fn range(&mut self) -> (u32, u32) {
        let first = self.below(self.next_uid.max(1)).saturating_add(1);
        (first, first.saturating_add(self.below(10)))
    }
}

// A record of this type with so many groups of four bytes, its header's two among them.
fn record_of(alloc: Global, size: u8, kind: u32, words: &[u32]) -> Result<Bytes, NoMemory> {
    let mut bytes = Bytes::from_slice(alloc, &[0x80, 0x80, 0x80, 0x80 | size])?;
    bytes.extend(&kind.to_le_bytes())?;
    for word in words {
        bytes.extend(&word.to_le_bytes())?;
    }
    Ok(bytes)
}

// An append, a change of flags or of a keyword, or an expunge or a loss of all keywords.
fn next_record(alloc: Global, draws: &mut Draws) -> Result<Bytes, NoMemory> {
    match draws.below(8) {
        0 | 1 | 2 => {
            let uid = draws.next_uid;
            draws.next_uid = uid.saturating_add(1);
            record_of(alloc, 4, 0x1000_0002, &[uid, draws.below(32)])
        }
        3 | 4 => {
            let (first, last) = draws.range();
            let flags = draws.below(32) + 0x100 * draws.below(32);
            record_of(alloc, 5, 0x1000_0004, &[first, last, flags])
        }
        5 | 6 => {
            // One of the names k0 to k3.
            let name = 0x306b + 0x100 * draws.below(4);
            let how = 0x2_0000 + draws.below(3);
            let (first, last) = draws.range();
            record_of(alloc, 6, 0x1000_0400, &[how, name, first, last])
        }
        _ => {
            let kind = if draws.below(2) == 0 {
                0x1000_cd91
            } else {
                0x1000_0800
            };
            let (first, last) = draws.range();
            record_of(alloc, 4, kind, &[first, last])
        }
    }
}

// Whether a search anew finds what is kept behind the next record.
fn follows_next(
    alloc: Global,
    watcher: &mut Watcher,
    key: &[u8],
    draws: &mut Draws,
) -> Result<bool, NoMemory>
    requires { IsOf watcher.old.saved watcher.old.live.mailbox }
    ensures { OnOk result (IsOf watcher.new.saved watcher.new.live.mailbox) }
{
    let bytes = next_record(alloc, draws)?;
    watcher.follows(alloc, key, bytes.as_slice())
}

// Whether it does behind each record of a generated log.
fn follows_log(alloc: Global, seed: u64, key: &[u8]) -> Result<bool, NoMemory> {
    let mut watcher = Watcher::new(alloc, key)?;
    let mut draws = Draws {
        state: seed,
        next_uid: 1,
    };
    for _ in 0..RECORDS {
        if !follows_next(alloc, &mut watcher, key, &mut draws)? {
            return Ok(false);
        }
    }
    Ok(true)
}

// Fails by the seed of the first log for which it isn't so.
fn are_followed(alloc: Global) -> Result<(), Fail> {
    for seed in 0..LOGS {
        if follows_log(alloc, seed as u64, KEYS[seed % 16]) != Ok(true) {
            return Err(Fail::from(seed));
        }
    }
    Ok(())
}

#[test]
fn generated_logs_are_followed(rt: HostRuntime) -> Result<(), Fail> {
    are_followed(rt.alloc())
}
