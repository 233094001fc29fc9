//! Records of each kind, and what a mailbox is behind each.

use dv_apply::Live;
use dv_records::decode;
use std::alloc::Global;
use std::slice;

// The rows, the UIDNEXT, the highest modification sequence and the keyword names.
type Counts = (u32, u32, u64, u32);

// A record, the counts behind it, and the UIDs that it touches.
type Step = (&'static [u8], Counts, &'static [u32]);

const STEPS: [Step; 12] = [
    // UIDVALIDITY 1000
    (
        b"\x80\x80\x80\x84\x20\0\0\0\x18\0\x04\0\xe8\x03\0\0",
        (0, 1, 2, 0),
        &[],
    ),
    // UID 1, UID 2 with Seen, and UID 3
    (
        b"\x80\x80\x80\x88\x02\0\0\x10\x01\0\0\0\0\0\0\0\x02\0\0\0\x08\0\0\0\x03\0\0\0\0\0\0\0",
        (3, 4, 3, 0),
        &[1, 2, 3],
    ),
    // UIDs 1 to 3 get Seen, and UID 2 then Deleted in its place
    (
        b"\x80\x80\x80\x88\x04\0\0\x10\x01\0\0\0\x03\0\0\0\x08\0\0\0\x02\0\0\0\x02\0\0\0\x04\x08\0\0",
        (3, 4, 4, 0),
        &[1, 2, 3],
    ),
    // UIDs 2 to 3 and 1 to 2 get the keyword k1
    (
        b"\x80\x80\x80\x88\0\x04\0\x10\0\0\x02\0k1\0\0\x02\0\0\0\x03\0\0\0\x01\0\0\0\x02\0\0\0",
        (3, 4, 5, 1),
        &[1, 2, 3],
    ),
    // UID 2 loses its keywords
    (
        b"\x80\x80\x80\x84\0\x08\0\x10\x02\0\0\0\x02\0\0\0",
        (3, 4, 6, 1),
        &[2],
    ),
    // the extension cache, four bytes of each row
    (
        b"\x80\x80\x80\x89\x40\0\0\0\xff\xff\xff\xff\0\0\0\0\0\0\0\0\x04\0\x04\0\0\0\x05\0cache\0\0\0",
        (3, 4, 7, 1),
        &[],
    ),
    // its number is 1
    (
        b"\x80\x80\x80\x84\x80\0\0\0\x01\0\0\0\0\0\0\0",
        (3, 4, 8, 1),
        &[],
    ),
    // four bytes of UID 1
    (
        b"\x80\x80\x80\x84\0\x02\0\0\x01\0\0\0\x20\0\0\0",
        (3, 4, 9, 1),
        &[],
    ),
    // two bytes at the front of its header, which has none
    (
        b"\x80\x80\x80\x84\0\x01\0\0\0\0\x02\0\x07\x08\0\0",
        (3, 4, 10, 1),
        &[],
    ),
    // UIDs 2 and 2 to 3 leave
    (
        b"\x80\x80\x80\x86\x91\xcd\0\x10\x02\0\0\0\x02\0\0\0\x02\0\0\0\x03\0\0\0",
        (1, 4, 11, 1),
        &[2, 3],
    ),
    // UID 3, which isn't there, leaves with its GUID
    (
        b"\x80\x80\x80\x87\x90\xed\0\x10\x03\0\0\0\x01\x02\x03\x04\x05\x06\x07\x08\x09\x0a\x0b\x0c\x0d\x0e\x0f\x10",
        (1, 4, 12, 1),
        &[],
    ),
    // a boundary, which is carried
    (b"\x80\x80\x80\x83\0\0\x08\0\x1c\0\0\0", (1, 4, 13, 1), &[]),
];

fn counts(live: &Live) -> Counts {
    (
        live.count(),
        live.next_uid(),
        live.highest(),
        live.names().count(),
    )
}

// The UID, the flags, the modification sequence, the number of keywords and that of the parts of
// the row at a place, or zeros where there is none.
fn shown_at(live: &Live, at: u32) -> (u32, u8, u64, usize, usize) {
    if at >= live.count() {
        return (0, 0, 0, 0, 0);
    }
    let row = live.row(at);
    (
        row.uid,
        row.flags,
        row.modseq,
        row.keywords.len(),
        row.parts.len(),
    )
}

// What is seen of a mailbox of three rows at most.
fn shown(live: &Live) -> (Counts, [(u32, u8, u64, usize, usize); 3]) {
    let rows = [shown_at(live, 0), shown_at(live, 1), shown_at(live, 2)];
    (counts(live), rows)
}

/// Whether records of each kind are as they have to be: how many tries met a refusal.
#[derive(Clone, Copy, PartialEq, Eq, Debug)]
pub enum Outcome {
    /// So many tries met one, and left the mailbox as it was.
    Right(u32),
    /// A mailbox isn't as it has to be.
    Wrong,
}

// A record is made ready and shown.
fn show(alloc: Global, live: &mut Live, step: Step) -> Option<bool> {
    let (bytes, expected, uids) = step;
    let Ok((record, _)) = decode(alloc, bytes, 0) else {
        return None;
    };
    let Ok(prepared) = live.prepare(slice::from_ref(&record)) else {
        return None;
    };
    let touched = live.complete(prepared);
    Some(counts(live) == expected && touched.uids() == uids)
}

// A record is applied.
fn apply(alloc: Global, live: &mut Live, step: Step) -> Option<bool> {
    let (bytes, expected, _) = step;
    let Ok((record, _)) = decode(alloc, bytes, 0) else {
        return None;
    };
    match live.apply(&record) {
        Ok(()) => Some(counts(live) == expected),
        Err(_) => None,
    }
}

// One record by a first try, and a second one where memory was refused, which is to leave the
// mailbox as before.
fn tried(alloc: Global, live: &mut Live, step: Step, shows: bool) -> Outcome {
    for refused in 0..2 {
        let before = shown(live);
        let done = if shows {
            show(alloc, live, step)
        } else {
            apply(alloc, live, step)
        };
        match done {
            Some(true) => return Outcome::Right(refused),
            Some(false) => return Outcome::Wrong,
            None => {
                if shown(live) != before {
                    return Outcome::Wrong;
                }
            }
        }
    }
    Outcome::Wrong
}

// The row that is left has Seen, the keyword k1 and the modification sequence of that record.
fn is_left(live: &Live) -> bool {
    if live.count() != 1 {
        return false;
    }
    let row = live.row(0);
    row.keywords.as_slice() == [0].as_slice() && (row.uid, row.flags, row.modseq) == (1, 8, 5)
}

/// Records of each kind are shown, or else applied, one after another.
pub fn try_records(alloc: Global, shows: bool) -> Outcome {
    let mut live = Live::empty(alloc, 1000);
    let mut refusals: u32 = 0;
    for step in STEPS {
        match tried(alloc, &mut live, step, shows) {
            Outcome::Right(refused) => refusals = refusals.saturating_add(refused),
            Outcome::Wrong => return Outcome::Wrong,
        }
    }
    if is_left(&live) {
        Outcome::Right(refusals)
    } else {
        Outcome::Wrong
    }
}
