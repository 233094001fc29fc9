use dv_apply::{ApplyFault, Live};
use dv_model::{NoMemory, Row};
use dv_records::decode;
use std::alloc::Global;
use std::test::*;

// A record's bytes, the answer, the counts (rows, UIDNEXT, highest modification sequence, Seen,
// Deleted), and each row's UID, flags, places of keywords and modification sequence.
type Step = (
    &'static [u8],
    Result<(), ApplyFault>,
    (u32, u32, u64, u32, u32),
    &'static [Seen],
);

// A row's UID, flags, places of keywords and modification sequence.
type Seen = (u32, u8, &'static [u32], u64);

const STEPS: [Step; 7] = [
    // UID 1, and UID 2 with Seen
    (
        b"\x80\x80\x80\x86\x02\0\0\0\x01\0\0\0\0\0\0\0\x02\0\0\0\x08\0\0\0",
        Ok(()),
        (2, 3, 2, 1, 0),
        &[(1, 0, &[], 2), (2, 8, &[], 2)],
    ),
    // UID 3, and then UID 2 once more
    (
        b"\x80\x80\x80\x86\x02\0\0\0\x03\0\0\0\0\0\0\0\x02\0\0\0\0\0\0\0",
        Err(ApplyFault::BadAppend {
            uid: 2,
            next_uid: 4,
        }),
        (2, 3, 2, 1, 0),
        &[(1, 0, &[], 2), (2, 8, &[], 2)],
    ),
    // UID 1 gets Deleted
    (
        b"\x80\x80\x80\x85\x04\0\0\0\x01\0\0\0\x01\0\0\0\x04\0\0\0",
        Ok(()),
        (2, 3, 3, 1, 1),
        &[(1, 4, &[], 3), (2, 8, &[], 2)],
    ),
    // UID 2 gets `old`
    (
        b"\x80\x80\x80\x86\0\x04\0\0\0\0\x03\0old\0\x02\0\0\0\x02\0\0\0",
        Ok(()),
        (2, 3, 4, 1, 1),
        &[(1, 4, &[], 3), (2, 8, &[0], 4)],
    ),
    // each UID has `new` alone
    (
        b"\x80\x80\x80\x86\0\x04\0\0\x02\0\x03\0new\0\x01\0\0\0\xff\xff\xff\xff",
        Ok(()),
        (2, 3, 5, 1, 1),
        &[(1, 4, &[1], 5), (2, 8, &[1], 5)],
    ),
    // UIDNEXT 9
    (
        b"\x80\x80\x80\x84\x20\0\0\0\x1c\0\x04\0\x09\0\0\0",
        Ok(()),
        (2, 9, 6, 1, 1),
        &[(1, 4, &[1], 5), (2, 8, &[1], 5)],
    ),
    // UID 1 is expunged
    (
        b"\x80\x80\x80\x84\x91\xcd\0\x10\x01\0\0\0\x01\0\0\0",
        Ok(()),
        (1, 9, 7, 1, 0),
        &[(2, 8, &[1], 5)],
    ),
];

fn apply(alloc: Global, live: &mut Live, bytes: &[u8]) -> Result<(), ApplyFault> {
    match decode(alloc, bytes, 0) {
        Ok((record, _)) => live.apply(&record),
        Err(_) => Err(ApplyFault::NoMemory),
    }
}

fn counts(live: &Live) -> (u32, u32, u64, u32, u32) {
    (
        live.count(),
        live.next_uid(),
        live.highest(),
        live.seen(),
        live.deleted(),
    )
}

fn is_seen(row: &Row, e: &Seen) -> bool {
    (row.uid, row.flags, row.modseq) == (e.0, e.1, e.3) && row.keywords.as_slice() == e.2
}

// Whether the row at this place is as expected, and found there.
fn has_row(live: &Live, k: u32, e: &Seen) -> bool {
    k < live.count() && is_seen(live.row(k), e) && live.position(e.0) == Some(k)
}

fn has_rows(live: &Live, rows: &[Seen]) -> bool {
    let mut k = 0;
    for row in rows {
        if !has_row(live, k, row) {
            return false;
        }
        k = k.saturating_add(1);
    }
    k == live.count()
}

fn is_right(alloc: Global, live: &mut Live, step: &Step) -> bool {
    let (bytes, answer, expected, rows) = *step;
    apply(alloc, live, bytes) == answer && counts(live) == expected && has_rows(live, rows)
}

// The place of the first step that is answered, or leaves the mailbox, in another way.
fn first_wrong(alloc: Global, live: &mut Live) -> Option<usize> {
    for (at, step) in STEPS.iter().enumerate() {
        if !is_right(alloc, live, step) {
            return Some(at);
        }
    }
    None
}

// The same, and the number of names and the UIDVALIDITY afterwards.
fn stepped(alloc: Global) -> (Option<usize>, u32, u32) {
    let mut live = Live::empty(alloc, 1000);
    let first = first_wrong(alloc, &mut live);
    (first, live.names().count(), live.uid_validity())
}

#[test]
fn records_are_applied_in_turn(rt: HostRuntime) {
    assert_eq!(rt; stepped(rt.alloc()), (None, 2, 1000));
}

// UID 1, and UID 2 with Seen.
const TWO: &[u8] = b"\x80\x80\x80\x86\x02\0\0\0\x01\0\0\0\0\0\0\0\x02\0\0\0\x08\0\0\0";

// UID 2 gets `old`.
const OLD: &[u8] = b"\x80\x80\x80\x86\0\x04\0\0\0\0\x03\0old\0\x02\0\0\0\x02\0\0\0";

// An extension `abc` with a header of four bytes and two bytes of each row.
const INTRO: &[u8] =
    b"\x80\x80\x80\x88\x40\0\0\0\xff\xff\xff\xff\x05\0\0\0\x04\0\0\0\x02\0\x01\0\0\0\x03\0abc\0";

// The bytes 7 and 8 of UID 1.
const UPDATE: &[u8] = b"\x80\x80\x80\x84\0\x02\0\0\x01\0\0\0\x07\x08\0\0";

// The extension 0 with four bytes of each row.
const WIDER: &[u8] = b"\x80\x80\x80\x87\x40\0\0\0\0\0\0\0\x05\0\0\0\x04\0\0\0\x04\0\x01\0\0\0\0\0";

// The reset number 6, and zero bytes.
const RESET: &[u8] = b"\x80\x80\x80\x84\x80\0\0\0\x06\0\0\0\0\0\0\0";

// No UID has keywords.
const NO_KEYWORDS: &[u8] = b"\x80\x80\x80\x84\0\x08\0\0\x01\0\0\0\xff\xff\xff\xff";

// UID 1 is expunged, by its GUID too.
const NAMED: &[u8] = b"\x80\x80\x80\x87\x90\xed\0\x10\x01\0\0\0\0\0\0\0\0\0\0\0\0\0\0\0\0\0\0\0";

// Whether the first row has these bytes of the first extension.
fn has_part(live: &Live, bytes: &[u8]) -> bool {
    if live.count() == 0 {
        return false;
    }
    match live.row(0).parts.as_slice().get(0) {
        Some(part) => part.as_slice() == bytes,
        None => bytes.is_empty(),
    }
}

// A record, the first extension's bytes of the first row behind it, and the rows.
type Further = (&'static [u8], &'static [u8], &'static [Seen]);

const FURTHER: [Further; 8] = [
    (TWO, b"", &[(1, 0, &[], 2), (2, 8, &[], 2)]),
    (OLD, b"", &[(1, 0, &[], 2), (2, 8, &[0], 3)]),
    (INTRO, b"\0\0", &[(1, 0, &[], 2), (2, 8, &[0], 3)]),
    (UPDATE, b"\x07\x08", &[(1, 0, &[], 2), (2, 8, &[0], 3)]),
    (WIDER, b"\x07\x08\0\0", &[(1, 0, &[], 2), (2, 8, &[0], 3)]),
    (RESET, b"\0\0\0\0", &[(1, 0, &[], 2), (2, 8, &[0], 3)]),
    (NO_KEYWORDS, b"\0\0\0\0", &[(1, 0, &[], 2), (2, 8, &[], 8)]),
    (NAMED, b"\0\0\0\0", &[(2, 8, &[], 8)]),
];

fn is_further(alloc: Global, live: &mut Live, further: &Further) -> bool {
    let (bytes, part, rows) = *further;
    apply(alloc, live, bytes) == Ok(()) && has_part(live, part) && has_rows(live, rows)
}

fn first_other(alloc: Global, live: &mut Live) -> Option<usize> {
    for (at, further) in FURTHER.iter().enumerate() {
        if !is_further(alloc, live, further) {
            return Some(at);
        }
    }
    None
}

// The place of the first record that leaves another mailbox.
fn further_records(alloc: Global) -> Option<usize> {
    let mut live = Live::empty(alloc, 1000);
    first_other(alloc, &mut live)
}

#[test]
fn records_of_extensions_and_removals_are_applied(rt: HostRuntime) {
    assert_eq!(rt; further_records(rt.alloc()), None);
}

const FIRST: [Seen; 2] = [(1, 0, &[], 2), (2, 8, &[], 2)];

const CHANGED: [Seen; 2] = [(1, 0, &[], 2), (2, 8, &[0], 3)];

fn other_of(alloc: Global, live: &Live) -> Result<Live, NoMemory> {
    let mailbox = live.mailbox(alloc)?;
    Live::of(alloc, mailbox)
}

// Whether the other mailbox changes by a record.
fn changes(alloc: Global, live: &mut Live) -> bool {
    apply(alloc, live, OLD) == Ok(()) && has_rows(live, &CHANGED)
}

// Whether a mailbox with room for three rows takes two, both its copies change, and it stays.
fn copied(alloc: Global) -> Result<[bool; 4], NoMemory> {
    let mut live = Live::empty(alloc, 1000);
    let is_made = live.reserve(3).is_ok() && apply(alloc, &mut live, TWO) == Ok(());
    let mut other = other_of(alloc, &live)?;
    let mut copy = live.copy(alloc)?;
    Ok([
        is_made,
        changes(alloc, &mut other),
        changes(alloc, &mut copy),
        has_rows(&live, &FIRST),
    ])
}

#[test]
fn copies_change_by_themselves(rt: HostRuntime) {
    assert_eq!(rt; copied(rt.alloc()), Ok([true; 4]));
}
