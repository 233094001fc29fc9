ghost use Rattle.std.specs.Prelude.{◌<◌};

use crate::copies::RECORDS;
use dv_apply::Live;
use dv_model::Row;
use dv_records::decode;
use std::alloc::Global;
use std::slice;
use std::test::*;

// The rows, the UIDNEXT, the highest modification sequence and the keyword names.
type Counts = (u32, u32, u64, u32);

// The counts behind each of the records, and the UIDs that it touches.
const STEPS: [(Counts, &[u32]); 12] = [
    ((0, 1, 2, 0), &[]),
    ((2, 3, 3, 0), &[1, 2]),
    ((2, 3, 4, 0), &[1]),
    ((2, 3, 5, 1), &[1]),
    ((2, 3, 6, 1), &[]),
    ((2, 3, 7, 1), &[]),
    ((2, 3, 8, 1), &[]),
    ((2, 3, 9, 1), &[]),
    ((2, 3, 10, 1), &[]),
    ((1, 3, 11, 1), &[2]),
    ((1, 3, 12, 1), &[]),
    ((1, 3, 13, 1), &[]),
];

fn counts(live: &Live) -> Counts {
    (
        live.count(),
        live.next_uid(),
        live.highest(),
        live.names().count(),
    )
}

fn apply(alloc: Global, live: &mut Live, bytes: &[u8]) -> bool {
    match decode(alloc, bytes, 0) {
        Ok((record, _)) => live.apply(&record).is_ok(),
        Err(_) => false,
    }
}

// Whether a record shows these counts and touches these UIDs, but only once it is completed.
fn completes(alloc: Global, live: &mut Live, bytes: &[u8], step: (Counts, &[u32])) -> bool {
    let Ok((record, _)) = decode(alloc, bytes, 0) else {
        return false;
    };
    let before = counts(live);
    let Ok(prepared) = live.prepare(slice::from_ref(&record)) else {
        return false;
    };
    let between = counts(live);
    let touched = live.complete(prepared);
    between == before && counts(live) == step.0 && touched.uids() == step.1
}

fn is_same_row(one: &Row, other: &Row) -> bool {
    (one.uid, one.flags, one.modseq) == (other.uid, other.flags, other.modseq)
        && one.keywords.as_slice() == other.keywords.as_slice()
        && one.parts.len() == other.parts.len()
}

fn have_same_rows(one: &Live, other: &Live) -> bool {
    if one.count() != other.count() {
        return false;
    }
    for k in 0..one.count() {
        if !is_same_row(one.row(k), other.row(k)) {
            return false;
        }
    }
    true
}

fn is_completed(alloc: Global, live: &mut Live, other: &mut Live, at: usize) -> bool
    requires { at < 12 }
{
    completes(alloc, live, RECORDS[at], STEPS[at])
        && apply(alloc, other, RECORDS[at])
        && have_same_rows(live, other)
}

fn first_in(alloc: Global, live: &mut Live, other: &mut Live) -> Option<usize> {
    for at in 0..RECORDS.len() {
        if !is_completed(alloc, live, other, at) {
            return Some(at);
        }
    }
    None
}

// The place of the first record that is prepared or completed in another way.
fn first_wrong(alloc: Global) -> Option<usize> {
    let mut live = Live::empty(alloc, 1000);
    let mut other = Live::empty(alloc, 1000);
    first_in(alloc, &mut live, &mut other)
}

#[test]
fn prepared_records_are_completed(rt: HostRuntime) {
    assert_eq!(rt; first_wrong(rt.alloc()), None);
}
