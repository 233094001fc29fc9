use dv_model::{Change, List, NoMemory, Pair};
use dv_portion::{change_flags, expunge, name_changed, name_pairs};
use dv_rows::Rows;
use std::alloc::Global;
use std::test::*;

fn pair(first: u32, last: u32) -> Pair {
    Pair { first, last }
}

fn change(first: u32, last: u32, add: u8, remove: u8) -> Change {
    Change {
        first,
        last,
        add,
        remove,
    }
}

// Rows with the UIDs 1, 2 and 3, without flags, and with the modification sequence 3.
fn three(alloc: Global) -> Result<Rows, NoMemory> {
    let mut rows = Rows::empty(alloc);
    for uid in [1, 2, 3] {
        if rows.is_above(uid) {
            rows.append(uid, 0, List::new(alloc), 3)?;
        }
    }
    Ok(rows)
}

// Each row's UID, flags and modification sequence.
fn are(rows: &Rows, expected: &[(u32, u8, u64)]) -> bool {
    let rows = rows.as_slice();
    rows.len() == expected.len()
        && rows
            .iter()
            .zip(expected)
            .all(|(row, e)| (row.uid, row.flags, row.modseq) == *e)
}

// Whether flags change as they should, and then rows leave.
fn changed(alloc: Global) -> Result<(bool, bool), NoMemory> {
    let mut rows = three(alloc)?;
    let changes = [
        change(1, u32::MAX, 8, 0),
        change(2, 2, 4, 8),
        change(3, 1, 1, 0),
    ];
    change_flags(alloc, &mut rows, &changes, 7);
    let is_changed = are(&rows, &[(1, 8, 7), (2, 4, 7), (3, 8, 7)]);
    expunge(alloc, &mut rows, &[pair(2, 3), pair(3, 9)]);
    Ok((is_changed, are(&rows, &[(1, 8, 7)])))
}

#[test]
fn rows_in_several_ranges_change_as_these_say_in_turn(rt: HostRuntime) {
    assert_eq!(rt; changed(rt.alloc()), Ok((true, true)));
}

fn name_all(alloc: Global, rows: &Rows, uids: &mut Vec<u32>) -> Result<(), NoMemory> {
    name_pairs(alloc, rows, &[pair(2, 9), pair(1, 2)], uids)?;
    let changes = [change(3, 3, 8, 0), change(2, 3, 0, 1)];
    name_changed(alloc, rows, &changes, uids)
}

// Whether the UIDs of the rows in pairs are named, and behind them those in changes.
fn are_named(alloc: Global) -> Result<bool, NoMemory> {
    let rows = three(alloc)?;
    let mut uids = Vec::new(alloc);
    name_all(alloc, &rows, &mut uids)?;
    Ok(uids.as_slice() == [1, 2, 3, 2, 3].as_slice())
}

#[test]
fn rows_in_several_ranges_are_named_once(rt: HostRuntime) {
    assert_eq!(rt; are_named(rt.alloc()), Ok(true));
}
