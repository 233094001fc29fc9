ghost use Rattle.std.specs.List.Sorted.{IsStrictlyIncreasing};

use dv_model::{Bytes, Change, How, List, NoMemory, Pair};
use dv_rows::{Rows, sort_uids};
use dv_touched::Touched;
use std::alloc::Global;
use std::test::*;

// Adds a row whose modification sequence is 3. A UID that isn't above those of the other rows is
// refused like want of memory, which no test expects.
fn add(alloc: Global, rows: &mut Rows, uid: u32, flags: u8) -> Result<(), NoMemory> {
    let parts: List<Bytes> = List::new(alloc);
    if uid > 99 || !rows.is_above(uid) {
        return Err(NoMemory);
    }
    rows.append(uid, flags, parts, 3)
}

// Rows with the UIDs 2, 5, 9 and 12.
fn four(alloc: Global) -> Result<Rows, NoMemory> {
    let mut rows = Rows::empty(alloc);
    add(alloc, &mut rows, 2, 0x00)?;
    add(alloc, &mut rows, 5, 0x08)?;
    add(alloc, &mut rows, 9, 0x08)?;
    add(alloc, &mut rows, 12, 0x04)?;
    Ok(rows)
}

// Of 2 only a flag changes that isn't shown; 5 gets a keyword, 9 leaves and 14 is new.
fn change_all(alloc: Global, rows: &mut Rows) -> Result<(), NoMemory> {
    let high = Change {
        first: 2,
        last: 2,
        add: 0x20,
        remove: 0x00,
    };
    rows.change_flags(&[high], 7);
    rows.change_keywords(&[Pair { first: 5, last: 5 }], How::Add, 0, 7)?;
    rows.expunge(&[Pair { first: 9, last: 9 }]);
    add(alloc, rows, 14, 0x00)
}

fn changed(alloc: Global) -> Result<Rows, NoMemory> {
    let mut rows = four(alloc)?;
    change_all(alloc, &mut rows)?;
    Ok(rows)
}

// Whether these are the UIDs that are touched by changes, by the loss of all rows, and by both.
fn are_touched(alloc: Global, uids: &[u32], old: &Rows, new: &Rows) -> Result<[bool; 3], NoMemory>
    requires { IsStrictlyIncreasing uids.now }
{
    let touched = Touched::between(alloc, uids, old, new)?;
    let gone = Touched::between(alloc, uids, new, &Rows::empty(alloc))?;
    let all = touched.with(alloc, &gone)?;
    Ok([
        touched.uids() == [5, 9, 14].as_slice(),
        gone.uids() == [2, 5, 12, 14].as_slice(),
        all.uids() == [2, 5, 9, 12, 14].as_slice(),
    ])
}

fn touched(alloc: Global) -> Result<[bool; 3], NoMemory> {
    let old = four(alloc)?;
    let new = changed(alloc)?;
    let mut uids = vec![in alloc; 14, 2, 12, 9, 5, 1]?;
    sort_uids(&mut uids);
    are_touched(alloc, &uids, &old, &new)
}

#[test]
fn rows_shown_in_another_way_are_told(rt: HostRuntime) {
    assert_eq!(rt; touched(rt.alloc()), Ok([true; 3]));
}
