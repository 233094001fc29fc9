ghost use Rattle.std.specs.Prelude.{◌≡◌, ◌<◌, ◌≤◌, All, IfOk, IfSome, IsTrue, count_by, length, nat_le, slice_get, true};
ghost use Rattle.std.specs.List.Sorted.{IsStrictlyIncreasing};
ghost use Rattle.dv_rows.specs.Parted.{HasUid, is_parted};

use dv_model::{Bytes, Change, Extension, GuidRow, How, List, NoMemory, Pair, Row};
use dv_rows::{Range, Rows, sort_uids};
use std::alloc::Global;
use std::test::*;

// The largest UID that a message can have.
const LAST: u32 = 4_294_967_294;

fn pair(first: u32, last: u32) -> Pair {
    Pair { first, last }
}

fn change(first: u32, last: u32, add: u8, remove: u8) -> Change {
    Change {
        first,
        last,
        add,
        remove,
    }
}

fn named(uid: u32) -> GuidRow {
    GuidRow { uid, guid: [0; 16] }
}

// Adds a row whose modification sequence is 3, with one part of two bytes. A UID that isn't above
// those of the other rows is refused like want of memory, which no test expects.
fn add(alloc: Global, rows: &mut Rows, uid: u32, flags: u8) -> Result<(), NoMemory> {
    let mut parts = List::new(alloc);
    parts.push(Bytes::from_slice(alloc, &[7, 7])?)?;
    if uid > LAST || !rows.is_above(uid) {
        return Err(NoMemory);
    }
    rows.append(uid, flags, parts, 3)
}

// Rows with the UIDs 1, 2, 5, 9 and the largest one; 1 and 5 are seen, 5 and 9 deleted.
fn five(alloc: Global) -> Result<Rows, NoMemory> {
    let mut rows = Rows::empty(alloc);
    add(alloc, &mut rows, 1, 0x08)?;
    add(alloc, &mut rows, 2, 0x00)?;
    add(alloc, &mut rows, 5, 0x0c)?;
    add(alloc, &mut rows, 9, 0x24)?;
    add(alloc, &mut rows, LAST, 0x81)?;
    Ok(rows)
}

// A row's UID, flags, first keyword plus 1 (0 for none) and modification sequence.
type Seen = (u32, u8, u32, u64);

fn seen_as(row: &Row) -> Seen {
    let first = match row.keywords.as_slice().get(0) {
        Some(place) => place.saturating_add(1),
        None => 0,
    };
    (row.uid, row.flags, first, row.modseq)
}

fn are(rows: &Rows, expected: &[Seen]) -> bool {
    let rows = rows.as_slice();
    rows.len() == expected.len() && rows.iter().zip(expected).all(|(row, e)| seen_as(row) == *e)
}

// How many rows there are, how many are seen, and how many deleted.
fn counts(rows: &Rows) -> (u32, u32, u32) {
    (rows.count(), rows.seen(), rows.deleted())
}

// The counts of five rows, taken apart and put together, and the place of the fourth.
fn counted(alloc: Global) -> Result<((u32, u32, u32), Option<u32>), NoMemory> {
    let made = five(alloc)?;
    let rows = Rows::of(alloc, made.into_list())?;
    Ok((counts(&rows), rows.position(9)))
}

#[test]
fn rows_are_counted_and_found(rt: HostRuntime) {
    assert_eq!(rt; counted(rt.alloc()), Ok(((5, 2, 2), Some(3))));
}

fn append_two(alloc: Global, rows: &mut Rows) -> Result<(), NoMemory> {
    rows.expunge(&[pair(LAST, LAST)]);
    rows.reserve(2)?;
    add(alloc, rows, 10, 0x0c)?;
    add(alloc, rows, 12, 0x00)
}

// The counts behind two rows more, and the place of the last.
fn two_more(alloc: Global) -> Result<((u32, u32, u32), Option<u32>), NoMemory> {
    let mut rows = five(alloc)?;
    append_two(alloc, &mut rows)?;
    Ok((counts(&rows), rows.position(12)))
}

#[test]
fn reserved_rows_are_appended(rt: HostRuntime) {
    assert_eq!(rt; two_more(rt.alloc()), Ok(((6, 3, 3), Some(5))));
}

// Whether named rows leave, and how many are there when others were named.
fn named_leave(alloc: Global) -> Result<(bool, u32), NoMemory> {
    let mut rows = five(alloc)?;
    rows.expunge_named(&[named(2), named(3), named(LAST)]);
    let are_left = are(&rows, &[(1, 0x08, 0, 3), (5, 0x0c, 0, 3), (9, 0x24, 0, 3)]);
    rows.expunge_named(&[named(9), named(1)]);
    Ok((are_left, rows.count()))
}

#[test]
fn named_rows_leave(rt: HostRuntime) {
    assert_eq!(rt; named_leave(rt.alloc()), Ok((true, 1)));
}

fn change_keywords(rows: &mut Rows) -> Result<(), NoMemory> {
    rows.change_keywords(&[pair(1, 2), pair(5, 5)], How::Add, 4, 5)?;
    rows.change_keywords(&[pair(2, 4)], How::Add, 1, 6)?;
    rows.change_keywords(&[pair(9, 9)], How::Replace, 0, 7)?;
    rows.change_keywords(&[pair(5, 9)], How::Remove, 4, 8)?;
    rows.clear_keywords(&[pair(1, 1)], 9);
    Ok(())
}

const KEYWORDS: [Seen; 5] = [
    (1, 0x08, 0, 9),
    (2, 0x00, 2, 6),
    (5, 0x0c, 0, 8),
    (9, 0x24, 1, 7),
    (LAST, 0x81, 0, 3),
];

// Whether the second row has these keywords.
fn has_keywords(rows: &Rows, places: &[u32]) -> bool {
    rows.count() > 1 && rows.row(1).keywords.as_slice() == places
}

fn keywords_changed(alloc: Global) -> Result<bool, NoMemory> {
    let mut rows = five(alloc)?;
    change_keywords(&mut rows)?;
    Ok(are(&rows, &KEYWORDS) && has_keywords(&rows, &[1, 4]))
}

#[test]
fn keywords_change_in_ranges(rt: HostRuntime) {
    assert_eq!(rt; keywords_changed(rt.alloc()), Ok(true));
}

// An extension with so many bytes of each row.
fn extension(alloc: Global, record_size: u16) -> Result<Extension, NoMemory> {
    Ok(Extension {
        name: List::from_slice(alloc, b"abc")?,
        reset_id: 0,
        header: List::new(alloc),
        record_size,
        record_align: 1,
        flags: 0,
    })
}

// Whether the part at a place of each row, where it has one, has so many bytes.
fn fit(rows: &[Row], place: u32, size: usize) -> bool
    ensures { IsTrue result →
        All (λ row. IfSome (slice_get row.parts place) (λ part. size ≤ length part)) rows.now }
{
    rows.iter().all(|row| match row.parts.as_slice().get(place as usize) {
        Some(part) => size <= part.len(),
        None => true,
    })
}

// Sets the part at a place of the row with this UID, where all rows have room for the bytes there.
fn set(rows: &mut Rows, uid: u32, place: u32, bytes: &[u8]) {
    if fit(rows.as_slice(), place, bytes.len()) {
        rows.set_part(uid, place, bytes);
    }
}

// Whether the row has these two parts.
fn has_parts(row: &Row, first: &[u8], second: &[u8]) -> bool {
    match row.parts.as_slice() {
        [one, other] => one.as_slice() == first && other.as_slice() == second,
        _ => false,
    }
}

// Whether the fourth row has the second part that was set, and this first one.
fn has_first(rows: &Rows, first: &[u8]) -> bool {
    rows.count() > 3 && has_parts(rows.row(3), first, &[5, 6, 0])
}

fn fit_two(alloc: Global, rows: &mut Rows) -> Result<(), NoMemory> {
    let extensions = [extension(alloc, 4)?, extension(alloc, 3)?];
    rows.fit_parts(&extensions)
}

fn parts_changed(alloc: Global) -> Result<(bool, bool), NoMemory> {
    let mut rows = five(alloc)?;
    fit_two(alloc, &mut rows)?;
    set(&mut rows, 9, 1, &[5, 6]);
    let is_set = has_first(&rows, &[7, 7, 0, 0]);
    rows.clear_part(0);
    Ok((is_set, has_first(&rows, &[0, 0, 0, 0])))
}

#[test]
fn parts_are_added_grown_set_and_cleared(rt: HostRuntime) {
    assert_eq!(rt; parts_changed(rt.alloc()), Ok((true, true)));
}

// The UIDs of the rows in the ranges, rising.
fn named_by<R: Range>(alloc: Global, rows: &Rows, ranges: &[R]) -> Result<Vec<u32>, NoMemory>
    ensures rising { IfOk result (λ uids. IsStrictlyIncreasing uids.items) }
    ensures named { IfOk result (λ uids. All (HasUid rows.now.rows) uids.items) }
{
    let mut uids = Vec::new(alloc);
    rows.name_uids(ranges, &mut uids)?;
    sort_uids(&mut uids);
    Ok(uids)
}

// Whether these are the UIDs of the rows of five in the ranges.
fn names_uids<R: Range>(alloc: Global, ranges: &[R], wanted: &[u32]) -> Result<bool, NoMemory> {
    let rows = five(alloc)?;
    let uids = named_by(alloc, &rows, ranges)?;
    Ok(uids.as_slice() == wanted)
}

#[test]
fn rows_in_ranges_in_disorder_are_named(rt: HostRuntime) {
    let alloc = rt.alloc();
    let ranges = [pair(9, u32::MAX), pair(3, 4), pair(1, 2), pair(2, 5)];
    assert_eq!(rt; names_uids(alloc, &ranges, &[1, 2, 5, 9, LAST]), Ok(true));
    let ranges = [change(6, 9, 0, 0), change(5, 5, 0, 0), change(3, 4, 0, 0)];
    assert_eq!(rt; names_uids(alloc, &ranges, &[5, 9]), Ok(true));
    assert_eq!(rt; names_uids(alloc, &[named(3), named(2)], &[2]), Ok(true));
}

// Whether each row of a part has one of these UIDs, or one from the bound on.
fn is_part(part: &[Row], uids: &[u32], bound: u32) -> bool
    ensures { IsTrue result → All (λ row. is_parted uids.now bound row.uid ≡ true) part.now }
{
    part.iter()
        .all(|row| row.uid >= bound || uids.contains(&row.uid))
}

// Whether all rows have UIDs below the bound.
fn are_below(rows: &[Row], bound: u32) -> bool
    ensures { IsTrue result → All (λ row. row.uid < bound) rows.now }
{
    rows.iter().all(|row| row.uid < bound)
}

// How many rows have UIDs from the bound on.
fn new_rows(rows: &[Row], bound: u32) -> usize
    ensures { result ≡ count_by (λ row. nat_le bound row.uid) rows.now }
{
    rows.iter().filter(|row| row.uid >= bound).count()
}

// Puts a part back, where it is one.
fn put(rows: &mut Rows, uids: &[u32], bound: u32, part: Rows) -> Result<(), NoMemory>
    requires rising { IsStrictlyIncreasing uids.now }
    requires named { All (HasUid rows.old.rows) uids.now }
{
    let more = new_rows(part.as_slice(), bound);
    if more > 9 || !is_part(part.as_slice(), uids, bound) || !are_below(rows.as_slice(), bound) {
        return Err(NoMemory);
    }
    rows.reserve(more as u32)?;
    rows.put_part(uids, bound, part);
    Ok(())
}

// 1 is deleted in place of seen, 9 leaves and 12 is new.
fn change_part(alloc: Global, part: &mut Rows) -> Result<(), NoMemory> {
    part.change_flags(&[change(1, 1, 0x04, 0x08)], 7);
    part.expunge(&[pair(9, 9)]);
    add(alloc, part, 12, 0x08)
}

fn changed_part(alloc: Global, rows: &Rows, uids: &[u32]) -> Result<Rows, NoMemory>
    requires { IsStrictlyIncreasing uids.now }
{
    let mut part = rows.part(alloc, uids)?;
    change_part(alloc, &mut part)?;
    Ok(part)
}

fn put_changed(alloc: Global, rows: &mut Rows) -> Result<(), NoMemory> {
    rows.expunge(&[pair(LAST, LAST)]);
    let ranges = [pair(5, 5), pair(9, u32::MAX), pair(1, 1)];
    let uids = named_by(alloc, rows, &ranges)?;
    let part = changed_part(alloc, rows, &uids)?;
    put(rows, &uids, 10, part)
}

const PUT_BACK: [Seen; 4] = [
    (1, 0x04, 0, 7),
    (2, 0x00, 0, 3),
    (5, 0x0c, 0, 3),
    (12, 0x08, 0, 3),
];

fn with_part(alloc: Global) -> Result<(bool, (u32, u32, u32)), NoMemory> {
    let mut rows = five(alloc)?;
    put_changed(alloc, &mut rows)?;
    Ok((are(&rows, &PUT_BACK), counts(&rows)))
}

#[test]
fn a_part_that_changed_is_put_back(rt: HostRuntime) {
    assert_eq!(rt; with_part(rt.alloc()), Ok((true, (4, 2, 2))));
}
