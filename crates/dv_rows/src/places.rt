ghost use Rattle.std.specs.Prelude.{◌≡◌, ◌+◌, ◌<◌, ◌≤◌, ◌^◌, [], ◌∷◌, ◌++◌, IfSome, length, nat_eq, position, vec_capacity, vec_len};
ghost use Rattle.dv_rows.specs.Kept.{AreRows};
ghost use Rattle.dv_rows.specs.Noted.{IsTally};
ghost use Rattle.dv_rows.specs.Places.{AreBounds, IsPlace};

use crate::counts::{Counts, DELETED, SEEN, flag_number};
use dv_model::Row;

// Two places between which that of a UID lies. Since UIDs rise by one or more from row to row,
// they are near each other where few are missing.
fn bounds(rows: &[Row], uid: u32) -> (usize, usize)
    requires { AreRows rows.now }
    ensures { AreBounds rows.now uid result.0 result.1 }
{
    let (Some(first), Some(last)) = (rows.first(), rows.last()) else {
        return (0, rows.len());
    };
    let behind = (last.uid + 1).saturating_sub(uid);
    let before = uid.saturating_sub(first.uid);
    (
        rows.len().saturating_sub(behind as usize),
        rows.len().min(before as usize),
    )
}

/// The place of the first row whose UID isn't below this, found by halves.
pub fn place_from(rows: &[Row], uid: u32) -> usize
    requires { AreRows rows.now }
    ensures is { IsPlace rows.now uid result }
    ensures inside { result ≤ length rows.now }
{
    let (low, high) = bounds(rows, uid);
    let (front, _) = rows.split_at(high);
    let (_, between) = front.split_at(low);
    low + between.partition_point(|row| row.uid < uid)
}

/// The place of the row with this UID, found by halves.
pub fn place_of(rows: &[Row], uid: u32) -> Option<usize>
    requires { AreRows rows.now }
    ensures is { result ≡ position (λ row. nat_eq row.uid uid) rows.now }
    ensures inside { IfSome result (λ at. at < length rows.now) }
{
    let at = place_from(rows, uid);
    if at >= rows.len() {
        return None;
    }
    if rows[at].uid != uid {
        return None;
    }
    Some(at)
}

/// Adds a row at the end, in the room that is there.
pub fn add_row(rows: &mut Vec<Row>, row: Row)
    requires { vec_len rows.old < vec_capacity rows.old }
    ensures items { rows.new.items ≡ rows.old.items ++ row ∷ [] }
    ensures len { vec_len rows.new ≡ vec_len rows.old + 1 }
    ensures capacity { vec_capacity rows.old ≤ vec_capacity rows.new }
{
    rows.push(row).unwrap();
}

/// Adds flags at the end, in the room that is there, and counts them.
pub fn add_note(notes: &mut Vec<u8>, counts: &mut Counts, flags: u8)
    requires room { vec_len notes.old < vec_capacity notes.old }
    requires few { length notes.old.items + 1 < 2 ^ 32 }
    requires tally { IsTally counts.old notes.old.items }
    ensures items { notes.new.items ≡ notes.old.items ++ flags ∷ [] }
    ensures tally { IsTally counts.new notes.new.items }
    ensures len { vec_len notes.new ≡ vec_len notes.old + 1 }
    ensures capacity { vec_capacity notes.old ≤ vec_capacity notes.new }
{
    notes.push(flags).unwrap();
    counts.seen += flag_number(flags, SEEN);
    counts.deleted += flag_number(flags, DELETED);
}
