ghost use Rattle.std.specs.Prelude.{◌≡◌, ◌≤◌, drop, is_some, length};
ghost use Rattle.std.specs.List.{list_any};
ghost use Rattle.dv_view.specs.Following.{AreGiven, has_left, left_number};
ghost use Rattle.dv_view.specs.Orders.{AreRising};
ghost use Rattle.dv_view.specs.Told.{IsPlace};

use crate::places::place_of;
use dv_model::{Fresh, Shown};

/// How many of the rows from a place on are before this UID, found by halves.
pub fn count_before(rows: &[Shown], from: usize, uid: u32) -> usize
    requires rising { AreRising rows.now }
    requires inside { from ≤ length rows.now }
    ensures { IsPlace (drop from rows.now) uid result }
{
    let (_, rest) = rows.split_at(from);
    rest.partition_point(|s| s.uid < uid)
}

/// The number of the row that has left, where the view has one.
pub fn left_number(rows: &[Shown], f: &Fresh) -> Option<u32>
    requires { AreRising rows.now }
    ensures { result ≡ left_number rows.now f.now }
{
    if f.row.is_some() {
        return None;
    }
    match place_of(rows, f.uid) {
        Some(at) => Some(at as u32 + 1),
        None => None,
    }
}

/// Whether a row of the view has left.
pub fn loses_row(rows: &[Shown], fresh: &[Fresh]) -> bool
    requires { AreRising rows.now }
    ensures { result ≡ list_any (λ f. is_some (left_number rows.now f)) fresh.now }
{
    for f in fresh {
        if left_number(rows, f).is_some() {
            return true;
        }
    }
    false
}

/// Whether the row of this UID has left, found by halves.
pub fn has_left(fresh: &[Fresh], uid: u32) -> bool
    requires { AreGiven fresh.now }
    ensures { result ≡ has_left fresh.now uid }
{
    let at = fresh.partition_point(|f| f.uid < uid);
    if at >= fresh.len() {
        return false;
    }
    let f = &fresh[at];
    f.uid == uid && f.row.is_none()
}
