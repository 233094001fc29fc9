ghost use Rattle.std.specs.Prelude.{◌≡◌, ◌≤◌, All, false, length, filter, map, nat_eq, refl, take, vec_capacity, vec_len};
ghost use Rattle.std.specs.List.{list_any};
ghost use Rattle.dv_rows.specs.Kept.{AreRows};
ghost use Rattle.dv_rows.specs.Noted.{has, noted};
ghost use Rattle.dv_rows.specs.Steps.{marked};

use crate::places::place_from;
use crate::ranges::Range;
use crate::walks::Step;
use dv_model::Row;

/// The row leaves. The number beside it says so, and counts neither as Seen nor as Deleted.
#[derive(Drop)]
pub struct Mark;

impl<R> Step<R> for Mark {
    ghost after = { λ s r. marked };

    fn step(&self, _range: &R, row: &mut Row, note: &mut u8) {
        *note = if row.flags == 0 { 1 } else { 0 };
    }

    ghost keeps = { λ s r p. refl };
}

/// A place before which no row is in the ranges: that of the first one that is, or the end.
pub fn first_place<R: Range>(rows: &[Row], ranges: &[R]) -> usize
    requires { AreRows rows.now }
    ensures inside { result ≤ length rows.now }
    ensures before { All (λ row. list_any (has R.lowest R.highest row.uid) ranges.now
        ≡ false) (take result rows.now) }
{
    let mut first = rows.len();
    for range in ranges {
        let at = place_from(rows, range.first());
        if at < first && rows[at].uid <= range.last() {
            first = at;
        }
    }
    first
}

/// Removes the rows that are marked, of which none is before a place, and moves up those that stay.
pub fn remove_marked(rows: &mut Vec<Row>, notes: &mut Vec<u8>, from: usize)
    requires noted { length notes.old.items ≡ length rows.old.items }
    requires inside { from ≤ length rows.old.items }
    requires before { All (λ p. p.note
        ≡ p.row.flags) (take from (noted rows.old.items notes.old.items)) }
    ensures is { noted rows.new.items notes.new.items
        ≡ filter (λ p. nat_eq p.note p.row.flags) (noted rows.old.items notes.old.items) }
    ensures noted { length notes.new.items ≡ length rows.new.items }
    ensures rows_len { vec_len rows.new ≤ vec_len rows.old }
    ensures rows_capacity { vec_capacity rows.new ≡ vec_capacity rows.old }
    ensures notes_len { vec_len notes.new ≤ vec_len notes.old }
    ensures notes_capacity { vec_capacity notes.new ≡ vec_capacity notes.old }
{
    let mut to = from;
    for at in from..rows.len() {
        if notes[at] == rows[at].flags {
            rows.swap(to, at);
            notes.swap(to, at);
            to += 1;
        }
    }
    rows.truncate(to);
    notes.truncate(to);
}
