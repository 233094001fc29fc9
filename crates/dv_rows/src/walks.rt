ghost use Rattle.std.specs.Prelude.{◌≡◌, ◌<◌, ◌≤◌, ◌^◌, length, map, set, get_or, vec_capacity, vec_len};
ghost use Rattle.dv_model.specs.declared.types.Row.{Row};
ghost use Rattle.dv_rows.specs.Kept.{AreRows};
ghost use Rattle.dv_rows.specs.Noted.{IsTally, Noted, by_range, by_ranges, noted, with_note};

use crate::counts::{Counts, put_note};
use crate::places::place_from;
use crate::ranges::Range;
use dv_model::Row;

/// What is done to a row in a range, and to the number beside it.
pub trait Step<R> {
    ghost after: { Self → R → Noted → Noted };

    /// Does it.
    fn step(&self, range: &R, row: &mut Row, note: &mut u8)
        ensures { with_note row.new note.new
            ≡ after self.now range.now (with_note row.old note.old) };

    ghost keeps: { (s : Self) (r : R) (p : Noted) → (after s r p).row.uid ≡ p.row.uid };
}

// At one place.
fn step_at<R, S: Step<R>>(
    rows: &mut [Row],
    notes: &mut [u8],
    counts: &mut Counts,
    at: usize,
    range: &R,
    step: &S,
)
    requires inside { at < length rows.old }
    requires noted { length notes.old ≡ length rows.old }
    requires few { length rows.old < 2 ^ 32 }
    requires tally { IsTally counts.old notes.old }
    ensures is { (d : Noted) →
        noted rows.new notes.new
        ≡ set (noted rows.old notes.old) at
        (S.after step.now range.now (get_or (noted rows.old notes.old) at d)) }
    ensures tally { IsTally counts.new notes.new }
{
    let mut note = notes[at];
    step.step(range, &mut rows[at], &mut note);
    put_note(notes, counts, at, note);
}

// To each row in one range.
fn walk_range<R: Range, S: Step<R>>(
    rows: &mut [Row],
    notes: &mut [u8],
    counts: &mut Counts,
    range: &R,
    step: &S,
)
    requires rows { AreRows rows.old }
    requires noted { length notes.old ≡ length rows.old }
    requires tally { IsTally counts.old notes.old }
    ensures is { noted rows.new notes.new
        ≡ map (λ p. by_range R.lowest R.highest (S.after step.now) p range.now)
        (noted rows.old notes.old) }
    ensures tally { IsTally counts.new notes.new }
{
    let last = range.last();
    let mut at = place_from(rows, range.first());
    while at < rows.len() && rows[at].uid <= last {
        step_at(rows, notes, counts, at, range, step);
        at += 1;
    }
}

// To each row in the ranges in turn.
fn walk_ranges<R: Range, S: Step<R>>(
    rows: &mut [Row],
    notes: &mut [u8],
    counts: &mut Counts,
    ranges: &[R],
    step: &S,
)
    requires rows { AreRows rows.old }
    requires noted { length notes.old ≡ length rows.old }
    requires tally { IsTally counts.old notes.old }
    ensures is { noted rows.new notes.new
        ≡ map (by_ranges R.lowest R.highest (S.after step.now) ranges.now)
        (noted rows.old notes.old) }
    ensures tally { IsTally counts.new notes.new }
{
    for range in ranges {
        walk_range(rows, notes, counts, range, step);
    }
}

/// Does it to each row in the ranges, in turn, in whatever order these are: each is found by
/// halves, and no other row is looked at.
pub fn walk<R: Range, S: Step<R>>(
    rows: &mut Vec<Row>,
    notes: &mut Vec<u8>,
    counts: &mut Counts,
    ranges: &[R],
    step: &S,
)
    requires rows { AreRows rows.old.items }
    requires noted { length notes.old.items ≡ length rows.old.items }
    requires tally { IsTally counts.old notes.old.items }
    ensures is { noted rows.new.items notes.new.items
        ≡ map (by_ranges R.lowest R.highest (S.after step.now) ranges.now)
        (noted rows.old.items notes.old.items) }
    ensures tally { IsTally counts.new notes.new.items }
    ensures noted { length notes.new.items ≡ length rows.new.items }
    ensures rows_len { vec_len rows.new ≡ vec_len rows.old }
    ensures rows_capacity { vec_capacity rows.new ≡ vec_capacity rows.old }
    ensures notes_len { vec_len notes.new ≡ vec_len notes.old }
    ensures notes_capacity { vec_capacity notes.new ≡ vec_capacity notes.old }
{
    walk_ranges(
        rows.as_mut_slice(),
        notes.as_mut_slice(),
        counts,
        ranges,
        step,
    );
}
