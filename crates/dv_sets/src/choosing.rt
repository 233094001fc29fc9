ghost use Rattle.std.specs.Prelude.{◌≡◌, ◌+◌, ◌^◌, ◌<◌, ◌≤◌, ◌||◌, ◌∷◌, [], ℕ, IfOk, None, Some, Ok, Err, find, fold, length, map, max, nat_eq, nat_lt, slice_index_or};
ghost use Rattle.std.specs.List.Sorted.{IsStrictlyIncreasing};
ghost use Rattle.dv_model.specs.declared.types.Shown.{Shown};
ghost use Rattle.dv_model.specs.Sets.{end_value, is_in_set, is_in_span, missing_end, named_by_number, named_by_uid};
ghost use Rattle.dv_model.specs.Views.{View};
ghost use Rattle.dv_sets.specs.Answers.{Chooses};
ghost use Rattle.dv_sets.specs.Intervals.{is_within};
ghost use Rattle.dv_sets.specs.declared.end.SetEnd.TheVariants as set_end;

use crate::end::SetEnd;
use crate::intervals::{Interval, numbers_of};
use dv_model::{End, List, NoMemory, Shown, Span};
use std::alloc::Global;

/// The number that an end of a range is, where `*` is this one.
pub fn end_value(end: End, star: u32) -> u32
    ensures { result ≡ end_value star end }
{
    match end {
        End::Number(n) => n,
        End::Star => star,
    }
}

fn is_in_span(span: Span, star: u32, n: u32) -> bool
    ensures { result ≡ is_in_span star span n }
{
    let from = end_value(span.from, star);
    let to = end_value(span.to, star);
    from.min(to) <= n && n <= from.max(to)
}

/// Whether a set has a number; `*` is the number `star` (RFC 3501, section 9, `sequence-set`).
pub fn is_in_set(set: &[Span], star: u32, n: u32) -> bool
    ensures { result ≡ is_in_set star set.now n }
{
    set.iter().any(|span| is_in_span(*span, star, n))
}

// The first end of a range that is no message number among so many.
fn missing_of(span: Span, count: u32) -> Option<u32>
    ensures { result ≡ find (λ n. nat_eq n 0 || nat_lt count n)
        (end_value count span.from ∷ end_value count span.to ∷ []) }
{
    let from = end_value(span.from, count);
    if from == 0 || from > count {
        return Some(from);
    }
    let to = end_value(span.to, count);
    if to == 0 || to > count {
        return Some(to);
    }
    None
}

/// The first end of the ranges that is no message number among so many: 0, or above their number,
/// which is also what `*` is (RFC 3501, section 9, `seq-number`). Takes no memory.
pub fn missing_end(set: &[Span], count: u32) -> Option<u32>
    ensures { (view : View) → length view.rows ≡ count → result ≡ missing_end set.now view }
{
    for span in set {
        let missing = missing_of(*span, count);
        if missing.is_some() {
            return missing;
        }
    }
    None
}

// The places whose message numbers a range has, among so many.
fn places_by_number(span: Span, count: u32) -> Interval
    ensures inside { result.to ≤ count }
    ensures is { (k : ℕ) → k < count →
        is_within k result ≡ is_in_span count span (k + 1) }
{
    let from = end_value(span.from, count);
    let to = end_value(span.to, count);
    Interval {
        from: from.min(to).saturating_sub(1),
        to: from.max(to).min(count),
    }
}

// The places of the rows whose UIDs a range has, found by halves.
fn places_by_uid(span: Span, star: u32, rows: &[Shown]) -> Interval
    requires few { length rows.now < 2 ^ 32 }
    requires rising { IsStrictlyIncreasing (map (λ row. row.uid) rows.now) }
    ensures inside { result.to ≤ length rows.now }
    ensures is { (k : ℕ) (d : Shown) → k < length rows.now →
        is_within k result ≡ is_in_span star span (slice_index_or rows.now k d).uid }
{
    let from = end_value(span.from, star);
    let to = end_value(span.to, star);
    let (low, high) = (from.min(to), from.max(to));
    Interval {
        from: rows.partition_point(|row| row.uid < low) as u32,
        to: rows.partition_point(|row| row.uid <= high) as u32,
    }
}

/// The largest UID of rows by rising UID, or 0 where there is none.
pub fn largest_uid(rows: &[Shown]) -> u32
    requires { IsStrictlyIncreasing (map (λ row. row.uid) rows.now) }
    ensures { result ≡ fold (λ n s. max n s.uid) 0 rows.now }
{
    match rows.last() {
        Some(row) => row.uid,
        None => 0,
    }
}

/// The message numbers that a set names among so many, in rising order (RFC 3501, section 2.3.1.2);
/// `*` is the largest one, and what is none is passed over. `NoMemory` is the only error. The time
/// is that of the ranges, their sorting, and the numbers.
pub fn numbers_among(alloc: Global, set: &List<Span>, count: u32) -> Result<List<u32>, NoMemory>
    ensures { (view : View) → length view.rows ≡ count
        → IfOk result (λ numbers. numbers ≡ map (λ row. row.0) (named_by_number set.now view)) }
{
    let mut intervals = Vec::new(alloc);
    for span in set.as_slice() {
        intervals.push(places_by_number(*span, count))?;
    }
    numbers_of(alloc, intervals, count)
}

/// The message numbers that a set names in a view of these rows, in rising order (RFC 3501,
/// section 2.3.1.2). `NoMessage` has the first end that is 0 or above the number of rows, where
/// `*` is that number; it takes no memory to find. The time is that of the ranges, their sorting,
/// and the numbers.
pub fn numbers(alloc: Global, set: &List<Span>, rows: &List<Shown>) -> Result<List<u32>, SetEnd>
    requires { length rows.now < 2 ^ 32 }
    ensures missing { (view : View) (n : ℕ) → view.rows ≡ rows.now
        → missing_end set.now view ≡ Some n
        → result ≡ Err (set_end.NoMessage n) }
    ensures named { (view : View) → view.rows ≡ rows.now
        → missing_end set.now view ≡ None
        → Chooses result (Ok (map (λ row. row.0) (named_by_number set.now view))) }
{
    let count = rows.len() as u32;
    if let Some(n) = missing_end(set.as_slice(), count) {
        return Err(SetEnd::NoMessage(n));
    }
    Ok(numbers_among(alloc, set, count)?)
}

/// The message numbers of the rows whose UIDs are in a set, in rising order; `*` is the largest
/// UID of the rows, and a UID that no row has is passed over (RFC 3501, section 6.4.8).
/// `NoMemory` is the only error. The time is that of the ranges, each found by halves, their
/// sorting, and the numbers.
pub fn uids(alloc: Global, set: &List<Span>, rows: &List<Shown>) -> Result<List<u32>, NoMemory>
    requires few { length rows.now < 2 ^ 32 }
    requires rising { IsStrictlyIncreasing (map (λ row. row.uid) rows.now) }
    ensures { (view : View) → view.rows ≡ rows.now
        → IfOk result (λ numbers. numbers ≡ map (λ row. row.0) (named_by_uid set.now view)) }
{
    let rows = rows.as_slice();
    let star = largest_uid(rows);
    let mut intervals = Vec::new(alloc);
    for span in set.as_slice() {
        intervals.push(places_by_uid(*span, star, rows))?;
    }
    numbers_of(alloc, intervals, rows.len() as u32)
}
