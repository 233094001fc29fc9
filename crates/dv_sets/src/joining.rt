ghost use Rattle.std.specs.Prelude.{◌≡◌, ◌++◌, ℕ, IfOk, OnOk};
ghost use Rattle.std.specs.List.Sorted.{IsNonDecreasingBy};
ghost use Rattle.dv_model.specs.Sets.{is_in_set};
ghost use Rattle.dv_sets.specs.Joined.{AreApart, high_of, is_in_ranges, low_of, piece};

use crate::choosing::end_value;
use dv_model::{End, List, NoMemory, Span};
use std::alloc::Global;

/// The numbers from one on up to another, which is among them.
#[derive(Clone, Copy)]
pub struct Range {
    pub low: u32,
    pub high: u32,
}

// The ranges of a set with their lower ends first.
fn ranges_of(alloc: Global, set: &[Span], star: u32) -> Result<Vec<Range>, NoMemory>
    ensures { IfOk result (λ ranges. (n : ℕ) →
        is_in_ranges ranges.items n ≡ is_in_set star set.now n) }
{
    let mut ranges = Vec::new(alloc);
    for span in set {
        let from = end_value(span.from, star);
        let to = end_value(span.to, star);
        ranges.push(Range {
            low: from.min(to),
            high: from.max(to),
        })?;
    }
    Ok(ranges)
}

// Adds the numbers of a range from this one on.
fn add_range(joined: &mut List<Span>, range: Range, next: u64) -> Result<(), NoMemory>
    ensures { OnOk result (joined.new ≡ joined.old ++ piece next range) }
{
    let low = u64::from(range.low).max(next);
    if low > u64::from(range.high) {
        return Ok(());
    }
    joined.push(Span {
        from: End::Number(low as u32),
        to: End::Number(range.high),
    })?;
    Ok(())
}

// The ranges, which begin in rising order, without the numbers that an earlier one has.
fn sweep(alloc: Global, ranges: &[Range]) -> Result<List<Span>, NoMemory>
    requires { IsNonDecreasingBy (λ range. range.low) ranges.now }
    ensures apart { IfOk result AreApart }
    ensures same { IfOk result (λ joined. (star n : ℕ) →
        is_in_set star joined n ≡ is_in_ranges ranges.now n) }
{
    let mut joined = List::new(alloc);
    let mut next = 0;
    for range in ranges {
        add_range(&mut joined, *range, next)?;
        next = next.max(u64::from(range.high) + 1);
    }
    Ok(joined)
}

/// A set that has the same numbers, by ranges that rise and are apart, in which `*` doesn't stand.
/// `NoMemory` is the only error. The time is that of sorting the ranges.
pub fn join_set(alloc: Global, set: &[Span], star: u32) -> Result<List<Span>, NoMemory>
    ensures apart { IfOk result AreApart }
    ensures same { IfOk result (λ joined. (other n : ℕ) →
        is_in_set other joined n ≡ is_in_set star set.now n) }
{
    let mut ranges = ranges_of(alloc, set, star)?;
    ranges.sort_unstable_by_key(|range| range.low);
    sweep(alloc, &ranges)
}

fn low_of(span: &Span) -> u32
    ensures { result ≡ low_of span.now }
{
    end_value(span.from, 0)
}

fn high_of(span: &Span) -> u32
    ensures { result ≡ high_of span.now }
{
    end_value(span.to, 0)
}

/// Whether a set has a number, found by halves, where its ranges rise and are apart.
pub fn is_in_joined(set: &[Span], n: u32) -> bool
    ensures { AreApart set.now → (star : ℕ) → result ≡ is_in_set star set.now n }
{
    let at = set.partition_point(|span| high_of(span) < n);
    if at >= set.len() {
        return false;
    }
    let span = &set[at];
    low_of(span) <= n
}
