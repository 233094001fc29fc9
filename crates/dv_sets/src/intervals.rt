ghost use Rattle.std.specs.Prelude.{◌≡◌, ◌+◌, ◌-◌, ◌++◌, IfOk, OnOk, map, min, sum_by};
ghost use Rattle.std.specs.List.{range_with_len};
ghost use Rattle.std.specs.List.Sorted.{IsNonDecreasingBy};
ghost use Rattle.dv_sets.specs.Intervals.{AreInside, is_covered, numbers_where};

use dv_model::{List, NoMemory};
use std::alloc::Global;

/// Places of rows from one on up to another, which isn't among them.
#[derive(Clone, Copy)]
pub struct Interval {
    pub from: u32,
    pub to: u32,
}

// Adds the message numbers of the places from one on up to another.
fn add_numbers(from: u32, to: u32, numbers: &mut List<u32>) -> Result<(), NoMemory>
    ensures { OnOk result (numbers.new
        ≡ numbers.old ++ map (λ k. k + 1) (range_with_len from (to - from))) }
{
    for place in from..to {
        numbers.push(place + 1)?;
    }
    Ok(())
}

// How many places the intervals have at most. Memory alone goes by it.
fn most_places(intervals: &[Interval], count: u32) -> u32
    ensures { result ≡ min (sum_by (λ interval. interval.to - interval.from) intervals.now) count }
{
    let mut most: u32 = 0;
    for interval in intervals {
        most = most.saturating_add(interval.to.saturating_sub(interval.from));
    }
    most.min(count)
}

// The message numbers of the places in intervals that begin in rising order.
fn sweep(alloc: Global, intervals: &[Interval], count: u32) -> Result<List<u32>, NoMemory>
    requires rising { IsNonDecreasingBy (λ interval. interval.from) intervals.now }
    requires inside { AreInside count intervals.now }
    ensures { IfOk result (λ numbers. numbers ≡ numbers_where (is_covered intervals.now) count) }
{
    let room = most_places(intervals, count) as usize;
    let mut numbers = List::from_vec(Vec::with_capacity(alloc, room)?);
    let mut next = 0;
    for interval in intervals {
        add_numbers(interval.from.max(next), interval.to, &mut numbers)?;
        next = interval.to.max(next);
    }
    Ok(numbers)
}

/// The message numbers of the places in the intervals, rising and each once. The time is that of
/// sorting the intervals, and that of the numbers.
pub fn numbers_of(
    alloc: Global,
    intervals: Vec<Interval>,
    count: u32,
) -> Result<List<u32>, NoMemory>
    requires { AreInside count intervals.items }
    ensures { IfOk result (λ numbers. numbers ≡ numbers_where (is_covered intervals.items) count) }
{
    let mut intervals = intervals;
    intervals.sort_unstable_by_key(|interval| interval.from);
    sweep(alloc, &intervals, count)
}
