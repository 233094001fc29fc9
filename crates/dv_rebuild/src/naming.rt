//! The number of the new log.

ghost use Rattle.std.specs.Prelude.{◌≡◌, ◌++◌, ◌≤◌, IfOk, OnOk, nat_eq};
ghost use Rattle.std.specs.List.{list_any};
ghost use Rattle.dv_model.specs.Sessions.{next_number};
ghost use Rattle.dv_openings.specs.Rebuilds.{as_list, new_indexid};

use dv_model::{List, NoMemory};
use std::alloc::Global;

/// The next number, which is never 0.
fn next_number(n: u32) -> u32
    ensures { result ≡ next_number n }
{
    if n == u32::MAX { 1 } else { n + 1 }
}

/// Whether the number is used.
fn is_used(used: &[u32], n: u32) -> bool
    ensures { result ≡ list_any (nat_eq n) used.now }
{
    used.iter().any(|one| n == *one)
}

/// Adds a number, where there is one.
fn add(n: Option<u32>, numbers: &mut List<u32>) -> Result<(), NoMemory>
    ensures { OnOk result (numbers.new ≡ numbers.old ++ as_list n) }
{
    if let Some(n) = n {
        numbers.push(n)?;
    }
    Ok(())
}

/// The numbers, where there are any. `NoMemory` is the only error.
pub fn listed(
    alloc: Global,
    log: Option<u32>,
    rotated: Option<u32>,
    index: Option<u32>,
) -> Result<List<u32>, NoMemory>
    ensures { IfOk result (λ numbers. numbers
        ≡ as_list log ++ as_list rotated ++ as_list index) }
{
    let mut numbers = List::new(alloc);
    add(log, &mut numbers)?;
    add(rotated, &mut numbers)?;
    add(index, &mut numbers)?;
    Ok(numbers)
}

/// A number that isn't used: the clock's reading, in which 0 counts as 1, or the first behind it.
/// Takes no memory.
pub fn new_indexid(used: &[u32], now: u32) -> u32
    ensures is { result ≡ new_indexid used.now now }
    ensures some { 1 ≤ result }
{
    let mut n = now.max(1);
    for _one in used {
        if !is_used(used, n) {
            return n;
        }
        n = next_number(n);
    }
    n
}
