ghost use Rattle.std.specs.Prelude.{◌≡◌, ℕ, ◌≤◌, ◌||◌, All, IfOk, IfSome, IsNone, IsOk, OnOk, ◌↔◌, length, map};
ghost use Rattle.std.specs.List.Sorted.{IsNonDecreasingBy};
ghost use Rattle.dv_model.specs.Effects.{is_in_pair, is_in_pairs};
ghost use Rattle.dv_ranges.specs.Ranges.{ArePairsApart, pair_of};

use dv_model::{Change, NoMemory, Pair};
use std::alloc::Global;

// Adds a range that begins behind none of those that are there. Where the last of them has its
// first UID, that one is made longer.
fn add(joined: &mut Vec<Pair>, pair: Pair) -> Result<(), NoMemory>
    requires apart { ArePairsApart joined.old.items }
    requires behind { All (λ other. other.first ≤ pair.first) joined.old.items }
    ensures same { OnOk result ((uid : ℕ) → is_in_pairs joined.new.items uid
        ≡ (is_in_pairs joined.old.items uid || is_in_pair uid pair)) }
    ensures apart { OnOk result (ArePairsApart joined.new.items) }
    ensures behind { OnOk result (All (λ other. other.first ≤ pair.first) joined.new.items) }
{
    if pair.last < pair.first {
        return Ok(());
    }
    let Some(last) = joined.pop() else {
        joined.push(pair)?;
        return Ok(());
    };
    if pair.first <= last.last {
        joined.push(Pair {
            first: last.first,
            last: last.last.max(pair.last),
        })?;
        return Ok(());
    }
    joined.push(last)?;
    joined.push(pair)?;
    Ok(())
}

// Joins ranges that begin in rising order.
fn sweep(alloc: Global, pairs: &[Pair]) -> Result<Vec<Pair>, NoMemory>
    requires { IsNonDecreasingBy (λ pair. pair.first) pairs.now }
    ensures same { IfOk result (λ joined. (uid : ℕ) →
        is_in_pairs joined.items uid ≡ is_in_pairs pairs.now uid) }
    ensures apart { IfOk result (λ joined. ArePairsApart joined.items) }
{
    let mut joined = Vec::new(alloc);
    for pair in pairs {
        add(&mut joined, *pair)?;
    }
    Ok(joined)
}

/// Disjoint ranges in rising order that have the same UIDs, unless there is one range at most.
/// `NoMemory` is the only error. The time is that of sorting the ranges.
pub fn join_pairs(alloc: Global, pairs: &[Pair]) -> Result<Option<Vec<Pair>>, NoMemory>
    // Exactly the same UIDs are named.
    ensures same { IfOk result (λ joined. IfSome joined (λ made. (uid : ℕ) →
        is_in_pairs made.items uid ≡ is_in_pairs pairs.now uid)) }
    // None of them twice, and they rise.
    ensures apart { IfOk result (λ joined. IfSome joined (λ made. ArePairsApart made.items)) }
    // One range is left as it is.
    ensures none { IfOk result (λ joined. IsNone joined ↔ length pairs.now ≤ 1) }
    // It takes no memory to leave it.
    ensures memory { length pairs.now ≤ 1 → IsOk result }
{
    if pairs.len() <= 1 {
        return Ok(None);
    }
    let mut sorted = Vec::from_slice(alloc, pairs)?;
    sorted.sort_unstable_by_key(|pair| pair.first);
    let joined = sweep(alloc, &sorted)?;
    Ok(Some(joined))
}

/// The ranges of changes of flags. `NoMemory` is the only error.
pub fn pairs_of(alloc: Global, changes: &[Change]) -> Result<Vec<Pair>, NoMemory>
    ensures { IfOk result (λ pairs. pairs.items ≡ map pair_of changes.now) }
{
    let mut pairs = Vec::new(alloc);
    for change in changes {
        pairs.push(Pair {
            first: change.first,
            last: change.last,
        })?;
    }
    Ok(pairs)
}
