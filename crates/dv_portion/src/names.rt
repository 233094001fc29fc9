ghost use Rattle.std.specs.Prelude.{◌≡◌, ◌⊎◌, ℕ, Contains, OnOk};
ghost use Rattle.dv_rows.specs.Parted.{IsNamed};

use dv_model::{Change, NoMemory, Pair};
use dv_ranges::{join_pairs, pairs_of};
use dv_rows::Rows;
use std::alloc::Global;

/// Adds the UIDs of the rows in the ranges, each once. After `NoMemory` some of them may be added.
pub fn name_pairs(
    alloc: Global,
    rows: &Rows,
    pairs: &[Pair],
    uids: &mut Vec<u32>,
) -> Result<(), NoMemory>
    ensures named { OnOk result ((uid : ℕ) →
        IsNamed (λ pair. pair.first) (λ pair. pair.last) pairs.now rows.now.rows uid →
        Contains uids.new.items uid) }
    ensures kept { (uid : ℕ) → Contains uids.old.items uid → Contains uids.new.items uid }
    ensures only { (uid : ℕ) → Contains uids.new.items uid →
        Contains uids.old.items uid
        ⊎ IsNamed (λ pair. pair.first) (λ pair. pair.last) pairs.now rows.now.rows uid }
{
    match join_pairs(alloc, pairs)? {
        Some(joined) => rows.name_uids(&joined, uids),
        None => rows.name_uids(pairs, uids),
    }
}

/// Adds the UIDs of the rows in the ranges of changes, each once. After `NoMemory` some of them may
/// be added.
pub fn name_changed(
    alloc: Global,
    rows: &Rows,
    changes: &[Change],
    uids: &mut Vec<u32>,
) -> Result<(), NoMemory>
    ensures named { OnOk result ((uid : ℕ) →
        IsNamed (λ change. change.first) (λ change. change.last) changes.now rows.now.rows uid →
        Contains uids.new.items uid) }
    ensures kept { (uid : ℕ) → Contains uids.old.items uid → Contains uids.new.items uid }
    ensures only { (uid : ℕ) → Contains uids.new.items uid →
        Contains uids.old.items uid
        ⊎ IsNamed (λ change. change.first) (λ change. change.last) changes.now rows.now.rows uid }
{
    let pairs = pairs_of(alloc, changes)?;
    name_pairs(alloc, rows, &pairs, uids)
}
