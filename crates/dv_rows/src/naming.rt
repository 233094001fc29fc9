ghost use Rattle.std.specs.Prelude.{◌≡◌, ◌↔◌, ◌⊎◌, ℕ, true, Contains, OnOk};
ghost use Rattle.std.specs.List.Sorted.{IsStrictlyIncreasing};
ghost use Rattle.dv_rows.specs.Kept.{AreRows};
ghost use Rattle.dv_rows.specs.Noted.{has};
ghost use Rattle.dv_rows.specs.Parted.{HasUid, IsNamed};

use crate::places::place_from;
use crate::ranges::Range;
use dv_model::{NoMemory, Row};

// Adds the UIDs of the rows in one range.
fn name_range<R: Range>(rows: &[Row], range: &R, uids: &mut Vec<u32>) -> Result<(), NoMemory>
    requires { AreRows rows.now }
    ensures named { OnOk result ((uid : ℕ) →
        HasUid rows.now uid → has R.lowest R.highest uid range.now ≡ true
        → Contains uids.new.items uid) }
    ensures kept { (uid : ℕ) → Contains uids.old.items uid → Contains uids.new.items uid }
    ensures only { (uid : ℕ) → Contains uids.new.items uid →
        Contains uids.old.items uid
        ⊎ (HasUid rows.now uid × (has R.lowest R.highest uid range.now ≡ true)) }
{
    let last = range.last();
    let mut at = place_from(rows, range.first());
    while at < rows.len() && rows[at].uid <= last {
        uids.push(rows[at].uid)?;
        at += 1;
    }
    Ok(())
}

/// Adds the UIDs of the rows in the ranges, in whatever order these are: each is found by halves.
pub fn name_ranges<R: Range>(
    rows: &[Row],
    ranges: &[R],
    uids: &mut Vec<u32>,
) -> Result<(), NoMemory>
    requires { AreRows rows.now }
    ensures named { OnOk result ((uid : ℕ) →
        IsNamed R.lowest R.highest ranges.now rows.now uid → Contains uids.new.items uid) }
    ensures kept { (uid : ℕ) → Contains uids.old.items uid → Contains uids.new.items uid }
    ensures only { (uid : ℕ) → Contains uids.new.items uid →
        Contains uids.old.items uid ⊎ IsNamed R.lowest R.highest ranges.now rows.now uid }
{
    for range in ranges {
        name_range(rows, range, uids)?;
    }
    Ok(())
}

/// Brings UIDs into rising order, each once.
pub fn sort_uids(uids: &mut Vec<u32>)
    ensures rising { IsStrictlyIncreasing uids.new.items }
    ensures same { (uid : ℕ) → Contains uids.new.items uid ↔ Contains uids.old.items uid }
{
    uids.sort_unstable();
    uids.dedup();
}
