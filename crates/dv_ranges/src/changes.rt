ghost use Rattle.std.specs.Prelude.{◌≡◌, ◌↔◌, ℕ, ◌^◌, ◌<◌, ◌≤◌, IfOk, IfSome, IsNone, IsOk, length, [], ◌∷◌};
ghost use Rattle.dv_ranges.specs.Ranges.{AreChangesApart, flags_after};

use crate::overlays::overlay;
use dv_model::{Change, NoMemory};
use std::alloc::Global;

// Joins them by halves.
fn join(alloc: Global, changes: &[Change]) -> Result<Vec<Change>, NoMemory>
    ensures is { IfOk result (λ made. (uid flags : ℕ) → uid < 2 ^ 32 →
        flags_after uid flags made.items ≡ flags_after uid flags changes.now) }
    ensures apart { IfOk result (λ made. AreChangesApart made.items) }
{
    let Some(change) = changes.first() else {
        return Ok(Vec::new(alloc));
    };
    if changes.len() == 1 {
        return lone(alloc, *change);
    }
    let (front, back) = changes.split_at(changes.len() / 2);
    let first = join(alloc, front)?;
    let second = join(alloc, back)?;
    overlay(alloc, &first, &second)
}

// One change, unless its range has no UID.
fn lone(alloc: Global, change: Change) -> Result<Vec<Change>, NoMemory>
    ensures is { IfOk result (λ made. (uid flags : ℕ) →
        flags_after uid flags made.items ≡ flags_after uid flags (change ∷ [])) }
    ensures apart { IfOk result (λ made. AreChangesApart made.items) }
{
    let mut made = Vec::new(alloc);
    if change.first <= change.last {
        made.push(change)?;
    }
    Ok(made)
}

/// Disjoint changes in rising order that do the same to the flags of each row as these do in turn,
/// unless there is one change at most. `NoMemory` is the only error. The time for n changes is
/// n log n.
pub fn join_changes(alloc: Global, changes: &[Change]) -> Result<Option<Vec<Change>>, NoMemory>
    // Exactly the same is done.
    ensures same { IfOk result (λ joined. IfSome joined (λ made. (uid flags : ℕ) → uid < 2 ^ 32 →
        flags_after uid flags made.items ≡ flags_after uid flags changes.now)) }
    // No UID is named twice, and they rise.
    ensures apart { IfOk result (λ joined. IfSome joined (λ made. AreChangesApart made.items)) }
    // One change is left as it is.
    ensures none { IfOk result (λ joined. IsNone joined ↔ length changes.now ≤ 1) }
    // It takes no memory to leave it.
    ensures memory { length changes.now ≤ 1 → IsOk result }
{
    if changes.len() <= 1 {
        return Ok(None);
    }
    let joined = join(alloc, changes)?;
    Ok(Some(joined))
}
