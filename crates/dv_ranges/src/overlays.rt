ghost use Rattle.std.specs.Prelude.{◌≡◌, ◌⊎◌, ℕ, ◌+◌, ◌^◌, ◌<◌, ◌≤◌, ◌&&◌, All, IfOk, OnOk, length, nat_le, nat_lt, if◌then◌else◌};
ghost use Rattle.dv_ranges.specs.Overlays.{bits_after};
ghost use Rattle.dv_ranges.specs.Ranges.{AreChangesApart, flags_after};

use dv_model::{Change, NoMemory};
use std::alloc::Global;

// The end of the UIDs.
const END: u64 = 4294967296;

/// Bits of flags that are removed, and others that are added then.
#[derive(Clone, Copy)]
pub struct Bits {
    pub add: u8,
    pub remove: u8,
}

// What both do in turn.
fn both(one: Option<Bits>, two: Option<Bits>) -> Option<Bits>
    ensures { (flags : ℕ) → bits_after result flags ≡ bits_after two (bits_after one flags) }
{
    let Some(first) = one else {
        return two;
    };
    let Some(second) = two else {
        return one;
    };
    Some(Bits {
        add: first.add & !second.remove | second.add,
        remove: !(!first.remove & !second.remove),
    })
}

// What disjoint changes do at a UID, and the UID up to which they do it.
fn look(changes: &[Change], from: u64) -> (Option<Bits>, u64)
    requires apart { AreChangesApart changes.now }
    requires ahead { All (λ change. from ≤ change.last) changes.now }
    requires some { from < 2 ^ 32 }
    ensures is { (uid flags : ℕ) → from ≤ uid → uid < result.1 →
        flags_after uid flags changes.now ≡ bits_after result.0 flags }
    ensures more { from < result.1 }
    ensures end { result.1 ≤ 2 ^ 32 }
    ensures within { All (λ change. result.1 ≤ change.last + 1) changes.now }
{
    let Some(change) = changes.first() else {
        return (None, END);
    };
    if from < u64::from(change.first) {
        return (None, u64::from(change.first));
    }
    let bits = Bits {
        add: change.add,
        remove: change.remove,
    };
    (Some(bits), u64::from(change.last) + 1)
}

// Those that end at the UID or behind it.
fn skip(changes: &[Change], from: u64) -> &[Change]
    requires apart { AreChangesApart changes.now }
    requires near { All (λ change. from ≤ change.last + 1) changes.now }
    ensures apart { AreChangesApart result.now }
    ensures ahead { All (λ change. from ≤ change.last) result.now }
    ensures same { (uid flags : ℕ) → from ≤ uid →
        flags_after uid flags result.now ≡ flags_after uid flags changes.now }
{
    let Some(change) = changes.first() else {
        return changes;
    };
    if from <= u64::from(change.last) {
        return changes;
    }
    changes.split_at(1).1
}

// Adds what is done to the UIDs from one on up to another.
fn add_piece(
    made: &mut Vec<Change>,
    from: u64,
    until: u64,
    bits: Option<Bits>,
) -> Result<(), NoMemory>
    requires some { from < until }
    requires end { until ≤ 2 ^ 32 }
    requires apart { AreChangesApart made.old.items }
    requires before { All (λ change. change.last < from) made.old.items }
    ensures is { OnOk result ((uid flags : ℕ) → flags_after uid flags made.new.items
        ≡ (if nat_le from uid && nat_lt uid until then bits_after bits flags
        else flags_after uid flags made.old.items)) }
    ensures apart { OnOk result (AreChangesApart made.new.items) }
    ensures before { OnOk result (All (λ change. change.last < until) made.new.items) }
{
    let Some(bits) = bits else {
        return Ok(());
    };
    made.push(Change {
        first: from as u32,
        last: (until - 1) as u32,
        add: bits.add,
        remove: bits.remove,
    })?;
    Ok(())
}

/// What disjoint changes and then others do, as disjoint ones.
pub fn overlay(alloc: Global, first: &[Change], second: &[Change]) -> Result<Vec<Change>, NoMemory>
    requires first { AreChangesApart first.now }
    requires second { AreChangesApart second.now }
    ensures is { IfOk result (λ made. (uid flags : ℕ) → uid < 2 ^ 32 →
        flags_after uid flags made.items
        ≡ flags_after uid (flags_after uid flags first.now) second.now) }
    ensures apart { IfOk result (λ made. AreChangesApart made.items) }
{
    let mut made = Vec::new(alloc);
    let mut one = first;
    let mut two = second;
    let mut from = 0;
    while from < END {
        let (one_bits, one_until) = look(one, from);
        let (two_bits, two_until) = look(two, from);
        let until = one_until.min(two_until);
        add_piece(&mut made, from, until, both(one_bits, two_bits))?;
        one = skip(one, until);
        two = skip(two, until);
        from = until;
    }
    Ok(made)
}
