ghost use Rattle.std.specs.Prelude.{◌≡◌, ◌↔◌, ◌⊎◌, ◌&&◌, ◌+◌, ◌<◌, ◌≤◌, ℕ, Contains, IfOk, IsTrue, find, length, nat_eq, nat_lt, option_map, slice_index, if◌then◌else◌};
ghost use Rattle.std.specs.List.Sorted.{IsStrictlyIncreasing};
ghost use Rattle.dv_model.specs.Views.{shown};
ghost use Rattle.dv_touched.specs.Telling.{Differs};

use dv_model::{NoMemory, Row};
use dv_rows::Rows;
use std::alloc::Global;

// The row of a UID.
fn row_of(rows: &Rows, uid: u32) -> Option<&Row>
    ensures { option_map (λ row. row.now) result
        ≡ find (λ row. nat_eq row.uid uid) rows.now.rows }
{
    match rows.position(uid) {
        Some(at) => Some(rows.row(at)),
        None => None,
    }
}

// Whether two rows of one UID are shown in the same way.
fn same(old: &Row, new: &Row) -> bool
    requires { old.now.uid ≡ new.now.uid }
    ensures { IsTrue result ↔ (shown old.now ≡ shown new.now) }
{
    old.flags % 32 == new.flags % 32
        && old.modseq == new.modseq
        && old.keywords.as_slice() == new.keywords.as_slice()
}

// Whether a UID's rows are shown in different ways, or only one of the two is there.
fn differs(old: &Rows, new: &Rows, uid: u32) -> bool
    ensures { IsTrue result ↔ Differs old.now.rows new.now.rows uid }
{
    match (row_of(old, uid), row_of(new, uid)) {
        (Some(before), Some(after)) => !same(before, after),
        (None, None) => false,
        _ => true,
    }
}

/// Those of the UIDs whose rows are shown in different ways, or of which only one is there.
pub fn differing(alloc: Global, uids: &[u32], old: &Rows, new: &Rows) -> Result<Vec<u32>, NoMemory>
    requires { IsStrictlyIncreasing uids.now }
    ensures rising { IfOk result (λ made. IsStrictlyIncreasing made.items) }
    ensures is { IfOk result (λ made. (uid : ℕ) →
        Contains made.items uid
        ↔ (Contains uids.now uid × Differs old.now.rows new.now.rows uid)) }
{
    let mut made = Vec::new(alloc);
    for uid in uids {
        if differs(old, new, *uid) {
            made.push(*uid)?;
        }
    }
    Ok(made)
}

// The lesser of the numbers at two places, of which one may be behind the last number.
fn lesser(xs: &[u32], i: usize, ys: &[u32], j: usize) -> u32
    requires { (i < length xs.now) ⊎ (j < length ys.now) }
    ensures first { i < length xs.now → result ≤ slice_index xs.now i }
    ensures second { j < length ys.now → result ≤ slice_index ys.now j }
    ensures one { ((i < length xs.now) × (result ≡ slice_index xs.now i))
        ⊎ ((j < length ys.now) × (result ≡ slice_index ys.now j)) }
{
    if i >= xs.len() {
        return ys[j];
    }
    if j >= ys.len() {
        return xs[i];
    }
    xs[i].min(ys[j])
}

// The place behind this number, where it is the one at a place, and else that place.
fn behind(xs: &[u32], at: usize, x: u32) -> usize
    ensures { result
        ≡ (if nat_lt at (length xs.now) && nat_eq (slice_index xs.now at) x then at + 1 else at) }
{
    if at < xs.len() && xs[at] == x {
        at + 1
    } else {
        at
    }
}

/// The numbers of two rising slices, rising.
pub fn merged(alloc: Global, xs: &[u32], ys: &[u32]) -> Result<Vec<u32>, NoMemory>
    requires first { IsStrictlyIncreasing xs.now }
    requires second { IsStrictlyIncreasing ys.now }
    ensures rising { IfOk result (λ made. IsStrictlyIncreasing made.items) }
    ensures is { IfOk result (λ made. (x : ℕ) →
        Contains made.items x ↔ (Contains xs.now x ⊎ Contains ys.now x)) }
{
    let mut made = Vec::with_capacity(alloc, xs.len().saturating_add(ys.len()))?;
    let mut i = 0;
    let mut j = 0;
    while i < xs.len() || j < ys.len() {
        let x = lesser(xs, i, ys, j);
        made.push(x)?;
        i = behind(xs, i, x);
        j = behind(ys, j, x);
    }
    Ok(made)
}
