ghost use Rattle.std.specs.Prelude.{◌≡◌, ◌+◌, ◌<◌, ◌++◌, ◌∷◌, IfOk, OnOk, All, List, false, map, option_map, unwrap_or};
ghost use Rattle.std.specs.List.{AllByRecursion};
ghost use Rattle.dv_live.specs.declared.verdicts.Verdict.{Verdict as Judged};
ghost use Rattle.dv_live.specs.Turning.{RiseFrom, behind, has_uid, starts_with, turned, where_met};

use crate::verdicts::Verdict;
use dv_model::NoMemory;
use std::alloc::Global;

// The UIDs before this one, and those from it on, found by halves.
fn split_at_uid(uids: &[u32], uid: u32) -> (&[u32], &[u32])
    requires { RiseFrom 0 uids.now }
    ensures parts { uids.now ≡ result.0.now ++ result.1.now }
    ensures before { AllByRecursion (λ u. u < uid) result.0.now }
    ensures from { RiseFrom uid result.1.now }
{
    uids.split_at(uids.partition_point(|u| *u < uid))
}

// Whether this UID is the first.
fn starts_with(uids: &[u32], uid: u32) -> bool
    ensures { result ≡ starts_with uids.now uid }
{
    match uids.first() {
        Some(first) => *first == uid,
        None => false,
    }
}

// The UIDs without this one, which may be the first.
fn behind(uids: &[u32], uid: u32) -> &[u32]
    requires { RiseFrom uid uids.now }
    ensures is { result.now ≡ behind uid uids.now }
    ensures rising { RiseFrom 0 result.now }
{
    if !starts_with(uids, uid) {
        return uids;
    }
    let (_, rest) = uids.split_at(uids.len().min(1));
    rest
}

// Whether the UID is one of these, found by halves.
fn has_uid(uids: &[u32], uid: u32) -> bool
    requires { RiseFrom 0 uids.now }
    ensures { result ≡ has_uid uids.now uid }
{
    let (_, from) = split_at_uid(uids, uid);
    starts_with(from, uid)
}

// Whether the verdict changes which UIDs are found.
fn is_change(uids: &[u32], v: Verdict) -> bool
    requires { RiseFrom 0 uids.now }
    ensures { result ≡ false → v.met ≡ has_uid uids.now v.uid }
{
    let found = has_uid(uids, v.uid);
    if v.met { !found } else { found }
}

// Whether one of the verdicts changes which UIDs are found.
fn changes(uids: &[u32], verdicts: &[Verdict]) -> bool
    requires { RiseFrom 0 uids.now }
    ensures { result ≡ false → All (λ (v : Judged). v.met ≡ has_uid uids.now v.uid) verdicts.now }
{
    for v in verdicts {
        if is_change(uids, *v) {
            return true;
        }
    }
    false
}

/// Adds the UID where it is found. `NoMemory` is the only error.
pub fn add_met(made: &mut Vec<u32>, v: Verdict) -> Result<(), NoMemory>
    ensures { OnOk result (made.new.items ≡ made.old.items ++ where_met v) }
{
    if v.met {
        made.push(v.uid)?;
    }
    Ok(())
}

// Adds what lies before a verdict's UID, and that where it is found, and gives what lies behind it.
fn add_until<'a>(made: &mut Vec<u32>, rest: &'a [u32], v: Verdict) -> Result<&'a [u32], NoMemory>
    requires { RiseFrom 0 rest.now }
    ensures rising { IfOk result (λ left. RiseFrom 0 left.now) }
    // So it is whatever verdicts on later UIDs follow.
    ensures step { IfOk result (λ left. (later : List Judged) →
        RiseFrom (v.uid + 1) (map (λ (w : Judged). w.uid) later) →
        made.old.items ++ turned rest.now (v ∷ later)
        ≡ made.new.items ++ turned left.now later) }
{
    let (front, from) = split_at_uid(rest, v.uid);
    made.extend_from_slice(front)?;
    add_met(made, v)?;
    Ok(behind(from, v.uid))
}

// The UIDs with the verdicts, in one walk.
fn merged(alloc: Global, uids: &[u32], verdicts: &[Verdict]) -> Result<Vec<u32>, NoMemory>
    requires uids { RiseFrom 0 uids.now }
    requires verdicts { RiseFrom 0 (map (λ (v : Judged). v.uid) verdicts.now) }
    ensures { IfOk result (λ made. made.items ≡ turned uids.now verdicts.now) }
{
    let mut made = Vec::with_capacity(alloc, uids.len().saturating_add(verdicts.len()))?;
    let mut rest = uids;
    for v in verdicts {
        rest = add_until(&mut made, rest, *v)?;
    }
    made.extend_from_slice(rest)?;
    Ok(made)
}

/// The UIDs with the verdicts, or nothing where they stay as they are. `NoMemory` is the only
/// error. Each verdict's UID is found by halves; where UIDs come or leave, all are moved once.
pub fn turned(
    alloc: Global,
    uids: &[u32],
    verdicts: &[Verdict],
) -> Result<Option<Vec<u32>>, NoMemory>
    requires uids { RiseFrom 0 uids.now }
    requires verdicts { RiseFrom 0 (map (λ (v : Judged). v.uid) verdicts.now) }
    ensures { IfOk result (λ made. unwrap_or (option_map (λ new. new.items) made) uids.now
        ≡ turned uids.now verdicts.now) }
{
    if !changes(uids, verdicts) {
        return Ok(None);
    }
    Ok(Some(merged(alloc, uids, verdicts)?))
}
