//! The records of a log file's bytes, walked one after another without keeping any.

ghost use Rattle.std.specs.Prelude.{◌≡◌, ℕ, ◌-◌, ◌^◌, ◌<◌, ◌≤◌, List, true, length, drop, Some, None, OnOk, IfOk, IfSome, IsNone};
ghost use Rattle.dv_model.specs.Effects.{after_record};
ghost use Rattle.dv_model.specs.Spelling.{IsRecord, is_closed};
ghost use Rattle.dv_records.specs.Faults.{IsRecordAt};
ghost use Rattle.dv_logfile.specs.Layout.{last_end};
ghost use Rattle.dv_logfile.specs.Scans.{IsFaulty, Spot};
ghost use Rattle.dv_openings.specs.Openings.{spots_applied, spots_from};
ghost use Rattle.dv_chain.specs.Walks.{Applies, Counts, IsLeft, Measures, NoDisk, OnBadRecord, Skips};

use dv_apply::{ApplyFault, Live};
use dv_logfile::{ScanEnd, next_place, next_record};
use dv_model::{OpenFault, Record};
use std::alloc::Global;

/// The record that begins at a place, and the place behind it; None where the place is closed.
pub fn record_at(alloc: Global, b: &[u8], at: usize) -> Result<Option<(Record, usize)>, OpenFault>
    requires inside { at ≤ length b.now }
    requires fits { at ≤ last_end }
    ensures record_at { IfOk result (λ next. IfSome next (λ x.
        (at ≤ x.1) × (x.1 ≤ last_end) × IsRecordAt x.0 (x.1 - at) (drop at b.now))) }
    ensures valid { IfOk result (λ next. IfSome next (λ x. IsRecord x.0)) }
    ensures closed { IfOk result (λ next. IsNone next → is_closed (drop at b.now) ≡ true) }
    ensures fault { OnBadRecord result (λ offset. (offset ≡ at) × IsFaulty at (drop at b.now)) }
    ensures disk { NoDisk result }
{
    match next_record(alloc, b, at) {
        Ok(next) => Ok(next),
        Err(ScanEnd::BadHeader) => Err(OpenFault::BadLogHeader),
        Err(ScanEnd::BadRecord { offset }) => Err(OpenFault::BadRecord { offset }),
        Err(ScanEnd::NoMemory) => Err(OpenFault::NoMemory),
    }
}

/// The place behind the record that begins at a place; None where the place is closed.
/// Takes no memory.
#[tactic(auto, using(crate::proofs::Walks::skips))]
fn skip(b: &[u8], at: usize) -> Result<Option<usize>, OpenFault>
    requires inside { at ≤ length b.now }
    requires fits { at ≤ last_end }
    ensures skipped { IfOk result (λ next. IfSome next (λ behind. Skips b.now at behind)) }
    ensures closed { IfOk result (λ next. IsNone next → is_closed (drop at b.now) ≡ true) }
    ensures fault { OnBadRecord result (λ offset. (offset ≡ at) × IsFaulty at (drop at b.now)) }
    ensures disk { NoDisk result }
{
    match next_place(b, at) {
        Ok(Some(behind)) => Ok(Some(behind)),
        Ok(None) => Ok(None),
        Err(_) => Err(OpenFault::BadRecord { offset: at as u32 }),
    }
}

/// Where the records from a place on end, and how many they are.
pub fn measure(b: &[u8], from: usize) -> Result<(u32, u32), OpenFault>
    requires inside { from ≤ length b.now }
    requires fits { from ≤ last_end }
    ensures measured { Measures from b.now result }
    ensures disk { NoDisk result }
{
    let mut at = from;
    let mut count = 0;
    while let Some(behind) = skip(b, at)? {
        at = behind;
        count += 1;
    }
    Ok((at as u32, count))
}

/// Applies the record that stands at a place. `BadRecord` names the place, exactly where the record
/// is refused.
fn apply_one(live: &mut Live, r: &Record, at: u32) -> Result<(), OpenFault>
    requires { IsRecord r.now }
    ensures ok { OnOk result
        (after_record live.old.mailbox r.now ≡ Some live.new.mailbox) }
    ensures refused { OnBadRecord result
        (λ offset. (offset ≡ at) × (after_record live.old.mailbox r.now ≡ None)) }
    ensures disk { NoDisk result }
{
    match live.apply(r) {
        Ok(()) => Ok(()),
        Err(ApplyFault::BadAppend { .. }) => Err(OpenFault::BadRecord { offset: at }),
        Err(ApplyFault::NoMemory) => Err(OpenFault::NoMemory),
    }
}

/// The mailbox with the records from a place on, one after another, up to the first closed place.
pub fn apply_from(alloc: Global, b: &[u8], from: usize, live: Live) -> Result<Live, OpenFault>
    requires inside { from ≤ length b.now }
    requires fits { from ≤ last_end }
    ensures applied { (spots : List Spot) (end : ℕ) → IsLeft b.now from spots end →
        Applies result (spots_applied live.mailbox spots) }
    ensures disk { NoDisk result }
{
    let mut live = live;
    let mut at = from;
    while let Some((record, behind)) = record_at(alloc, b, at)? {
        let applied = apply_one(&mut live, &record, at as u32);
        drop(record);
        applied?;
        at = behind;
    }
    Ok(live)
}

/// How many records stand from one place up to another, where one begins or all end there.
pub fn count_between(b: &[u8], from: usize, place: usize) -> Result<Option<u32>, OpenFault>
    requires inside { from ≤ length b.now }
    requires fits { from ≤ last_end }
    ensures inside { IfOk result (λ n. IfSome n (λ _.
        (place ≤ length b.now) × (place ≤ last_end))) }
    ensures counted { (spots : List Spot) (end : ℕ) → IsLeft b.now from spots end →
        Counts result spots (spots_from end place spots) }
    ensures disk { NoDisk result }
{
    let mut at = from;
    let mut count = 0;
    while at < place {
        match skip(b, at)? {
            Some(behind) => {
                at = behind;
                count += 1;
            }
            None => return Ok(None),
        }
    }
    if at == place {
        Ok(Some(count))
    } else {
        Ok(None)
    }
}
