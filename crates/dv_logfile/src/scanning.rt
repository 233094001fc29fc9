ghost use Rattle.std.specs.Prelude.{◌≡◌, ◌⊎◌, ℕ, ◌+◌, ◌-◌, ◌*◌, ◌≤◌, List, Option, true, All, length, drop, IfErr, IfOk, IfSome, IsNone};
ghost use Rattle.dv_model.specs.declared.types.Record.{Record};
ghost use Rattle.dv_model.specs.Spelling.{IsRecord, is_closed};
ghost use Rattle.dv_records.specs.Faults.{HoldsRecord, IsRecordAt};
ghost use Rattle.dv_logfile.specs.declared.header.LogHeader.{LogHeader};
ghost use Rattle.dv_logfile.specs.declared.outcome.ScanEnd.TheVariants as end;
ghost use Rattle.dv_logfile.specs.Layout.{IsGoodHeader, IsLog, last_end, log_end, log_text};
ghost use Rattle.dv_logfile.specs.Scans.{Good, IsFaulty, IsLogScan, IsScanned, Scanned, Says, spots_of};

use crate::header::read_header;
use crate::{Scan, ScanEnd};
use dv_model::{List, Record};
use dv_records::{DecodeEnd, RecordFault, check, decode};
use std::alloc::Global;

/// The last place where a record may end, so that four bytes more fit.
const LAST_END: usize = 1_073_741_820;

/// Reads a log file whole: its header, and its records up to the first closed place.
///
/// `BadHeader` comes exactly where `read_header` gives none, and `BadRecord` exactly where the
/// record at that offset has a fault or ends past 1,073,741,820. The time is in proportion to the
/// file's bytes, and so is the memory, whatever sizes the file claims.
pub fn scan(alloc: Global, b: &[u8]) -> Result<Scan, ScanEnd>
    // What is answered, the file holds.
    ensures found { Says result (λ s. IsScanned (Some b.now) s) }
    // What the file holds is answered.
    ensures only { (s : Scanned) → IsScanned (Some b.now) s → Says result (λ t. t ≡ s) }
    // Each place has its record, and each record its place.
    ensures paired { IfOk result (λ scan. length scan.places ≡ length scan.records) }
    // The records can be written.
    ensures valid { IfOk result (λ scan. All IsRecord scan.records) }
    // Each has eight bytes at least.
    ensures bound { IfOk result (λ scan. 8 * length scan.records ≤ scan.end) }
    // It is a log of these records.
    ensures log { IfOk result (λ scan. IsLog scan.header scan.records scan.end b.now) }
    // A log is read as that log.
    ensures read { (h : LogHeader) (rs : List Record) (e : ℕ) →
        IsLog h rs e b.now → IsLogScan result h rs e }
{
    let header = match read_header(b) {
        Some(header) => header,
        None => return Err(ScanEnd::BadHeader),
    };
    let mut places = List::new(alloc);
    let mut records = List::new(alloc);
    let mut at = usize::from(header.hdr_size);
    while let Some((record, behind)) = next_record(alloc, b, at)? {
        places.push(at as u32)?;
        records.push(record)?;
        at = behind;
    }
    Ok(Scan {
        header,
        places,
        records,
        end: at as u32,
    })
}

/// The record that begins at a place of a log file's bytes, and the place behind it; None where the
/// place is closed.
///
/// `BadRecord` comes exactly where the record there has a fault or ends past 1,073,741,820.
pub fn next_record(alloc: Global, b: &[u8], at: usize) -> Result<Option<(Record, usize)>, ScanEnd>
    requires inside { at ≤ length b.now }
    requires fits { at ≤ last_end }
    ensures record_at { IfOk result (λ next. IfSome next (λ x.
        (at ≤ x.1) × (x.1 ≤ last_end) × IsRecordAt x.0 (x.1 - at) (drop at b.now))) }
    ensures valid { IfOk result (λ next. IfSome next (λ x. IsRecord x.0)) }
    ensures closed { IfOk result (λ next. IsNone next → is_closed (drop at b.now) ≡ true) }
    ensures fault { IfErr result (λ e.
        (e ≡ end.NoMemory) ⊎ ((e ≡ end.BadRecord at) × IsFaulty at (drop at b.now))) }
{
    match decode(alloc, b, at) {
        Ok(found) if found.1 <= LAST_END => Ok(Some(found)),
        Ok(_) => Err(ScanEnd::BadRecord { offset: at as u32 }),
        Err(DecodeEnd::NoMemory) => Err(ScanEnd::NoMemory),
        Err(DecodeEnd::Fault(fault)) => match fault {
            RecordFault::Closed => Ok(None),
            _ => Err(ScanEnd::BadRecord { offset: at as u32 }),
        },
    }
}

/// The place behind the record that begins at a place of a log file's bytes, as `next_record` gives
/// it; None where the place is closed. Takes no memory.
///
/// `BadRecord` comes exactly where the record there has a fault or ends past 1,073,741,820.
pub fn next_place(b: &[u8], at: usize) -> Result<Option<usize>, ScanEnd>
    requires inside { at ≤ length b.now }
    requires fits { at ≤ last_end }
    ensures record_at { IfOk result (λ next. IfSome next (λ behind.
        (at ≤ behind) × (behind ≤ last_end) × HoldsRecord (behind - at) (drop at b.now))) }
    ensures closed { IfOk result (λ next. IsNone next → is_closed (drop at b.now) ≡ true) }
    ensures fault { IfErr result (λ e.
        (e ≡ end.BadRecord at) × IsFaulty at (drop at b.now)) }
{
    match check(b, at) {
        Ok(behind) if behind <= LAST_END => Ok(Some(behind)),
        Ok(_) => Err(ScanEnd::BadRecord { offset: at as u32 }),
        Err(fault) => match fault {
            RecordFault::Closed => Ok(None),
            _ => Err(ScanEnd::BadRecord { offset: at as u32 }),
        },
    }
}

/// A file holds one thing: nothing, a header that isn't taken, a fault at one place, or one log.
pub fn one_scan()
    ensures { (file : Option (List ℕ)) (s t : Scanned) →
        IsScanned file s → IsScanned file t → s ≡ t }
{}

/// A log is a good file of its records, each at a place of its own, and so is what `create` writes.
pub fn log_is_good()
    ensures log { (h : LogHeader) (rs : List Record) (e : ℕ) (b : List ℕ) → IsLog h rs e b
        → (places : List ℕ) × (length places ≡ length rs)
        × IsScanned (Some b) (Good (record { header = h; spots = spots_of places rs; end = e })) }
    ensures written { (h : LogHeader) (rs : List Record) → IsGoodHeader h → All IsRecord rs
        → log_end rs ≤ last_end
        → (places : List ℕ) × (length places ≡ length rs)
        × IsScanned (Some (log_text h rs))
        (Good (record { header = h; spots = spots_of places rs; end = log_end rs })) }
{}
