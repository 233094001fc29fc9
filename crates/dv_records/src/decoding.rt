ghost use Rattle.std.specs.Prelude.{◌≡◌, ℕ, ◌+◌, ◌-◌, ◌≤◌, ◌++◌, List, length, take, drop, IfOk, Ok, Err};
ghost use Rattle.dv_model.specs.declared.types.Record.{Record};
ghost use Rattle.dv_model.specs.Spelling.{Spells, IsRecord};
ghost use Rattle.dv_records.specs.declared.fault.DecodeEnd.TheVariants as end;
ghost use Rattle.dv_records.specs.declared.fault.RecordFault.{RecordFault};
ghost use Rattle.dv_records.specs.Faults.{GivesSize, IsRecordAt, IsFault, OnFault, Answers, lacks_guard};

use crate::bodies::read_body;
use crate::fault::{DecodeEnd, RecordFault};
use crate::types;
use dv_model::Record;
use dv_num::{size_value, u32_at};
use std::alloc::Global;

/// The size of the record that these bytes begin, which are that many at least.
pub fn size_of(bytes: &[u8]) -> Result<usize, RecordFault>
    ensures { GivesSize result bytes.now }
{
    if bytes.len() < 4 || bytes[0] != 0x80 {
        return Err(RecordFault::Closed);
    }
    let code = [bytes[0], bytes[1], bytes[2], bytes[3]];
    let size = size_value(code).ok_or(RecordFault::Closed)? as usize;
    if size < 8 || bytes.len() < size {
        return Err(RecordFault::BadSize);
    }
    Ok(size)
}

/// Whether a type needs the bits that protect an expunge, and lacks them.
pub fn lacks_guard(code: u32) -> bool
    ensures { result ≡ lacks_guard code }
{
    code == types::UNGUARDED_EXPUNGE || code == types::UNGUARDED_EXPUNGE_GUID
}

// The record that these bytes begin, and its size.
fn read_record(alloc: Global, bytes: &[u8]) -> Result<(Record, usize), DecodeEnd>
    ensures found { IfOk result (λ x. IsRecordAt x.0 x.1 bytes.now) }
    ensures fault { OnFault result (λ f. IsFault f bytes.now) }
{
    let size = size_of(bytes)?;
    let kind = u32_at(bytes, 4);
    let code = kind % 0x1000_0000;
    if lacks_guard(code) {
        return Err(DecodeEnd::Fault(RecordFault::BadGuard));
    }
    let body = read_body(alloc, code, &bytes[8..size])?;
    let top = (kind / 0x1000_0000) as u8;
    Ok((Record { top, body }, size))
}

/// The record that begins at a place of these bytes, and the place behind it.
///
/// The tests stand in this order: `Closed` where no record begins there, `BadSize`, `BadGuard`,
/// `BadPayload`. Padding may be anything, and a reset may lack its `preserve`, which then is 0.
/// The time is in proportion to the record's bytes, and so is the memory.
pub fn decode(alloc: Global, b: &[u8], at: usize) -> Result<(Record, usize), DecodeEnd>
    requires { at ≤ length b.now }
    // What is read stands there.
    ensures found { IfOk result (λ x. (at ≤ x.1) × IsRecordAt x.0 (x.1 - at) (drop at b.now)) }
    // What is read can be written.
    ensures valid { IfOk result (λ x. IsRecord x.0) }
    // What stands there is read, whatever follows it.
    ensures only { (r : Record) (text rest : List ℕ) → Spells r text
        → drop at b.now ≡ text ++ rest
        → Answers result (Ok (r, at + length text)) }
    // A fault comes by the bytes alone.
    ensures fault { OnFault result (λ f. IsFault f (drop at b.now)) }
    // Where there is a fault, it comes.
    ensures every { (f : RecordFault) → IsFault f (drop at b.now)
        → Answers result (Err (end.Fault f)) }
{
    let (_, place) = b.split_at(at);
    let (record, size) = read_record(alloc, place)?;
    Ok((record, at + size))
}

/// No spelling begins another, and each is of one record: so what was written is read again,
/// whatever follows it.
pub fn one_reading()
    ensures { (r s : Record) (b c x y : List ℕ) → Spells r b → Spells s c → b ++ x ≡ c ++ y
        → (b ≡ c) × (r ≡ s) }
{}

/// A record that has a spelling has a written one.
pub fn spelled_is_valid()
    ensures { (r : Record) (b : List ℕ) → Spells r b → IsRecord r }
{}
