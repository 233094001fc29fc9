//! Whether a record begins at a place, told without memory.

ghost use Rattle.std.specs.Prelude.{◌≡◌, ◌%◌, ◌^◌, ◌<◌, ◌≤◌, ◌-◌, ◌+◌, ◌++◌, ℕ, List, length, drop, IfErr, IfOk, IsFalse, Ok, Err};
ghost use Rattle.dv_model.specs.declared.types.Record.{Record};
ghost use Rattle.dv_model.specs.Spelling.{InTurn, Spells};
ghost use Rattle.dv_records.specs.declared.fault.RecordFault.{RecordFault};
ghost use Rattle.dv_records.specs.Faults.{HoldsRecord, IsBodyOf, IsFault, lacks_guard};
ghost use Rattle.dv_records.specs.Fronts.{IsReader, Tells};

use crate::decoding::{lacks_guard, size_of};
use crate::fault::RecordFault;
use crate::items::Read;
use crate::keyword::front_of;
use crate::types;
use dv_model::{Change, GuidRow, Intro, NewRow, Pair, Part};
use dv_num::u32_at;

// Whether items make up these bytes, one after another.
fn are_items<T: Read>(bytes: &[u8]) -> bool
    requires { IsReader T.size T.spelled T.front }
    ensures { Tells (λ items. InTurn T.size T.spelled items bytes.now) result }
{
    let mut rest = bytes;
    while !rest.is_empty() {
        match T::front_size(rest) {
            Some(size) => {
                let (_, behind) = rest.split_at(size);
                rest = behind;
            }
            None => return false,
        }
    }
    true
}

// Whether items make up these bytes, at least one.
fn are_some<T: Read>(bytes: &[u8]) -> bool
    requires { IsReader T.size T.spelled T.front }
    ensures { Tells (λ items. (1 ≤ length items) × InTurn T.size T.spelled items bytes.now) result }
{
    if bytes.is_empty() {
        return false;
    }
    are_items::<T>(bytes)
}

fn is_reset(bytes: &[u8]) -> bool
    ensures { Tells (IsBodyOf 0x80 bytes.now) result }
{
    bytes.len() == 4 || bytes.len() == 8
}

#[tactic(auto, using(crate::proofs::Fronts::pair_reads))]
fn is_keyword_update(bytes: &[u8]) -> bool
    ensures { Tells (IsBodyOf 0x400 bytes.now) result }
{
    match front_of(bytes) {
        Some((_, _, size)) => {
            let (_, ranges) = bytes.split_at(size);
            are_items::<Pair>(ranges)
        }
        None => false,
    }
}

// Whether these bytes are the payload of a record of this code.
#[tactic(auto, using(crate::proofs::Fronts::pair_reads, crate::proofs::Fronts::new_row_reads, crate::proofs::Fronts::change_reads, crate::proofs::Fronts::guid_row_reads, crate::proofs::Fronts::part_reads, crate::proofs::Fronts::intro_reads))]
fn is_body(code: u32, bytes: &[u8]) -> bool
    requires small { code < 2 ^ 28 }
    requires guarded { IsFalse (lacks_guard code) }
    requires whole { length bytes.now % 4 ≡ 0 }
    ensures { Tells (IsBodyOf code bytes.now) result }
{
    match code {
        types::EXPUNGE => are_items::<Pair>(bytes),
        types::APPEND => are_items::<NewRow>(bytes),
        types::FLAG_UPDATE => are_items::<Change>(bytes),
        types::HEADER_UPDATE => are_some::<Part>(bytes),
        types::EXT_INTRO => are_some::<Intro>(bytes),
        types::EXT_RESET => is_reset(bytes),
        types::EXT_HEADER_UPDATE => are_some::<Part>(bytes),
        types::EXT_RECORD_UPDATE => true,
        types::KEYWORD_UPDATE => is_keyword_update(bytes),
        types::KEYWORD_RESET => are_items::<Pair>(bytes),
        types::EXPUNGE_GUID => are_items::<GuidRow>(bytes),
        _ => true,
    }
}

// The size of the record that these bytes begin.
fn check_record(bytes: &[u8]) -> Result<usize, RecordFault>
    ensures found { IfOk result (λ size. HoldsRecord size bytes.now) }
    ensures fault { IfErr result (λ f. IsFault f bytes.now) }
{
    let size = size_of(bytes)?;
    let code = u32_at(bytes, 4) % 0x1000_0000;
    if lacks_guard(code) {
        return Err(RecordFault::BadGuard);
    }
    if !is_body(code, &bytes[8..size]) {
        return Err(RecordFault::BadPayload);
    }
    Ok(size)
}

/// The place behind the record that begins at a place of these bytes.
///
/// It is the place that `decode` gives, and the fault is `decode`'s. The time is in proportion to
/// the record's bytes. Takes no memory.
pub fn check(b: &[u8], at: usize) -> Result<usize, RecordFault>
    requires { at ≤ length b.now }
    // A record stands there, and can be written.
    ensures found { IfOk result (λ behind.
        (at ≤ behind) × HoldsRecord (behind - at) (drop at b.now)) }
    // The record that stands there is passed, whatever follows it.
    ensures only { (r : Record) (text rest : List ℕ) → Spells r text
        → drop at b.now ≡ text ++ rest
        → result ≡ Ok (at + length text) }
    // A fault comes by the bytes alone.
    ensures fault { IfErr result (λ f. IsFault f (drop at b.now)) }
    // Where there is a fault, it comes.
    ensures every { (f : RecordFault) → IsFault f (drop at b.now) → result ≡ Err f }
{
    let (_, place) = b.split_at(at);
    Ok(at + check_record(place)?)
}
