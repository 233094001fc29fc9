ghost use Rattle.std.specs.Prelude.{◌≡◌, ℕ, ◌+◌, ◌*◌, ◌^◌, ◌<◌, ◌≤◌, ◌++◌, List as Listed, All, OnOk, OnErr, flat_map, length};
ghost use Rattle.dv_model.specs.Spelling.{IsPayload, IsRecord, code_of, type_of, payload_text, reset_text, written};
ghost use Rattle.dv_records.specs.Short.{HasShortTexts};

use crate::types;
use crate::writing::{write_all, write_keyword};
use dv_model::{Body, Bytes, List, NoMemory, Record};
use dv_num::size_code;
use std::alloc::Global;

fn write_reset(reset_id: u32, preserve: u8, out: &mut Bytes) -> Result<(), NoMemory>
    ensures { OnOk result (out.new ≡ out.old ++ reset_text reset_id preserve) }
{
    out.extend(&reset_id.to_le_bytes())?;
    out.extend(&[preserve, 0, 0, 0])?;
    Ok(())
}

fn write_payload(body: &Body, out: &mut Bytes) -> Result<(), NoMemory>
    requires { HasShortTexts body.now }
    ensures { OnOk result (out.new ≡ out.old ++ payload_text body.now) }
{
    match body {
        Body::Expunge(pairs) => write_all(pairs.as_slice(), out),
        Body::Append(rows) => write_all(rows.as_slice(), out),
        Body::FlagUpdate(changes) => write_all(changes.as_slice(), out),
        Body::HeaderUpdate(parts) => write_all(parts.as_slice(), out),
        Body::ExtIntro(intros) => write_all(intros.as_slice(), out),
        Body::ExtReset { reset_id, preserve } => write_reset(*reset_id, *preserve, out),
        Body::ExtHeaderUpdate(parts) => write_all(parts.as_slice(), out),
        Body::ExtRecordUpdate(bytes) => write_bytes(bytes, out),
        Body::KeywordUpdate { how, name, pairs } => {
            write_keyword(*how, name.as_slice(), out)?;
            write_all(pairs.as_slice(), out)
        }
        Body::KeywordReset(pairs) => write_all(pairs.as_slice(), out),
        Body::ExpungeGuid(rows) => write_all(rows.as_slice(), out),
        Body::Carried { code: _, bytes } => write_bytes(bytes, out),
    }
}

fn write_bytes(bytes: &Bytes, out: &mut Bytes) -> Result<(), NoMemory>
    ensures { OnOk result (out.new ≡ out.old ++ bytes.now) }
{
    out.extend(bytes.as_slice())?;
    Ok(())
}

fn code_of(body: &Body) -> u32
    ensures { result ≡ code_of body.now }
{
    match body {
        Body::Expunge(_) => types::EXPUNGE,
        Body::Append(_) => types::APPEND,
        Body::FlagUpdate(_) => types::FLAG_UPDATE,
        Body::HeaderUpdate(_) => types::HEADER_UPDATE,
        Body::ExtIntro(_) => types::EXT_INTRO,
        Body::ExtReset { .. } => types::EXT_RESET,
        Body::ExtHeaderUpdate(_) => types::EXT_HEADER_UPDATE,
        Body::ExtRecordUpdate(_) => types::EXT_RECORD_UPDATE,
        Body::KeywordUpdate { .. } => types::KEYWORD_UPDATE,
        Body::KeywordReset(_) => types::KEYWORD_RESET,
        Body::ExpungeGuid(_) => types::EXPUNGE_GUID,
        Body::Carried { code, .. } => *code,
    }
}

// Adds a record with this payload. After `NoMemory` `out` is as before.
fn write_record(alloc: Global, r: &Record, payload: &[u8], out: &mut Bytes) -> Result<(), NoMemory>
    requires record { IsRecord r.now }
    requires payload { payload.now ≡ payload_text r.now.body }
    ensures ok { OnOk result (out.new ≡ out.old ++ written r.now) }
    ensures err { OnErr result (out.new ≡ out.old) }
{
    let size = 8 + payload.len();
    let kind = code_of(&r.body) + 0x1000_0000 * u32::from(r.top);
    let mut text = List::new(alloc);
    text.extend(&size_code(size as u32))?;
    text.extend(&kind.to_le_bytes())?;
    text.extend(payload)?;
    out.extend(text.as_slice())?;
    Ok(())
}

/// Adds the written spelling of a record: zero padding, and a reset with its `preserve`.
/// After `NoMemory`, the only error, `out` is as before.
pub fn encode(alloc: Global, r: &Record, out: &mut Bytes) -> Result<(), NoMemory>
    requires { IsRecord r.now }
    ensures ok { OnOk result (out.new ≡ out.old ++ written r.now) }
    ensures err { OnErr result (out.new ≡ out.old) }
{
    match &r.body {
        // These have the bytes of their payload.
        Body::ExtRecordUpdate(bytes) => write_record(alloc, r, bytes.as_slice(), out),
        Body::Carried { code: _, bytes } => write_record(alloc, r, bytes.as_slice(), out),
        body => {
            let mut payload = List::new(alloc);
            write_payload(body, &mut payload)?;
            write_record(alloc, r, payload.as_slice(), out)
        }
    }
}

// About how many bytes the payload of a record with this body has.
fn payload_room(body: &Body) -> usize
    ensures { (b : Listed ℕ) → IsPayload body.now b → result ≤ length b + 40 }
{
    match body {
        Body::Expunge(pairs) => pairs.len().saturating_mul(8),
        Body::Append(rows) => rows.len().saturating_mul(8),
        Body::FlagUpdate(changes) => changes.len().saturating_mul(12),
        Body::KeywordUpdate { pairs, .. } => pairs.len().saturating_mul(8),
        Body::KeywordReset(pairs) => pairs.len().saturating_mul(8),
        Body::ExpungeGuid(rows) => rows.len().saturating_mul(20),
        Body::ExtRecordUpdate(bytes) => bytes.len(),
        Body::Carried { bytes, .. } => bytes.len(),
        _ => 40,
    }
}

/// About how many bytes the spellings of records have: at most forty a record more than they have.
/// Memory and time alone go by it.
pub fn room_for(records: &[Record]) -> usize
    ensures { All IsRecord records.now →
        result ≤ length (flat_map written records.now) + 40 * length records.now }
{
    let mut room: usize = 0;
    for r in records {
        room = room.saturating_add(8).saturating_add(payload_room(&r.body));
    }
    room
}
