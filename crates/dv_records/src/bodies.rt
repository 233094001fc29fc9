ghost use Rattle.std.specs.Prelude.{◌≡◌, ◌<◌, ◌%◌, ◌^◌, length, IsFalse};
ghost use Rattle.dv_records.specs.Faults.{IsBodyOf, lacks_guard};
ghost use Rattle.dv_records.specs.Fronts.{Reads};

use crate::fault::DecodeEnd;
use crate::items::BAD;
use crate::keyword::read_keyword;
use crate::lists::{read_all, read_some};
use crate::types;
use dv_model::{Body, List};
use dv_num::u32_at;
use std::alloc::Global;

fn read_reset(bytes: &[u8]) -> Result<Body, DecodeEnd>
    ensures { Reads (IsBodyOf 0x80 bytes.now) result }
{
    match bytes.len() {
        4 => Ok(Body::ExtReset {
            reset_id: u32_at(bytes, 0),
            preserve: 0,
        }),
        8 => Ok(Body::ExtReset {
            reset_id: u32_at(bytes, 0),
            preserve: bytes[4],
        }),
        _ => Err(BAD),
    }
}

/// The payload of a record of this code.
#[tactic(auto, using(crate::proofs::Fronts::pair_reads, crate::proofs::Fronts::new_row_reads, crate::proofs::Fronts::change_reads, crate::proofs::Fronts::guid_row_reads, crate::proofs::Fronts::part_reads, crate::proofs::Fronts::intro_reads))]
pub fn read_body(alloc: Global, code: u32, bytes: &[u8]) -> Result<Body, DecodeEnd>
    requires small { code < 2 ^ 28 }
    requires guarded { IsFalse (lacks_guard code) }
    requires whole { length bytes.now % 4 ≡ 0 }
    ensures { Reads (IsBodyOf code bytes.now) result }
{
    match code {
        types::EXPUNGE => Ok(Body::Expunge(read_all(alloc, bytes)?)),
        types::APPEND => Ok(Body::Append(read_all(alloc, bytes)?)),
        types::FLAG_UPDATE => Ok(Body::FlagUpdate(read_all(alloc, bytes)?)),
        types::HEADER_UPDATE => Ok(Body::HeaderUpdate(read_some(alloc, bytes)?)),
        types::EXT_INTRO => Ok(Body::ExtIntro(read_some(alloc, bytes)?)),
        types::EXT_RESET => read_reset(bytes),
        types::EXT_HEADER_UPDATE => Ok(Body::ExtHeaderUpdate(read_some(alloc, bytes)?)),
        types::EXT_RECORD_UPDATE => Ok(Body::ExtRecordUpdate(List::from_slice(alloc, bytes)?)),
        types::KEYWORD_UPDATE => read_keyword(alloc, bytes),
        types::KEYWORD_RESET => Ok(Body::KeywordReset(read_all(alloc, bytes)?)),
        types::EXPUNGE_GUID => Ok(Body::ExpungeGuid(read_all(alloc, bytes)?)),
        _ => Ok(Body::Carried {
            code,
            bytes: List::from_slice(alloc, bytes)?,
        }),
    }
}
