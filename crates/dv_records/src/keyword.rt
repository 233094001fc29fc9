ghost use Rattle.std.specs.Prelude.{List, ℕ, ◌≡◌, ◌↔◌, ◌+◌, length, take, drop, IsTrue, IfSome, IfNone};
ghost use Rattle.dv_model.specs.Names.{IsName, IsNameByte};
ghost use Rattle.dv_model.specs.Spelling.{how_code};
ghost use Rattle.dv_records.specs.Faults.{IsBodyOf};
ghost use Rattle.dv_records.specs.Fronts.{Reads, IsKeywordFront};
ghost use Rattle.dv_model.specs.declared.types.How.{How};

use crate::fault::DecodeEnd;
use crate::items::{BAD, padded};
use crate::lists::read_all;
use dv_model::{Body, Bytes, How, List};
use dv_num::u16_at;
use std::alloc::Global;

fn how_of(modify_type: u8) -> Option<How>
    ensures some { IfSome result (λ how. how_code how ≡ modify_type) }
    ensures none { IfNone result ((how : How) → how_code how ≡ modify_type → ⊥) }
{
    match modify_type {
        0 => Some(How::Add),
        1 => Some(How::Remove),
        2 => Some(How::Replace),
        _ => None,
    }
}

fn is_name_byte(byte: u8) -> bool
    ensures { IsTrue result ↔ IsNameByte byte }
{
    0x21 <= byte && byte <= 0x7e && !b"(){\"\\%*".contains(&byte)
}

/// Whether these bytes are a keyword's name: an atom of at most 255 bytes (RFC 3501, section 9).
pub fn is_name(name: &[u8]) -> bool
    ensures { IsTrue result ↔ IsName name.now }
{
    if name.is_empty() || name.len() > 255 {
        return false;
    }
    for byte in name {
        if !is_name_byte(*byte) {
            return false;
        }
    }
    true
}

/// What is done, the name, and how many bytes they take in front of the ranges.
pub fn front_of(bytes: &[u8]) -> Option<(How, &[u8], usize)>
    ensures some { IfSome result (λ x. IsKeywordFront x.0 x.1.now x.2 bytes.now) }
    ensures none { IfNone result ((how : How) (name : List ℕ) (size : ℕ) →
        IsKeywordFront how name size bytes.now → ⊥) }
{
    if bytes.len() < 4 {
        return None;
    }
    let how = how_of(bytes[0])?;
    let len = usize::from(u16_at(bytes, 2));
    let size = padded(4 + len);
    if bytes.len() < size {
        return None;
    }
    let name = &bytes[4..4 + len];
    if !is_name(name) {
        return None;
    }
    Some((how, name, size))
}

// The same, with a copy of the name.
fn read_front(alloc: Global, bytes: &[u8]) -> Result<(How, Bytes, usize), DecodeEnd>
    ensures { Reads (λ x. IsKeywordFront x.0 x.1 x.2 bytes.now) result }
{
    let (how, name, size) = front_of(bytes).ok_or(BAD)?;
    Ok((how, List::from_slice(alloc, name)?, size))
}

/// The keyword update of these bytes.
#[tactic(auto, using(crate::proofs::Fronts::pair_reads))]
pub fn read_keyword(alloc: Global, bytes: &[u8]) -> Result<Body, DecodeEnd>
    ensures { Reads (IsBodyOf 0x400 bytes.now) result }
{
    let (how, name, size) = read_front(alloc, bytes)?;
    let (_, ranges) = bytes.split_at(size);
    let pairs = read_all(alloc, ranges)?;
    Ok(Body::KeywordUpdate { how, name, pairs })
}
