ghost use Rattle.std.specs.Prelude.{◌≡◌, ◌+◌, ◌≤◌, ◌↔◌, length, IsTrue, IfOk, IfSome, IfNone, Some};
ghost use Rattle.dv_cache.specs.Finding.{HasHeader, HasEntry, IsRowAt, word_at};
ghost use Rattle.dv_cache.specs.declared.row.CacheRow.{CacheRow};

use crate::fields::read_fields;
use crate::{CacheRow, Known};
use dv_model::NoMemory;
use dv_num::u32_at;
use std::alloc::Global;

// Whether the file begins with the header of this indexid and sequence and has its length.
fn has_header(b: &[u8], indexid: u32, seq: u32) -> bool
    ensures { IsTrue result ↔ HasHeader indexid seq b.now }
{
    if b.len() < 32 || !b.starts_with(b"dvca\x01\0\0\0") {
        return false;
    }
    if u32_at(b, 8) != indexid || u32_at(b, 12) != seq {
        return false;
    }
    u32_at(b, 20) as usize == b.len()
}

// Whether the entry of this UID stands at the offset, with a place of fields.
fn has_entry(b: &[u8], uid: u32, offset: u32) -> bool
    requires { 32 ≤ length b.now }
    ensures { IsTrue result ↔ HasEntry uid offset b.now }
{
    let at = offset as usize;
    if at < 32 || at % 16 != 0 || (at - 32) / 16 >= u32_at(b, 16) as usize {
        return false;
    }
    if b.len() < at + 16 || u32_at(b, at) != uid {
        return false;
    }
    u32_at(b, at + 12) != 0
}

/// The row that a cache file has at an offset, where the file is of this indexid and sequence and
/// the row of this UID; `None` where there is no such row. `NoMemory` is the only error.
pub fn find(
    alloc: Global,
    b: &[u8],
    indexid: u32,
    seq: u32,
    uid: u32,
    offset: u32,
) -> Result<Option<CacheRow>, NoMemory>
    // What is found stands there.
    ensures found { IfOk result
        (λ o. IfSome o (λ row. IsRowAt b.now indexid seq uid offset row)) }
    // Nothing is found only where no row stands.
    ensures none { IfOk result
        (λ o. IfNone o ((row : CacheRow) → IsRowAt b.now indexid seq uid offset row → ⊥)) }
    // A row that stands there is found.
    ensures only { (row : CacheRow) → IsRowAt b.now indexid seq uid offset row
        → IfOk result (λ o. o ≡ Some row) }
{
    if !has_header(b, indexid, seq) || !has_entry(b, uid, offset) {
        return Ok(None);
    }
    let at = offset as usize;
    let place = u32_at(b, at + 12) as usize;
    if b.len() < place {
        return Ok(None);
    }
    let (_, rest) = b.split_at(place);
    let Some(fields) = read_fields(alloc, rest)? else {
        return Ok(None);
    };
    let known = Known {
        physical: u32_at(b, at + 4),
        virtual_size: u32_at(b, at + 8),
        fields,
    };
    Ok(Some(CacheRow {
        uid,
        known: Some(known),
    }))
}
