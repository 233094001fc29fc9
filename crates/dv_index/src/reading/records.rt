ghost use Rattle.std.specs.Prelude.{◌≡◌, ◌≤◌, ◌<◌, ◌+◌, ◌*◌, ◌^◌, ℕ, List, length, take, drop, IfOk, IfSome, IfNone};
ghost use Rattle.dv_model.specs.declared.types.Row.{Row};
ghost use Rattle.dv_formats.specs.Snapshots.{row_size};
ghost use Rattle.dv_formats.specs.SnapshotFaults.{AreRecords, HasRecords, IsRecord, version_at, word_at};
ghost use Rattle.dv_index.specs.Reading.{HasModseq, IsShaped, OnCheck};

use super::failed;
use super::keywords::read_places;
use super::parts::read_parts;
use crate::fault::IndexEnd;
use crate::rows::keyword_words;
use crate::words::are_zero;
use dv_model::{List, Mailbox, Row};
use dv_num::{u32_at, u64_at};
use std::alloc::Global;

// The modification sequence of a record, which version 1 lacks, and what follows it.
fn read_modseq(version: u8, highest: u64, bytes: &[u8]) -> Option<(u64, &[u8])>
    requires version { (1 ≤ version) × (version ≤ 2) }
    requires highest { 1 ≤ highest }
    requires long { 8 * version ≤ length bytes.now }
    ensures some { IfSome result (λ x. HasModseq version highest x.0 x.1.now bytes.now) }
    ensures none { IfNone result ((modseq : ℕ) (rest : List ℕ)
        → HasModseq version highest modseq rest bytes.now
        → ⊥) }
{
    if version == 1 {
        let (_, rest) = bytes.split_at(8);
        return Some((1, rest));
    }
    let (_, rest) = bytes.split_at(16);
    let modseq = u64_at(bytes, 8);
    if modseq == 0 || modseq > highest {
        return None;
    }
    Some((modseq, rest))
}

// The row of a record.
fn read_record(alloc: Global, version: u8, head: &Mailbox, bytes: &[u8]) -> Result<Row, IndexEnd>
    requires shaped { IsShaped version head.now }
    requires long { length bytes.now ≡ row_size version head.now }
    ensures found { IfOk result (λ row. IsRecord version head.now row bytes.now) }
    ensures check { OnCheck result 6 ((row : Row) → IsRecord version head.now row bytes.now → ⊥) }
{
    let names = head.keywords.len();
    if bytes[5] != 0 || bytes[6] != 0 || bytes[7] != 0 {
        return Err(failed(6));
    }
    let Some((modseq, rest)) = read_modseq(version, head.highest, bytes) else {
        return Err(failed(6));
    };
    let (bits, rest) = rest.split_at(4 * keyword_words(names));
    Ok(Row {
        uid: u32_at(bytes, 0),
        flags: bytes[4],
        keywords: read_places(alloc, names as u32, bits)?,
        parts: read_parts(alloc, head.extensions.as_slice(), rest)?,
        modseq,
    })
}

/// The rows of the records, into a mailbox of these tables.
pub fn read_records(alloc: Global, b: &[u8], head: &Mailbox) -> Result<List<Row>, IndexEnd>
    requires shaped { IsShaped (version_at b.now) head.now }
    requires size { word_at 8 b.now ≡ row_size (version_at b.now) head.now }
    requires long { length b.now ≡ word_at 4 b.now + word_at 8 b.now * word_at 32 b.now }
    requires header { 120 ≤ length b.now }
    ensures found { IfOk result (λ rows. AreRecords head.now rows b.now) }
    ensures check { OnCheck result 6 (HasRecords head.now b.now → ⊥) }
{
    let version = b[1];
    let size = u32_at(b, 8) as usize;
    let count = u32_at(b, 32);
    let mut rows = List::from_vec(Vec::with_capacity(alloc, count as usize)?);
    let mut at = u32_at(b, 4) as usize;
    for _ in 0..count {
        let (_, behind) = b.split_at(at);
        let (record, _) = behind.split_at(size);
        rows.push(read_record(alloc, version, head, record)?)?;
        at += size;
    }
    Ok(rows)
}
