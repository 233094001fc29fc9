ghost use Rattle.std.specs.Prelude.{All, ◌≡◌, ◌↔◌, ◌≤◌, ◌<◌, ◌+◌, ◌*◌, ◌^◌, ℕ, Option, length, IfSome, IfNone, IsTrue};
ghost use Rattle.dv_model.specs.declared.types.Current.{Current};
ghost use Rattle.dv_formats.specs.Snapshots.{row_size};
ghost use Rattle.dv_formats.specs.SnapshotFaults.{IsCurrent, IsInOrder, IsOrderFault, version_at, word_at};
ghost use Rattle.dv_formats.specs.SnapshotFaults.{Order};
ghost use Rattle.dv_index.specs.Reading.{HasCountsOf, IsShaped};

use crate::header::{DELETED, SEEN, count_with, row_size};
use dv_model::{Current, Extension, Mailbox, Row};
use dv_num::u32_at;

/// Whether the size of a record is that of a row of this mailbox.
pub fn has_row_size(b: &[u8], head: &Mailbox) -> bool
    requires header { 120 ≤ length b.now }
    requires shaped { IsShaped (version_at b.now) head.now }
    ensures { IsTrue result ↔ (word_at 8 b.now ≡ row_size (version_at b.now) head.now) }
{
    let modseq = if b[1] == 1 { 8 } else { 0 };
    u32_at(b, 8) as usize + modseq == row_size(head) as usize
}

/// Whether the text is as long as its header says.
pub fn has_length(b: &[u8]) -> bool
    requires { 120 ≤ length b.now }
    ensures { IsTrue result
        ↔ (length b.now ≡ word_at 4 b.now + word_at 8 b.now * word_at 32 b.now) }
{
    let rows = u64::from(u32_at(b, 8)) * u64::from(u32_at(b, 32));
    b.len() as u64 == u64::from(u32_at(b, 4)) + rows
}

/// The current extension.
pub fn read_current(b: &[u8], extensions: &[Extension]) -> Option<Option<Current>>
    requires header { 120 ≤ length b.now }
    requires few { length extensions.now ≤ 16 }
    requires short { All (λ e. e.record_size < 2 ^ 16) extensions.now }
    ensures some { IfSome result (λ current. IsCurrent extensions.now current b.now) }
    ensures none { IfNone result
        ((current : Option Current) → IsCurrent extensions.now current b.now → ⊥) }
{
    let place = u32_at(b, 52);
    let size = u32_at(b, 56);
    if place == 0 {
        return if size == 0 { Some(None) } else { None };
    }
    let extension = place - 1;
    if extension as usize >= extensions.len() {
        return None;
    }
    if size > u32::from(extensions[extension as usize].record_size) {
        return None;
    }
    let size = size as u16;
    Some(Some(Current { extension, size }))
}

/// Whether the header counts the rows that are seen and deleted.
pub fn has_flag_counts(b: &[u8], rows: &[Row]) -> bool
    requires few { length rows.now < 2 ^ 32 }
    requires header { 120 ≤ length b.now }
    ensures { IsTrue result ↔ HasCountsOf rows.now b.now }
{
    u32_at(b, 60) == count_with(SEEN, rows) && u32_at(b, 64) == count_with(DELETED, rows)
}

/// The place of the first record that isn't in order.
pub fn first_unordered(b: &[u8]) -> Option<u64>
    requires header { 120 ≤ length b.now }
    requires size { 8 ≤ word_at 8 b.now }
    requires long { length b.now ≡ word_at 4 b.now + word_at 8 b.now * word_at 32 b.now }
    ensures some { IfSome result (λ at. IsOrderFault (Order at) b.now) }
    ensures none { IfNone result ((k : ℕ) → k < word_at 32 b.now → IsInOrder k b.now) }
{
    let size = u32_at(b, 8) as usize;
    let next_uid = u32_at(b, 28);
    let mut at = u32_at(b, 4) as usize;
    let mut before = 0;
    for _ in 0..u32_at(b, 32) {
        let uid = u32_at(b, at);
        if uid <= before || next_uid <= uid {
            return Some(at as u64);
        }
        before = uid;
        at += size;
    }
    None
}
