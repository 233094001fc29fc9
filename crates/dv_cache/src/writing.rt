ghost use Rattle.std.specs.Prelude.{◌≡◌, ◌+◌, ◌*◌, ◌++◌, ◌<◌, ◌≤◌, ◌^◌, [], ◌∷◌, All, List, ℕ, OnOk, IfOk, length};
ghost use Rattle.std.specs.Option.{option_map};
ghost use Rattle.dv_cache.specs.declared.row.CacheRow.{CacheRow};
ghost use Rattle.dv_cache.specs.Begun.{begun};
ghost use Rattle.dv_cache.specs.Caches.{cache_text, entry_text, first_place, fits, header_text, HasFive, kept, known_text, row_entry};

use crate::fields::{size_of, write_fields};
use crate::{CacheRow, Known};
use dv_model::{Bytes, List, NoMemory};
use std::alloc::Global;
use std::marker::Model;

// The largest size of a message that is kept.
const LARGEST_SIZE: u32 = 1 << 31;
// The most bytes that the fields of a message may have in sum.
const MOST_FIELD_BYTES: usize = 65_536;
// Where the last fields end at most.
const LAST_END: usize = 1 << 30;

// Whether these sizes and fields are kept, where the text of the fields begins at this place.
fn fit(at: usize, known: &Known) -> bool
    requires place { at ≤ 2 ^ 30 }
    requires five { length known.now.fields ≡ 5 }
    ensures { result ≡ fits at known.now }
{
    if known.physical > LARGEST_SIZE || known.virtual_size > LARGEST_SIZE {
        return false;
    }
    match size_of(known.fields.as_slice(), MOST_FIELD_BYTES) {
        Some(size) => at + 20 + size <= LAST_END,
        None => false,
    }
}

fn kept(at: usize, known: &Option<Known>) -> Option<&Known>
    requires place { at ≤ 2 ^ 30 }
    requires five { HasFive known.now }
    ensures { option_map (λ k. k.now) result ≡ kept at known.now }
{
    if let Some(known) = known
        && fit(at, known)
    {
        return Some(known);
    }
    None
}

fn write_entry(
    uid: u32,
    physical: u32,
    virtual_size: u32,
    place: u32,
    out: &mut Bytes,
) -> Result<(), NoMemory>
    ensures { OnOk result (out.new ≡ out.old ++ entry_text uid physical virtual_size place) }
{
    out.extend(&uid.to_le_bytes())?;
    out.extend(&physical.to_le_bytes())?;
    out.extend(&virtual_size.to_le_bytes())?;
    out.extend(&place.to_le_bytes())?;
    Ok(())
}

// Adds a row's entry, and its fields, whose text begins at this place.
fn write_row(
    at: usize,
    row: &CacheRow,
    entries: &mut Bytes,
    texts: &mut Bytes,
) -> Result<(), NoMemory>
    requires place { at ≤ 2 ^ 30 }
    requires five { HasFive row.now.known }
    ensures entries { OnOk result
        (entries.new ≡ entries.old ++ row_entry at row.now.uid (kept at row.now.known)) }
    ensures texts { OnOk result (texts.new ≡ texts.old ++ known_text (kept at row.now.known)) }
{
    let Some(known) = kept(at, &row.known) else {
        return write_entry(row.uid, 0, 0, 0, entries);
    };
    write_entry(
        row.uid,
        known.physical,
        known.virtual_size,
        at as u32,
        entries,
    )?;
    write_fields(known.fields.as_slice(), texts)
}

fn header(alloc: Global, indexid: u32, seq: u32, count: u32, size: u32) -> Result<Bytes, NoMemory>
    ensures { IfOk result (λ made. made ≡ header_text indexid seq count size) }
{
    let mut made = Bytes::from_slice(alloc, b"dvca\x01\0\0\0")?;
    write_entry(indexid, seq, count, size, &mut made)?;
    made.extend(&[0; 8])?;
    Ok(made)
}

/// The text of a cache file while its rows are added, one after another.
#[derive(Drop)]
pub struct CacheText {
    alloc: Global,
    first: usize,
    entries: Bytes,
    texts: Bytes,
}

impl Model for CacheText {
    ghost use Rattle.std.specs.Prelude.{◌+◌, ◌≤◌, length};
    ghost use Rattle.dv_cache.specs.Begun.{Begun};

    ghost Value = { Begun };

    ghost view = { λ t. record { first = t.first; entries = t.entries; texts = t.texts } };

    ghost invariant = { λ t. (32 ≤ t.first) × (t.first + length t.texts ≤ 1073741824) };
}

impl CacheText {
    /// The text of a file that gets so many rows, of which none is added yet. It takes no memory.
    pub fn begin(alloc: Global, count: u32) -> CacheText
        requires few { count ≤ 8388608 }
        ensures { result ≡ begun (32 + 16 * count) [] }
    {
        CacheText {
            alloc,
            first: 32 + 16 * count as usize,
            entries: Bytes::new(alloc),
            texts: Bytes::new(alloc),
        }
    }

    /// Adds a row. Its fields are five, where its message is known. After `NoMemory` the text is
    /// not to be used.
    pub fn add(&mut self, row: &CacheRow) -> Result<(), NoMemory>
        requires five { HasFive row.now.known }
        ensures { OnOk result ((first : ℕ) (rows : List CacheRow) →
            self.old ≡ begun first rows → self.new ≡ begun first (rows ++ row.now ∷ [])) }
    {
        let at = self.first + self.texts.len();
        let written = write_row(at, row, &mut self.entries, &mut self.texts);
        if written.is_err() {
            // A part of the row's fields may stand there.
            self.texts = Bytes::new(self.alloc);
        }
        written
    }

    /// The whole file, of the rows that were added, under the indexid of the mailbox and a
    /// sequence. `NoMemory` is the only error.
    pub fn finish(self, indexid: u32, seq: u32) -> Result<Bytes, NoMemory>
        ensures { (rows : List CacheRow) → self ≡ begun (first_place rows) rows →
            length rows ≤ 8388608 → IfOk result (λ text. text ≡ cache_text indexid seq rows) }
    {
        let CacheText {
            alloc,
            first,
            entries,
            texts,
        } = self;
        let count = (first - 32) / 16;
        let size = first + texts.len();
        let mut text = header(alloc, indexid, seq, count as u32, size as u32)?;
        text.extend(entries.as_slice())?;
        drop(entries);
        text.extend(texts.as_slice())?;
        Ok(text)
    }
}

/// The cache file of these rows, under the indexid of the mailbox and a sequence. The fields of
/// each row are five. `NoMemory` is the only error.
pub fn write(
    alloc: Global,
    indexid: u32,
    seq: u32,
    rows: &List<CacheRow>,
) -> Result<Bytes, NoMemory>
    requires five { All (λ (row : CacheRow). HasFive row.known) rows.now }
    requires few { length rows.now ≤ 8388608 }
    ensures { IfOk result (λ text. text ≡ cache_text indexid seq rows.now) }
{
    let mut text = CacheText::begin(alloc, rows.len() as u32);
    for row in rows.as_slice() {
        text.add(row)?;
    }
    text.finish(indexid, seq)
}
