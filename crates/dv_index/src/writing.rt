ghost use Rattle.std.specs.Prelude.{◌≡◌, ◌↔◌, ◌+◌, ◌*◌, ◌++◌, ◌^◌, ◌<◌, ◌≤◌, [], List, IfOk, IsTrue, length, min};
ghost use Rattle.dv_model.specs.Mailboxes.{IsValid};
ghost use Rattle.dv_formats.specs.Snapshots.{Fits, IsSnapshot, header_text, row_size, tables_text};
ghost use Rattle.dv_index.specs.Fronts.{HasCounts, with_rows};

use crate::header::{row_size, write_header};
use crate::rows::write_rows;
use crate::tables::tables_text;
use crate::tally::{Tally, tally_of};
use dv_model::{Bytes, List, Mailbox, Mark, NoMemory, Row};
use std::alloc::Global;

// Whether the header and so many bytes of tables have a size of 32 bits.
fn has_room(tables: usize) -> bool
    ensures { IsTrue result ↔ (120 + tables < 2 ^ 32) }
{
    tables <= (u32::MAX - 120) as usize
}

// How many bytes a snapshot of so many rows has, with so many bytes of tables. Memory alone goes by
// it.
fn room_for(m: &Mailbox, counts: Tally, tables: usize) -> usize
    requires valid { IsValid (with_rows [] m.now) }
    requires tables { tables ≡ length (tables_text m.now) }
    requires room { 120 + tables < 2 ^ 32 }
    ensures { result ≡ min (counts.rows * row_size 2 m.now + tables + 120) usize.MAX }
{
    let rows = (counts.rows as usize).saturating_mul(row_size(m) as usize);
    rows.saturating_add(tables).saturating_add(120)
}

/// The front of a snapshot in the layout of version 2, behind which `write_row` adds each row. The
/// rows of this mailbox aren't looked at: only the counts. `NoMemory` is the only error; that is
/// the answer too where the header and the tables would pass 4294967295 bytes.
pub fn begin(
    alloc: Global,
    m: &Mailbox,
    counts: Tally,
    indexid: u32,
    mark: Mark,
) -> Result<Bytes, NoMemory>
    requires valid { IsValid (with_rows [] m.now) }
    requires named { 1 ≤ indexid }
    ensures text { IfOk result (λ text. (rows : List Row) → HasCounts counts rows →
        text ≡ header_text 2 (with_rows rows m.now) indexid mark ++ tables_text m.now) }
    ensures fits { IfOk result (λ _. Fits (with_rows [] m.now) indexid mark) }
{
    let tables = tables_text(alloc, m)?;
    if !has_room(tables.len()) {
        return Err(NoMemory);
    }
    let room = room_for(m, counts, tables.len());
    let mut text = List::from_vec(Vec::with_capacity(alloc, room)?);
    write_header(m, counts, indexid, mark, tables.len() as u32, &mut text)?;
    text.extend(tables.as_slice())?;
    Ok(text)
}

/// The text of the snapshot of a mailbox at a place of the log, in the layout of version 2;
/// `indexid` is the number that the log's header has. `NoMemory` is the only error; that is the
/// answer too where the header and the tables would pass 4294967295 bytes.
pub fn write(alloc: Global, m: &Mailbox, indexid: u32, mark: Mark) -> Result<Bytes, NoMemory>
    requires valid { IsValid m.now }
    requires named { 1 ≤ indexid }
    ensures { IfOk result (λ text. IsSnapshot 2 m.now indexid mark text) }
{
    let mut text = begin(alloc, m, tally_of(m), indexid, mark)?;
    write_rows(alloc, m, m.rows.as_slice(), &mut text)?;
    Ok(text)
}
