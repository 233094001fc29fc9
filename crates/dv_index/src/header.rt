ghost use Rattle.std.specs.Prelude.{◌≡◌, [], ℕ, List, ◌+◌, ◌*◌, ◌^◌, ◌<◌, ◌≤◌, ◌++◌, IfSome, flat_map, count_by, length, nat_eq, bit_and, not, sum_by, OnOk};
ghost use Rattle.std.specs.Int.{w32, to_le_bytes};
ghost use Rattle.dv_model.specs.Mailboxes.{IsValid};
ghost use Rattle.dv_model.specs.Spelling.{padded};
ghost use Rattle.dv_formats.specs.Snapshots.{current_text, header_text, row_size, tables_text};
ghost use Rattle.dv_index.specs.Fronts.{HasCounts, with_rows};

use crate::rows::keyword_words;
use crate::tally::Tally;
use crate::words::{padding, write_words};
use dv_model::{Bytes, Current, Extension, Mailbox, Mark, NoMemory, Row};

// The flag bits that the header counts.
pub const DELETED: u8 = 0x04;

pub const SEEN: u8 = 0x08;

/// How many of these rows have a flag.
pub fn count_with(bit: u8, rows: &[Row]) -> u32
    requires { length rows.now < 2 ^ 32 }
    ensures { result ≡ count_by (λ row. not (nat_eq (bit_and row.flags bit) 0)) rows.now }
{
    rows.iter().filter(|row| row.flags & bit != 0).count() as u32
}

// How many bytes of each row the parts take.
fn parts_size(extensions: &[Extension]) -> usize
    requires { length extensions.now ≤ 16 }
    ensures is { result ≡ sum_by (λ e. padded e.record_size) extensions.now }
    ensures few { result ≤ 16 * 65538 }
{
    let mut size = 0;
    for extension in extensions {
        let bytes = usize::from(extension.record_size);
        size += bytes + padding(bytes);
    }
    size
}

/// The number of bytes of each row, in the layout of version 2.
pub fn row_size(m: &Mailbox) -> u32
    requires names { length m.now.keywords < 2 ^ 32 }
    requires extensions { length m.now.extensions ≤ 16 }
    ensures { result ≡ row_size 2 m.now }
{
    let keywords = 4 * keyword_words(m.keywords.len());
    (16 + keywords + parts_size(m.extensions.as_slice())) as u32
}

/// The place of the current extension plus 1 and its size, or twice 0.
pub fn current_words(current: Option<Current>) -> [u32; 2]
    requires { IfSome current (λ c. c.extension < 16) }
    ensures { flat_map (to_le_bytes w32) result ≡ current_text current }
{
    match current {
        None => [0, 0],
        Some(current) => [current.extension + 1, u32::from(current.size)],
    }
}

/// Adds the header of a snapshot in the layout of version 2, before tables of so many bytes. The
/// mailbox's rows aren't looked at: only their counts.
pub fn write_header(
    m: &Mailbox,
    counts: Tally,
    indexid: u32,
    mark: Mark,
    tables: u32,
    out: &mut Bytes,
) -> Result<(), NoMemory>
    requires valid { IsValid (with_rows [] m.now) }
    requires tables { tables ≡ length (tables_text m.now) }
    requires room { 120 + tables < 2 ^ 32 }
    ensures text { OnOk result ((rows : List Row) → HasCounts counts rows →
        out.new ≡ out.old ++ header_text 2 (with_rows rows m.now) indexid mark) }
    ensures fits { OnOk result (m.now.uid_validity < 2 ^ 32) }
{
    out.extend(&[201, 2, 120, 0])?;
    write_words(&[120 + tables, row_size(m), 0], out)?;
    write_words(&[indexid, 0, m.uid_validity, m.next_uid], out)?;
    write_words(&[counts.rows, mark.file_seq, mark.offset], out)?;
    let keywords = m.keywords.len() as u32;
    write_words(&[keywords, m.extensions.len() as u32], out)?;
    write_words(&current_words(m.current), out)?;
    write_words(&[counts.seen, counts.deleted], out)?;
    out.extend(&m.highest.to_le_bytes())?;
    out.extend(&[0; 44])?;
    Ok(())
}
