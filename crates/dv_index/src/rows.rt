ghost use Rattle.std.specs.Prelude.{◌≡◌, ◌<◌, ◌*◌, ◌++◌, ◌∷◌, All, flat_map, length, map, IfOk, OnOk};
ghost use Rattle.std.specs.Int.{w32, w64, to_le_bytes};
ghost use Rattle.std.specs.List.{range_with_len};
ghost use Rattle.std.specs.List.Sorted.{IsStrictlyIncreasing};
ghost use Rattle.dv_model.specs.Mailboxes.{IsRowOf};
ghost use Rattle.dv_formats.specs.Snapshots.{AreBytes, filled, keyword_word, keyword_words, row_text};

use crate::words::{write_filled, write_words};
use dv_model::{Bytes, Mailbox, NoMemory, Row};
use std::alloc::{AllocError, Global};

/// One word for each 32 keywords begun.
pub fn keyword_words(names: usize) -> usize
    ensures { result ≡ keyword_words names }
{
    names / 32 + usize::from(names % 32 != 0)
}

/// So many words, in which the bits at these places are set.
pub fn words_of(alloc: Global, count: usize, places: &[u32]) -> Result<Vec<u32>, AllocError>
    requires rising { IsStrictlyIncreasing places.now }
    requires below { All (λ k. k < 32 * count) places.now }
    ensures { IfOk result (λ words.
        words.items ≡ map (keyword_word places.now) (range_with_len 0 count)) }
{
    let mut words = vec![in alloc; 0; count]?;
    for place in places {
        let at = *place as usize / 32;
        let bit = 1 << (*place % 32);
        words[at] += bit;
    }
    Ok(words)
}

fn write_parts(parts: &[Bytes], out: &mut Bytes) -> Result<(), NoMemory>
    ensures text { OnOk result (out.new ≡ out.old ++ flat_map filled parts.now) }
    ensures fits { OnOk result (All AreBytes parts.now) }
{
    for part in parts {
        write_filled(part.as_slice(), out)?;
    }
    Ok(())
}

// The front of a row, which each row has.
fn row_front(uid: u32, flags: u8, modseq: u64) -> [u8; 16]
    ensures text { result ≡ to_le_bytes w32 uid
        ++ flags ∷ 0 ∷ 0 ∷ 0 ∷ to_le_bytes w64 modseq }
    ensures flags { flags < 256 }
{
    let [a, b, c, d] = uid.to_le_bytes();
    let [e, f, g, h, i, j, k, l] = modseq.to_le_bytes();
    [a, b, c, d, flags, 0, 0, 0, e, f, g, h, i, j, k, l]
}

/// Adds a row of the mailbox, in the layout of version 2.
pub fn write_row(alloc: Global, m: &Mailbox, row: &Row, out: &mut Bytes) -> Result<(), NoMemory>
    requires { IsRowOf m.now row.now }
    ensures text { OnOk result (out.new ≡ out.old ++ row_text 2 m.now row.now) }
    ensures flags { OnOk result (row.now.flags < 256) }
    ensures parts { OnOk result (All AreBytes row.now.parts) }
{
    let count = keyword_words(m.keywords.len());
    let words = words_of(alloc, count, row.keywords.as_slice())?;
    out.extend(&row_front(row.uid, row.flags, row.modseq))?;
    write_words(&words, out)?;
    write_parts(row.parts.as_slice(), out)
}

/// Adds rows of the mailbox, in the layout of version 2.
pub fn write_rows(alloc: Global, m: &Mailbox, rows: &[Row], out: &mut Bytes) -> Result<(), NoMemory>
    requires { All (IsRowOf m.now) rows.now }
    ensures text { OnOk result (out.new ≡ out.old ++ flat_map (row_text 2 m.now) rows.now) }
    ensures flags { OnOk result (All (λ row. row.flags < 256) rows.now) }
    ensures parts { OnOk result (All (λ row. All AreBytes row.parts) rows.now) }
{
    for row in rows {
        write_row(alloc, m, row, out)?;
    }
    Ok(())
}
