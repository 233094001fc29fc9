ghost use Rattle.std.specs.Prelude.{◌≡◌, ◌<◌, ℕ, All, get_or, length};
ghost use Rattle.dv_blocks.specs.Cells.{Cell};
ghost use Rattle.dv_blocks.specs.Chunks.{AreCounted, IsChunk, IsEntry, cells_of};

use crate::chunk::{Chunk, Entry};
use crate::finding::place_in;

/// The row at a place, without its parts.
pub fn entry(starts: &[u32], chunks: &[Chunk], at: usize) -> Entry
    requires counted { AreCounted starts.now chunks.now }
    requires inside { at < length (cells_of chunks.now) }
    ensures { (d : Cell) → IsEntry result (get_or (cells_of chunks.now) at d) }
{
    let (block, offset) = place_in(starts, at);
    let block = &chunks[block].block;
    Entry {
        uid: block.uids()[offset],
        flags: block.flags()[offset],
        modseq: block.modseqs()[offset],
        words: block.words()[offset],
    }
}

/// The parts of the row at a place.
pub fn part<'a>(starts: &[u32], chunks: &'a [Chunk], at: usize) -> &'a [u8]
    requires counted { AreCounted starts.now chunks.now }
    requires inside { at < length (cells_of chunks.now) }
    ensures is { (d : Cell) → result.now ≡ (get_or (cells_of chunks.now) at d).part }
    ensures width { (w : ℕ) → All (IsChunk w) chunks.now → length result.now ≡ w }
{
    let (block, offset) = place_in(starts, at);
    chunks[block].block.part(offset)
}
