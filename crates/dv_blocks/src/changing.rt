ghost use Rattle.std.specs.Prelude.{◌≡◌, ◌<◌, ℕ, length};
ghost use Rattle.dv_model.specs.Effects.{with_item};
ghost use Rattle.dv_blocks.specs.Cells.{with_part, with_values};
ghost use Rattle.dv_blocks.specs.Chunks.{AreChunks, AreCounted, cells_of};

use crate::chunk::Chunk;
use crate::finding::place_in;

/// Gives the row at a place these flags, this modification sequence and this set of keywords.
pub fn set(starts: &[u32], chunks: &mut [Chunk], at: usize, flags: u8, modseq: u64, words: u32)
    requires counted { AreCounted starts.now chunks.old }
    requires inside { at < length (cells_of chunks.old) }
    ensures cells { cells_of chunks.new
        ≡ with_item at (with_values flags modseq words) (cells_of chunks.old) }
    ensures are { (w : ℕ) → AreChunks w chunks.old → AreChunks w chunks.new }
    ensures counted { AreCounted starts.now chunks.new }
{
    let (block, offset) = place_in(starts, at);
    chunks[block].block.set(offset, flags, modseq, words);
}

/// Gives the row at a place these parts.
pub fn set_part(starts: &[u32], chunks: &mut [Chunk], at: usize, part: &[u8])
    requires counted { AreCounted starts.now chunks.old }
    requires inside { at < length (cells_of chunks.old) }
    requires width { AreChunks (length part.now) chunks.old }
    ensures cells { cells_of chunks.new
        ≡ with_item at (with_part part.now) (cells_of chunks.old) }
    ensures are { AreChunks (length part.now) chunks.new }
    ensures counted { AreCounted starts.now chunks.new }
{
    let (block, offset) = place_in(starts, at);
    chunks[block].block.set_part(offset, part);
}
