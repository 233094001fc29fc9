ghost use Rattle.std.specs.Prelude.{◌≡◌, ◌+◌, ◌-◌, ◌<◌, ◌^◌, [], ◌∷◌, ◌++◌, All, length, true, OnErr, OnOk};
ghost use Rattle.dv_model.specs.Effects.{with_item};
ghost use Rattle.dv_blocks.specs.Chunks.{AreBlocks, IsChunk, cell_of, cells_of, with_rows};

use crate::block::Block;
use crate::chunk::{Chunk, Entry};
use crate::finding::count;
use dv_model::NoMemory;
use std::alloc::Global;

/// A block has at most so many rows.
pub const CAPACITY: usize = 256;

// Whether the last block can have a row more.
fn has_room(chunks: &[Chunk]) -> bool
    ensures { result ≡ true → 0 < length chunks.now }
{
    match chunks.last() {
        Some(last) => last.block.len() < CAPACITY,
        None => false,
    }
}

// Adds a row to the last block.
fn push_last(chunks: &mut [Chunk], row: Entry, part: &[u8]) -> Result<(), NoMemory>
    requires some { 0 < length chunks.old }
    requires few { length (cells_of chunks.old) + 1 < 2 ^ 32 }
    requires wide { All (IsChunk (length part.now)) chunks.old }
    ensures ok { OnOk result (chunks.new
        ≡ with_item (length chunks.old - 1)
        (with_rows (λ cells. cells ++ cell_of row part.now ∷ [])) chunks.old) }
    ensures err { OnErr result (chunks.new ≡ chunks.old) }
{
    let last = chunks.len() - 1;
    let block = &mut chunks[last].block;
    block.push(row.uid, row.flags, row.modseq, row.words, part)
}

// Adds a block with a row.
fn push_block(
    alloc: Global,
    chunks: &mut Vec<Chunk>,
    row: Entry,
    part: &[u8],
) -> Result<(), NoMemory>
    ensures ok { OnOk result (chunks.new.items
        ≡ chunks.old.items
        ++ record {
          first = row.uid;
          block = record { width = length part.now; cells = cell_of row part.now ∷ [] };
        } ∷ []) }
    ensures err { OnErr result (chunks.new.items ≡ chunks.old.items) }
{
    let mut block = Block::new(alloc, part.len());
    block.push(row.uid, row.flags, row.modseq, row.words, part)?;
    chunks.push(Chunk {
        first: row.uid,
        block,
    })?;
    Ok(())
}

/// Adds a row at the end. After `NoMemory` all is as before.
pub fn push(
    alloc: Global,
    starts: &mut Vec<u32>,
    chunks: &mut Vec<Chunk>,
    row: Entry,
    part: &[u8],
) -> Result<(), NoMemory>
    requires are { AreBlocks (length part.now) starts.old.items chunks.old.items }
    requires above { All (λ c. c.uid < row.uid) (cells_of chunks.old.items) }
    requires below { row.uid < 2 ^ 32 - 1 }
    ensures cells { OnOk result (cells_of chunks.new.items
        ≡ cells_of chunks.old.items ++ cell_of row part.now ∷ []) }
    ensures are { OnOk result (AreBlocks (length part.now) starts.new.items chunks.new.items) }
    ensures starts { OnErr result (starts.new.items ≡ starts.old.items) }
    ensures chunks { OnErr result (chunks.new.items ≡ chunks.old.items) }
{
    if has_room(chunks) {
        return push_last(chunks.as_mut_slice(), row, part);
    }
    let start = count(starts, chunks) as u32;
    starts.reserve(1)?;
    push_block(alloc, chunks, row, part)?;
    starts.push_reserved(start);
    Ok(())
}
