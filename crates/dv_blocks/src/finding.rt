ghost use Rattle.std.specs.Prelude.{◌≡◌, ◌<◌, ◌^◌, length, ℕ, List};
ghost use Rattle.dv_blocks.specs.Chunks.{AreBlocks, AreCounted, IsIn, IsPlace, cells_of, uids_of};
ghost use Rattle.dv_blocks.specs.declared.chunk.Chunk.{Chunk};

use crate::chunk::Chunk;

/// The block of the row at a place, and its place there, found by halves.
pub fn place_in(starts: &[u32], at: usize) -> (usize, usize)
    requires { (cs : List Chunk) × AreCounted starts.now cs × (at < length (cells_of cs)) }
    ensures { (cs : List Chunk) → AreCounted starts.now cs → at < length (cells_of cs) →
        IsIn cs at result.0 result.1 }
{
    let behind = starts.partition_point(|start| *start as usize <= at);
    let block = behind - 1;
    (block, at - starts[block] as usize)
}

/// How many rows there are.
pub fn count(starts: &[u32], chunks: &[Chunk]) -> usize
    requires counted { AreCounted starts.now chunks.now }
    requires few { length (cells_of chunks.now) < 2 ^ 32 }
    ensures { result ≡ length (cells_of chunks.now) }
{
    let blocks = chunks.len();
    if blocks == 0 {
        return 0;
    }
    starts[blocks - 1] as usize + chunks[blocks - 1].block.len()
}

/// The place of the first row whose UID isn't below this, found by halves.
pub fn place_from(starts: &[u32], chunks: &[Chunk], uid: u32) -> usize
    requires { (w : ℕ) × AreBlocks w starts.now chunks.now }
    ensures { IsPlace (uids_of chunks.now) uid result }
{
    let behind = chunks.partition_point(|chunk| chunk.first <= uid);
    if behind == 0 {
        return 0;
    }
    let block = &chunks[behind - 1].block;
    starts[behind - 1] as usize + block.uids().partition_point(|known| *known < uid)
}
