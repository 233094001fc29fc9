ghost use Rattle.std.specs.Prelude.{◌≡◌, ◌+◌, ◌<◌, ◌^◌, ◌++◌, ℕ, All, IfOk, IfSome, OnOk, get_or, length};
ghost use Rattle.dv_model.specs.Effects.{with_item};
ghost use Rattle.dv_blocks.specs.Chunks.{AreBlocks, IsChunk, cells_of};
ghost use Rattle.dv_blocks.specs.declared.chunk.Chunk.{Chunk};

use crate::adding::CAPACITY;
use crate::block::Block;
use crate::chunk::Chunk;
use crate::columns::remove_run;
use dv_model::NoMemory;
use std::alloc::Global;

// Adds the rows of a block to those of another.
fn copy_rows(made: &mut Block, block: &Block) -> Result<(), NoMemory>
    requires width { block.now.width ≡ made.old.width }
    requires few { length made.old.cells + length block.now.cells < 2 ^ 64 }
    ensures { OnOk result (made.new ≡ record {
      width = made.old.width;
      cells = made.old.cells ++ block.now.cells;
    }) }
{
    let uids = block.uids();
    let flags = block.flags();
    let modseqs = block.modseqs();
    let words = block.words();
    for at in 0..block.len() {
        made.push(uids[at], flags[at], modseqs[at], words[at], block.part(at))?;
    }
    Ok(())
}

// A block with the same rows, which takes no more memory than they do.
fn fitted(alloc: Global, block: &Block) -> Result<Block, NoMemory>
    ensures { IfOk result (λ made. made ≡ block.now) }
{
    let mut made = Block::with_room(alloc, block.width(), block.len())?;
    copy_rows(&mut made, block)?;
    Ok(made)
}

// A block with the rows of two.
fn joined(alloc: Global, block: &Block, next: &Block) -> Result<Block, NoMemory>
    requires width { next.now.width ≡ block.now.width }
    requires few { length block.now.cells + length next.now.cells < 2 ^ 64 }
    ensures { IfOk result (λ made. made ≡ record {
      width = block.now.width;
      cells = block.now.cells ++ next.now.cells;
    }) }
{
    let mut made = Block::with_room(alloc, block.width(), block.len() + next.len())?;
    copy_rows(&mut made, block)?;
    copy_rows(&mut made, next)?;
    Ok(made)
}

// Makes a block anew that has much room left, where there is memory for it.
fn fit(alloc: Global, chunks: &mut [Chunk], at: usize)
    ensures { chunks.new ≡ chunks.old }
{
    if at >= chunks.len() || !chunks[at].block.is_loose() {
        return;
    }
    if let Ok(made) = fitted(alloc, &chunks[at].block) {
        chunks[at].block = made;
    }
}

// A block with the rows of two neighbours that one can hold, where there is memory for it.
fn joined_at(alloc: Global, chunks: &[Chunk], at: usize) -> Option<Block>
    requires { (w : ℕ) × All (IsChunk w) chunks.now }
    ensures { IfSome result (λ made. (at + 1 < length chunks.now) × ((d : Chunk) →
        made ≡ record {
          width = (get_or chunks.now at d).block.width;
          cells = (get_or chunks.now at d).block.cells
              ++ (get_or chunks.now (at + 1) d).block.cells;
        })) }
{
    if at >= chunks.len() || chunks.len() - at < 2 {
        return None;
    }
    let block = &chunks[at].block;
    let next = &chunks[at + 1].block;
    if block.len() >= CAPACITY || next.len() > CAPACITY - block.len() {
        return None;
    }
    match joined(alloc, block, next) {
        Ok(made) => Some(made),
        Err(_) => None,
    }
}

// Puts a block in the place of one.
fn put_block(chunks: &mut [Chunk], at: usize, block: Block)
    requires { at < length chunks.old }
    ensures { chunks.new
        ≡ with_item at (λ c. record { first = c.first; block = block }) chunks.old }
{
    chunks[at].block = block;
}

// Makes one block of two neighbours that one can hold, where there is memory for it.
fn join(alloc: Global, starts: &mut Vec<u32>, chunks: &mut Vec<Chunk>, at: usize)
    requires { (w : ℕ) × AreBlocks w starts.old.items chunks.old.items }
    ensures cells { cells_of chunks.new.items ≡ cells_of chunks.old.items }
    ensures are { (w : ℕ) → AreBlocks w starts.old.items chunks.old.items →
        AreBlocks w starts.new.items chunks.new.items }
{
    let Some(made) = joined_at(alloc, chunks, at) else {
        return;
    };
    put_block(chunks.as_mut_slice(), at, made);
    drop(chunks.remove(at + 1));
    remove_run(starts, at + 1, at + 2);
}

/// Where rows have left: a block that has much room left is made anew, and two neighbours that one
/// block can hold become one, where there is memory for it.
pub fn settle(alloc: Global, starts: &mut Vec<u32>, chunks: &mut Vec<Chunk>, place: usize)
    requires { (w : ℕ) × AreBlocks w starts.old.items chunks.old.items }
    ensures cells { cells_of chunks.new.items ≡ cells_of chunks.old.items }
    ensures are { (w : ℕ) → AreBlocks w starts.old.items chunks.old.items →
        AreBlocks w starts.new.items chunks.new.items }
{
    let behind = starts.partition_point(|start| *start as usize <= place);
    let block = behind.saturating_sub(1);
    let before = block.saturating_sub(1);
    join(alloc, starts, chunks, block);
    join(alloc, starts, chunks, before);
    join(alloc, starts, chunks, before.saturating_sub(1));
    fit(alloc, chunks.as_mut_slice(), block);
    fit(alloc, chunks.as_mut_slice(), before);
}
