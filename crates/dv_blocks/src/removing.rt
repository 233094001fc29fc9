ghost use Rattle.std.specs.Prelude.{◌≡◌, ◌≤◌, ◌<◌, ◌^◌, ℕ, All, false, filter, length, map, true};
ghost use Rattle.std.specs.List.{remove_range};
ghost use Rattle.dv_blocks.specs.Chunks.{AreBlocks, AreChunks, AreCounted, cells_of, has_rows, left_from, left_in, lowered, noted, starts_from};

use crate::chunk::Chunk;
use crate::finding::{count, place_in};

// Notes the first UID of a block, and tells whether there is one.
fn note(chunk: &mut Chunk) -> bool
    ensures is { chunk.new ≡ noted chunk.old }
    ensures filled { result ≡ true → has_rows chunk.new ≡ true }
{
    match chunk.block.uids().first() {
        Some(uid) => {
            chunk.first = *uid;
            true
        }
        None => {
            chunk.first = 0;
            false
        }
    }
}

// Removes the rows from one place of a block to another, as far as it has them. Tells how many it
// had, and whether it has one still.
fn remove_from(chunk: &mut Chunk, from: usize, to: usize) -> (usize, bool)
    requires { from ≤ to }
    ensures count { result.0 ≡ length chunk.old.block.cells }
    ensures is { chunk.new ≡ left_in from to chunk.old }
    ensures filled { result.1 ≡ true → has_rows chunk.new ≡ true }
{
    let rows = chunk.block.len();
    if from < rows {
        chunk.block.remove(from, to.min(rows));
    }
    (rows, note(chunk))
}

// Removes the rows from one place of all to another, each from its block. Tells whether each block
// has a row still.
fn remove_rows(starts: &[u32], chunks: &mut [Chunk], from: usize, to: usize) -> bool
    requires counted { AreCounted starts.now chunks.old }
    requires are { (w : ℕ) × AreChunks w chunks.old }
    requires order { from < to }
    requires inside { to ≤ length (cells_of chunks.old) }
    ensures is { chunks.new ≡ left_from from to chunks.old }
    ensures filled { result ≡ true → All (λ c. has_rows c ≡ true) chunks.new }
{
    let (first, offset) = place_in(starts, from);
    let (last, _) = place_in(starts, to - 1);
    let mut low = offset;
    let mut high = offset + (to - from);
    let mut filled = true;
    for at in first..last + 1 {
        let (rows, more) = remove_from(&mut chunks[at], low, high);
        low = low.saturating_sub(rows);
        high = high.saturating_sub(rows);
        filled = filled && more;
    }
    filled
}

// Takes away blocks without rows.
fn drop_empty(chunks: &mut Vec<Chunk>)
    ensures { chunks.new.items ≡ filter has_rows chunks.old.items }
{
    chunks.retain(|chunk| chunk.block.len() > 0);
}

// The number of rows before a block, where these have left.
fn lower_one(start: u32, from: u32, to: u32) -> u32
    requires { from ≤ to }
    ensures { result ≡ lowered from to start }
{
    start.min(from) + start.saturating_sub(to)
}

// The same of each block.
fn lower(starts: &mut [u32], from: u32, to: u32)
    requires { from ≤ to }
    ensures { starts.new ≡ map (lowered from to) starts.old }
{
    for at in 0..starts.len() {
        let number = lower_one(starts[at], from, to);
        starts[at] = number;
    }
}

// Counts the rows before each block anew.
fn recount(starts: &mut [u32], chunks: &[Chunk])
    requires many { length starts.old ≡ length chunks.now }
    requires few { length (cells_of chunks.now) < 2 ^ 32 }
    ensures { starts.new ≡ starts_from 0 chunks.now }
{
    let mut rows = 0;
    for at in 0..chunks.len() {
        starts[at] = rows as u32;
        rows += chunks[at].block.len();
    }
}

// Takes away blocks without rows, and counts the rows before the others anew.
fn close(starts: &mut Vec<u32>, chunks: &mut Vec<Chunk>)
    requires many { length chunks.old.items ≤ length starts.old.items }
    requires few { length (cells_of chunks.old.items) < 2 ^ 32 }
    ensures chunks { chunks.new.items ≡ filter has_rows chunks.old.items }
    ensures starts { starts.new.items ≡ starts_from 0 (filter has_rows chunks.old.items) }
{
    drop_empty(chunks);
    starts.truncate(chunks.len());
    recount(starts.as_mut_slice(), chunks);
}

/// Removes the rows from one place to another, without memory. It costs by their blocks, and one
/// pass over the numbers of rows before the blocks.
pub fn remove(starts: &mut Vec<u32>, chunks: &mut Vec<Chunk>, from: usize, to: usize)
    requires are { (w : ℕ) × AreBlocks w starts.old.items chunks.old.items }
    requires order { from ≤ to }
    ensures cells { cells_of chunks.new.items
        ≡ remove_range (cells_of chunks.old.items) from to }
    ensures are { (w : ℕ) → AreBlocks w starts.old.items chunks.old.items →
        AreBlocks w starts.new.items chunks.new.items }
{
    let to = to.min(count(starts, chunks));
    if from >= to {
        return;
    }
    if remove_rows(starts, chunks.as_mut_slice(), from, to) {
        lower(starts.as_mut_slice(), from as u32, to as u32);
        return;
    }
    close(starts, chunks);
}
