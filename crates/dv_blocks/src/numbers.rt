ghost use Rattle.std.specs.Prelude.{◌≡◌, ◌≤◌, ◌<◌, ◌^◌, ◌-◌, ℕ, List, [], ◌∷◌, ◌++◌, All, OnErr, OnOk, length, map};
ghost use Rattle.std.specs.List.{between, remove_range};
ghost use Rattle.dv_model.specs.Effects.{with_item};
ghost use Rattle.dv_blocks.specs.Shared.{AreLess, AreShared, cut, due_of, row_of, with_flags, with_parts, with_set};
ghost use Rattle.dv_blocks.specs.declared.chunk.Pending.{Pending};
ghost use Rattle.dv_blocks.specs.declared.sets.Held.{Held};

use crate::blocks::Blocks;
use crate::chunk::Entry;
use crate::sets::{Held, hold, release};
use dv_model::NoMemory;
use std::alloc::Global;

/// Adds a row with these keywords. After `NoMemory` the rows are as before.
pub fn push_row(
    alloc: Global,
    blocks: &mut Blocks,
    sets: &mut Vec<Held>,
    free: &mut Vec<u32>,
    row: Entry,
    keywords: &[u32],
    part: &[u8],
) -> Result<(), NoMemory>
    requires shared { (hs : List Pending) × AreShared hs sets.old.items blocks.old.cells }
    requires above { All (λ c. c.uid < row.uid) blocks.old.cells }
    requires below { row.uid < 2 ^ 32 - 1 }
    requires width { length part.now ≡ blocks.old.width }
    ensures shared { (hs : List Pending) → AreShared hs sets.old.items blocks.old.cells →
        AreShared hs sets.new.items blocks.new.cells }
    ensures held { (hs : List Pending) → AreShared hs sets.old.items blocks.old.cells →
        map (due_of sets.new.items) hs ≡ map (due_of sets.old.items) hs }
    ensures width { blocks.new.width ≡ blocks.old.width }
    ensures ok { OnOk result ((sizes : List ℕ) →
        map (row_of sets.new.items sizes) blocks.new.cells
        ≡ map (row_of sets.old.items sizes) blocks.old.cells
        ++ record {
          uid = row.uid;
          flags = row.flags;
          keywords = keywords.now;
          parts = cut sizes part.now;
          modseq = row.modseq;
        } ∷ []) }
    ensures err { OnErr result ((sizes : List ℕ) →
        map (row_of sets.new.items sizes) blocks.new.cells
        ≡ map (row_of sets.old.items sizes) blocks.old.cells) }
{
    let number = hold(alloc, sets, free, keywords)?;
    let row = Entry {
        uid: row.uid,
        flags: row.flags,
        modseq: row.modseq,
        words: number,
    };
    match blocks.push(row, part) {
        Ok(()) => Ok(()),
        Err(e) => {
            release(alloc, sets.as_mut_slice(), free, number);
            Err(e)
        }
    }
}

/// Gives the row at a place these flags, this modification sequence and these keywords. After
/// `NoMemory` the rows are as before.
pub fn set_row(
    alloc: Global,
    blocks: &mut Blocks,
    sets: &mut Vec<Held>,
    free: &mut Vec<u32>,
    at: u32,
    flags: u8,
    modseq: u64,
    keywords: &[u32],
) -> Result<(), NoMemory>
    requires shared { (hs : List Pending) × AreShared hs sets.old.items blocks.old.cells }
    requires inside { at < length blocks.old.cells }
    ensures shared { (hs : List Pending) → AreShared hs sets.old.items blocks.old.cells →
        AreShared hs sets.new.items blocks.new.cells }
    ensures held { (hs : List Pending) → AreShared hs sets.old.items blocks.old.cells →
        map (due_of sets.new.items) hs ≡ map (due_of sets.old.items) hs }
    ensures width { blocks.new.width ≡ blocks.old.width }
    ensures ok { OnOk result ((sizes : List ℕ) →
        map (row_of sets.new.items sizes) blocks.new.cells
        ≡ with_item at (with_set flags modseq keywords.now)
        (map (row_of sets.old.items sizes) blocks.old.cells)) }
    ensures err { OnErr result ((sizes : List ℕ) →
        map (row_of sets.new.items sizes) blocks.new.cells
        ≡ map (row_of sets.old.items sizes) blocks.old.cells) }
{
    let number = hold(alloc, sets, free, keywords)?;
    let old = blocks.entry(at).words;
    blocks.set(at, flags, modseq, number);
    release(alloc, sets.as_mut_slice(), free, old);
    Ok(())
}

/// Gives the row at a place these flags and this modification sequence, without memory.
pub fn set_flags(blocks: &mut Blocks, at: u32, flags: u8, modseq: u64)
    requires { at < length blocks.old.cells }
    ensures width { blocks.new.width ≡ blocks.old.width }
    ensures shared { (hs : List Pending) (sets : List Held) →
        AreShared hs sets blocks.old.cells → AreShared hs sets blocks.new.cells }
    ensures rows { (sets : List Held) (sizes : List ℕ) →
        map (row_of sets sizes) blocks.new.cells
        ≡ with_item at (with_flags flags modseq) (map (row_of sets sizes) blocks.old.cells) }
{
    let words = blocks.entry(at).words;
    blocks.set(at, flags, modseq, words);
}

/// Gives the row at a place these parts, without memory.
pub fn set_parts(blocks: &mut Blocks, at: u32, part: &[u8])
    requires inside { at < length blocks.old.cells }
    requires width { length part.now ≡ blocks.old.width }
    ensures width { blocks.new.width ≡ blocks.old.width }
    ensures shared { (hs : List Pending) (sets : List Held) →
        AreShared hs sets blocks.old.cells → AreShared hs sets blocks.new.cells }
    ensures rows { (sets : List Held) (sizes : List ℕ) →
        map (row_of sets sizes) blocks.new.cells
        ≡ with_item at (with_parts (cut sizes part.now))
        (map (row_of sets sizes) blocks.old.cells) }
{
    blocks.set_part(at, part);
}

// A row less has the set of each row from one place to another.
fn release_rows(
    alloc: Global,
    blocks: &Blocks,
    sets: &mut [Held],
    free: &mut Vec<u32>,
    from: u32,
    to: u32,
)
    requires shared { (hs : List Pending) × AreShared hs sets.old blocks.now.cells }
    requires order { from ≤ to }
    requires inside { to ≤ length blocks.now.cells }
    ensures { AreLess sets.old sets.new (between from to blocks.now.cells) }
{
    for at in from..to {
        let number = blocks.entry(at).words;
        release(alloc, sets, free, number);
    }
}

/// Removes the rows from one place to another, without memory.
pub fn remove_rows(
    alloc: Global,
    blocks: &mut Blocks,
    sets: &mut [Held],
    free: &mut Vec<u32>,
    from: u32,
    to: u32,
)
    requires shared { (hs : List Pending) × AreShared hs sets.old blocks.old.cells }
    requires order { from ≤ to }
    requires inside { to ≤ length blocks.old.cells }
    ensures shared { (hs : List Pending) → AreShared hs sets.old blocks.old.cells →
        AreShared hs sets.new blocks.new.cells }
    ensures held { (hs : List Pending) → AreShared hs sets.old blocks.old.cells →
        map (due_of sets.new) hs ≡ map (due_of sets.old) hs }
    ensures width { blocks.new.width ≡ blocks.old.width }
    ensures rows { (sizes : List ℕ) → map (row_of sets.new sizes) blocks.new.cells
        ≡ remove_range (map (row_of sets.old sizes) blocks.old.cells) from to }
{
    release_rows(alloc, blocks, sets, free, from, to);
    blocks.remove(from, to);
}
