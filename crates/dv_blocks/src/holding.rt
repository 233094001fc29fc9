ghost use Rattle.std.specs.Prelude.{◌≡◌, ◌<◌, ℕ, List, [], ◌∷◌, ◌++◌, OnErr, OnOk, fold, map};
ghost use Rattle.dv_blocks.specs.Cells.{Cell};
ghost use Rattle.dv_blocks.specs.Shared.{AreShared, due_of, row_of, with_due};
ghost use Rattle.dv_blocks.specs.declared.chunk.Pending.{Pending};
ghost use Rattle.dv_blocks.specs.declared.sets.Held.{Held};

use crate::blocks::Blocks;
use crate::chunk::Pending;
use crate::sets::{Held, hold, release};
use dv_model::NoMemory;
use std::alloc::Global;

/// Holds these keywords for the row at a place. After `NoMemory` all is as before.
pub fn hold_row(
    alloc: Global,
    sets: &mut Vec<Held>,
    free: &mut Vec<u32>,
    held: &mut Vec<Pending>,
    at: u32,
    keywords: &[u32],
) -> Result<(), NoMemory>
    ensures shared { (cells : List Cell) →
        AreShared held.old.items sets.old.items cells →
        AreShared held.new.items sets.new.items cells }
    ensures rows { (cells : List Cell) (sizes : List ℕ) →
        AreShared held.old.items sets.old.items cells →
        map (row_of sets.new.items sizes) cells ≡ map (row_of sets.old.items sizes) cells }
    ensures ok { (cells : List Cell) → AreShared held.old.items sets.old.items cells →
        OnOk result (map (due_of sets.new.items) held.new.items
        ≡ map (due_of sets.old.items) held.old.items
        ++ record { at = at; keywords = keywords.now } ∷ []) }
    ensures err { OnErr result (map (due_of sets.new.items) held.new.items
        ≡ map (due_of sets.old.items) held.old.items) }
{
    held.reserve(1)?;
    let words = hold(alloc, sets, free, keywords)?;
    held.push_reserved(Pending { at, words });
    Ok(())
}

// Gives a row the set that is held for it, and this modification sequence.
fn put_one(
    alloc: Global,
    blocks: &mut Blocks,
    sets: &mut [Held],
    free: &mut Vec<u32>,
    next: Pending,
    modseq: u64,
)
    requires { (hs : List Pending) × AreShared (next ∷ hs) sets.old blocks.old.cells }
    ensures width { blocks.new.width ≡ blocks.old.width }
    ensures shared { (hs : List Pending) → AreShared (next ∷ hs) sets.old blocks.old.cells →
        AreShared hs sets.new blocks.new.cells }
    ensures held { (hs : List Pending) → AreShared (next ∷ hs) sets.old blocks.old.cells →
        map (due_of sets.new) hs ≡ map (due_of sets.old) hs }
    ensures rows { (sizes : List ℕ) → map (row_of sets.new sizes) blocks.new.cells
        ≡ with_due modseq (map (row_of sets.old sizes) blocks.old.cells)
        (due_of sets.old next) }
{
    if next.at >= blocks.len() {
        release(alloc, sets, free, next.words);
        return;
    }
    let entry = blocks.entry(next.at);
    blocks.set(next.at, entry.flags, modseq, next.words);
    release(alloc, sets, free, entry.words);
}

/// Gives rows the sets that are held for them, and this modification sequence, without memory.
pub fn put_rows(
    alloc: Global,
    blocks: &mut Blocks,
    sets: &mut [Held],
    free: &mut Vec<u32>,
    held: &[Pending],
    modseq: u64,
)
    requires { AreShared held.now sets.old blocks.old.cells }
    ensures width { blocks.new.width ≡ blocks.old.width }
    ensures shared { AreShared [] sets.new blocks.new.cells }
    ensures rows { (sizes : List ℕ) → map (row_of sets.new sizes) blocks.new.cells
        ≡ fold (with_due modseq) (map (row_of sets.old sizes) blocks.old.cells)
        (map (due_of sets.old) held.now) }
{
    for at in 0..held.len() {
        put_one(alloc, blocks, sets, free, held[at], modseq);
    }
}

/// Lets go of the sets that are held for rows, without memory.
pub fn let_go(alloc: Global, sets: &mut [Held], free: &mut Vec<u32>, held: &[Pending])
    requires { (cells : List Cell) × AreShared held.now sets.old cells }
    ensures shared { (cells : List Cell) → AreShared held.now sets.old cells →
        AreShared [] sets.new cells }
    ensures rows { (cells : List Cell) (sizes : List ℕ) → AreShared held.now sets.old cells →
        map (row_of sets.new sizes) cells ≡ map (row_of sets.old sizes) cells }
{
    for at in 0..held.len() {
        release(alloc, sets, free, held[at].words);
    }
}
