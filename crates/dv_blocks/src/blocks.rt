ghost use Rattle.std.specs.Prelude.{◌≡◌, ◌≤◌, ◌<◌, ◌-◌, ◌^◌, [], ◌∷◌, ◌++◌, All, get_or, length, map, IfOk, OnErr, OnOk};
ghost use Rattle.std.specs.List.{remove_range};
ghost use Rattle.dv_model.specs.Effects.{with_item};
ghost use Rattle.dv_blocks.specs.Cells.{Cell, Cells, with_part, with_values};
ghost use Rattle.dv_blocks.specs.Chunks.{AreRising, IsEntry, IsPlace, cell_of};

use crate::adding::push;
use crate::changing::{set, set_part};
use crate::chunk::{Chunk, Entry};
use crate::finding::{count, place_from};
use crate::joining::settle;
use crate::reading::{entry, part};
use crate::removing::remove;
use dv_model::NoMemory;
use std::alloc::Global;
use std::marker::Model;

/// Rows by rising UID, in blocks of columns. The parts of each have one length. Contracts see the
/// rows as a list.
#[derive(Drop)]
pub struct Blocks {
    alloc: Global,
    width: usize,
    // The number of rows before each block.
    starts: Vec<u32>,
    chunks: Vec<Chunk>,
}

impl Model for Blocks {
    ghost use Rattle.dv_blocks.specs.Cells.{Cells};

    ghost Value = { Cells };

    ghost use Rattle.dv_blocks.specs.Chunks.{AreBlocks, cells_of};

    ghost view = { λ b. record { width = b.width; cells = cells_of b.chunks.items } };

    ghost invariant = { λ b. AreBlocks b.width b.starts.items b.chunks.items };
}

impl Blocks {
    /// No rows, each of which has so many bytes of parts. Takes no memory.
    pub fn new(alloc: Global, width: usize) -> Blocks
        ensures { result ≡ record { width = width; cells = [] } }
    {
        Blocks {
            alloc,
            width,
            starts: Vec::new(alloc),
            chunks: Vec::new(alloc),
        }
    }

    /// How many bytes of parts each row has.
    pub fn width(&self) -> usize
        ensures { result ≡ self.now.width }
    {
        self.width
    }

    /// The number of rows.
    pub fn len(&self) -> u32
        ensures is { result ≡ length self.now.cells }
        ensures rising { AreRising (map (λ c. c.uid) self.now.cells) }
    {
        count(&self.starts, &self.chunks) as u32
    }

    /// The row at a place, counted from 0, without its parts.
    pub fn entry(&self, at: u32) -> Entry
        requires { at < length self.now.cells }
        ensures { (d : Cell) → IsEntry result (get_or self.now.cells at d) }
    {
        entry(&self.starts, &self.chunks, at as usize)
    }

    /// The parts of the row at a place, one after another.
    pub fn part(&self, at: u32) -> &[u8]
        requires { at < length self.now.cells }
        ensures is { (d : Cell) → result.now ≡ (get_or self.now.cells at d).part }
        ensures width { length result.now ≡ self.now.width }
    {
        part(&self.starts, &self.chunks, at as usize)
    }

    /// The place of the first row whose UID isn't below this, found by halves.
    pub fn place_from(&self, uid: u32) -> u32
        ensures is { IsPlace (map (λ c. c.uid) self.now.cells) uid result }
        ensures inside { result ≤ length self.now.cells }
    {
        place_from(&self.starts, &self.chunks, uid) as u32
    }

    /// Adds a row at the end. After `NoMemory` all is as before.
    pub fn push(&mut self, row: Entry, part: &[u8]) -> Result<(), NoMemory>
        requires above { All (λ c. c.uid < row.uid) self.old.cells }
        requires below { row.uid < 2 ^ 32 - 1 }
        requires width { length part.now ≡ self.old.width }
        ensures ok { OnOk result (self.new ≡ record {
          width = self.old.width;
          cells = self.old.cells ++ cell_of row part.now ∷ [];
        }) }
        ensures err { OnErr result (self.new ≡ self.old) }
    {
        push(self.alloc, &mut self.starts, &mut self.chunks, row, part)
    }

    /// Gives the row at a place these flags, this modification sequence and this set of keywords.
    pub fn set(&mut self, at: u32, flags: u8, modseq: u64, words: u32)
        requires { at < length self.old.cells }
        ensures { self.new ≡ record {
          width = self.old.width;
          cells = with_item at (with_values flags modseq words) self.old.cells;
        } }
    {
        set(
            &self.starts,
            &mut self.chunks,
            at as usize,
            flags,
            modseq,
            words,
        );
    }

    /// Gives the row at a place these parts.
    pub fn set_part(&mut self, at: u32, part: &[u8])
        requires inside { at < length self.old.cells }
        requires width { length part.now ≡ self.old.width }
        ensures { self.new ≡ record {
          width = self.old.width;
          cells = with_item at (with_part part.now) self.old.cells;
        } }
    {
        set_part(&self.starts, &mut self.chunks, at as usize, part);
    }

    /// Removes the rows from one place to another, without memory. It costs by their blocks, and
    /// one pass over the numbers of rows before the blocks. Where there is memory, a block that has
    /// much room left is made anew, and two neighbours that one block can hold become one.
    pub fn remove(&mut self, from: u32, to: u32)
        requires { from ≤ to }
        ensures { self.new ≡ record {
          width = self.old.width;
          cells = remove_range self.old.cells from to;
        } }
    {
        remove(
            &mut self.starts,
            &mut self.chunks,
            from as usize,
            to as usize,
        );
        settle(
            self.alloc,
            &mut self.starts,
            &mut self.chunks,
            from as usize,
        );
    }

    // The same rows in blocks that are full.
    fn compacted(&self) -> Result<Blocks, NoMemory>
        ensures { IfOk result (λ made. made ≡ self.now) }
    {
        let mut made = Blocks::new(self.alloc, self.width);
        for at in 0..self.len() {
            made.push(self.entry(at), self.part(at))?;
        }
        Ok(made)
    }

    /// Puts the rows into full blocks, where many have left. The rows stay; where there is no
    /// memory for it, so do their blocks.
    pub fn tighten(&mut self)
        ensures { self.new ≡ self.old }
    {
        if let Ok(made) = self.compacted() {
            *self = made;
        }
    }
}
