ghost use Rattle.std.specs.Prelude.{◌≡◌, ◌≤◌, ◌<◌, ◌^◌, ◌-◌, [], ◌∷◌, ◌++◌, ℕ, All, IfOk, OnErr, OnOk, Some, fold, length, map, slice_get, sum, true};
ghost use Rattle.std.specs.List.{remove_range};
ghost use Rattle.dv_model.specs.Effects.{with_item};
ghost use Rattle.dv_blocks.specs.Chunks.{AreRising, IsPlace};
ghost use Rattle.dv_blocks.specs.Shared.{Rows, cut, with_due, with_flags, with_parts, with_set};

use crate::blocks::Blocks;
use crate::chunk::{Entry, Pending};
use crate::holding::{hold_row, let_go, put_rows};
use crate::numbers::{push_row, remove_rows, set_flags, set_parts, set_row};
use crate::row::RowView;
use crate::sets::{Held, places_of};
use dv_model::NoMemory;
use std::alloc::Global;
use std::marker::Model;

/// The rows of a mailbox by rising UID, in blocks of columns. Rows with equal keywords share one
/// set of them, where it is found. Contracts see the rows as a list.
#[derive(Drop)]
pub struct BlockRows {
    alloc: Global,
    sizes: Vec<u16>,
    blocks: Blocks,
    sets: Vec<Held>,
    free: Vec<u32>,
    held: Vec<Pending>,
}

impl Model for BlockRows {
    ghost use Rattle.std.specs.Prelude.{map};
    ghost use Rattle.dv_blocks.specs.Shared.{AreKept, Rows, due_of, row_of};

    ghost Value = { Rows };

    ghost view = { λ r. record {
      sizes = r.sizes.items;
      rows = map (row_of r.sets.items r.sizes.items) r.blocks.cells;
      held = map (due_of r.sets.items) r.held.items;
    } };

    ghost invariant = { λ r. AreKept r.held.items r.sets.items r.sizes.items r.blocks };
}

impl BlockRows {
    /// No rows, with one part of each of these sizes. Takes no memory.
    pub fn new(alloc: Global, sizes: Vec<u16>) -> BlockRows
        requires { sum sizes.items < 2 ^ 32 }
        ensures { result ≡ record { sizes = sizes.items; rows = []; held = [] } }
    {
        let width = total(&sizes);
        BlockRows {
            alloc,
            sizes,
            blocks: Blocks::new(alloc, width),
            sets: Vec::new(alloc),
            free: Vec::new(alloc),
            held: Vec::new(alloc),
        }
    }

    /// The number of rows.
    pub fn len(&self) -> u32
        ensures is { result ≡ length self.now.rows }
        ensures rising { AreRising (map (λ row. row.uid) self.now.rows) }
    {
        self.blocks.len()
    }

    /// The row at a place, counted from 0.
    pub fn row(&self, at: u32) -> RowView<'_>
        requires { at < length self.now.rows }
        ensures { slice_get self.now.rows at ≡ Some result }
    {
        let entry = self.blocks.entry(at);
        RowView {
            uid: entry.uid,
            flags: entry.flags,
            modseq: entry.modseq,
            keywords: places_of(&self.sets, entry.words),
            parts: self.blocks.part(at),
            sizes: &self.sizes,
        }
    }

    /// The place of the first row whose UID isn't below this, found by halves.
    pub fn place_from(&self, uid: u32) -> u32
        ensures is { IsPlace (map (λ row. row.uid) self.now.rows) uid result }
        ensures inside { result ≤ length self.now.rows }
    {
        self.blocks.place_from(uid)
    }

    /// How many bytes the parts of a row are.
    pub fn width(&self) -> usize
        ensures { result ≡ sum self.now.sizes }
    {
        self.blocks.width()
    }

    /// Whether a UID is above that of each row.
    pub fn is_above(&self, uid: u32) -> bool
        ensures above { result ≡ true → All (λ row. row.uid < uid) self.now.rows }
        ensures only { All (λ row. row.uid < uid) self.now.rows → result ≡ true }
    {
        self.blocks.place_from(uid) == self.blocks.len()
    }

    /// Adds a row at the end, with its parts one after another. After `NoMemory` all is as before.
    pub fn push(
        &mut self,
        uid: u32,
        flags: u8,
        keywords: &[u32],
        parts: &[u8],
        modseq: u64,
    ) -> Result<(), NoMemory>
        requires above { All (λ row. row.uid < uid) self.old.rows }
        requires below { uid < 2 ^ 32 - 1 }
        requires width { length parts.now ≡ sum self.old.sizes }
        ensures ok { OnOk result (self.new ≡ record {
          sizes = self.old.sizes;
          held = self.old.held;
          rows = self.old.rows ++ record {
            uid = uid;
            flags = flags;
            keywords = keywords.now;
            parts = cut self.old.sizes parts.now;
            modseq = modseq;
          } ∷ [];
        }) }
        ensures err { OnErr result (self.new ≡ self.old) }
    {
        let row = Entry {
            uid,
            flags,
            modseq,
            words: 0,
        };
        push_row(
            self.alloc,
            &mut self.blocks,
            &mut self.sets,
            &mut self.free,
            row,
            keywords,
            parts,
        )
    }

    /// Gives the row at a place these flags, this modification sequence and these keywords. After
    /// `NoMemory` all is as before.
    pub fn set(&mut self, at: u32, flags: u8, modseq: u64, keywords: &[u32]) -> Result<(), NoMemory>
        requires { at < length self.old.rows }
        ensures ok { OnOk result (self.new ≡ record {
          sizes = self.old.sizes;
          held = self.old.held;
          rows = with_item at (with_set flags modseq keywords.now) self.old.rows;
        }) }
        ensures err { OnErr result (self.new ≡ self.old) }
    {
        set_row(
            self.alloc,
            &mut self.blocks,
            &mut self.sets,
            &mut self.free,
            at,
            flags,
            modseq,
            keywords,
        )
    }

    /// Holds these keywords for the row at a place: all memory that the row takes with them. After
    /// `NoMemory` all is as before.
    pub fn hold(&mut self, at: u32, keywords: &[u32]) -> Result<(), NoMemory>
        ensures ok { OnOk result (self.new ≡ record {
          sizes = self.old.sizes;
          rows = self.old.rows;
          held = self.old.held ++ record { at = at; keywords = keywords.now } ∷ [];
        }) }
        ensures err { OnErr result (self.new ≡ self.old) }
    {
        hold_row(
            self.alloc,
            &mut self.sets,
            &mut self.free,
            &mut self.held,
            at,
            keywords,
        )
    }

    /// Gives rows the keywords that are held for them, in their order, and this modification
    /// sequence, without memory.
    pub fn put(&mut self, modseq: u64)
        ensures { self.new ≡ record {
          sizes = self.old.sizes;
          rows = fold (with_due modseq) self.old.rows self.old.held;
          held = [];
        } }
    {
        put_rows(
            self.alloc,
            &mut self.blocks,
            self.sets.as_mut_slice(),
            &mut self.free,
            &self.held,
            modseq,
        );
        self.held = Vec::new(self.alloc);
    }

    /// Lets go of the keywords that are held for rows, without memory.
    pub fn let_go(&mut self)
        ensures { self.new ≡ record {
          sizes = self.old.sizes;
          rows = self.old.rows;
          held = [];
        } }
    {
        let_go(
            self.alloc,
            self.sets.as_mut_slice(),
            &mut self.free,
            &self.held,
        );
        self.held = Vec::new(self.alloc);
    }

    /// Gives the row at a place these flags and this modification sequence, without memory.
    pub fn set_flags(&mut self, at: u32, flags: u8, modseq: u64)
        requires { at < length self.old.rows }
        ensures { self.new ≡ record {
          sizes = self.old.sizes;
          held = self.old.held;
          rows = with_item at (with_flags flags modseq) self.old.rows;
        } }
    {
        set_flags(&mut self.blocks, at, flags, modseq);
    }

    /// Gives the row at a place these parts, one after another, without memory.
    pub fn set_parts(&mut self, at: u32, parts: &[u8])
        requires inside { at < length self.old.rows }
        requires width { length parts.now ≡ sum self.old.sizes }
        ensures { self.new ≡ record {
          sizes = self.old.sizes;
          held = self.old.held;
          rows = with_item at (with_parts (cut self.old.sizes parts.now)) self.old.rows;
        } }
    {
        set_parts(&mut self.blocks, at, parts);
    }

    /// Puts the rows into full blocks, where many have left. They stay; where there is no memory
    /// for it, so do their blocks.
    pub fn tighten(&mut self)
        ensures { self.new ≡ self.old }
    {
        self.blocks.tighten();
    }

    /// Removes the rows from one place to another, without memory. It costs by the rows that leave,
    /// their blocks and the number of blocks.
    pub fn remove(&mut self, from: u32, to: u32)
        requires order { from ≤ to }
        requires inside { to ≤ length self.old.rows }
        ensures { self.new ≡ record {
          sizes = self.old.sizes;
          held = self.old.held;
          rows = remove_range self.old.rows from to;
        } }
    {
        remove_rows(
            self.alloc,
            &mut self.blocks,
            self.sets.as_mut_slice(),
            &mut self.free,
            from,
            to,
        );
    }
}

// The sum of the sizes.
fn total(sizes: &[u16]) -> usize
    requires { sum sizes.now < 2 ^ 32 }
    ensures { result ≡ sum sizes.now }
{
    let mut width = 0;
    for size in sizes {
        width += usize::from(*size);
    }
    width
}
