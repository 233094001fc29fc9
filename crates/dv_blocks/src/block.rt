ghost use Rattle.std.specs.Prelude.{◌≡◌, ◌+◌, ◌<◌, ◌≤◌, ◌^◌, [], ◌∷◌, ◌++◌, length, map, slice_get, IfOk, OnErr, OnOk, Some, vec_len, vec_capacity};
ghost use Rattle.std.specs.List.{remove_range};
ghost use Rattle.dv_model.specs.Effects.{with_item};
ghost use Rattle.dv_blocks.specs.Cells.{Cells, with_part, with_values};

use crate::columns::remove_run;
use crate::parts::Parts;
use dv_model::NoMemory;
use std::alloc::Global;
use std::marker::Model;

/// Some rows, of which each column stands by itself.
#[derive(Drop)]
pub struct Block {
    uids: Vec<u32>,
    flags: Vec<u8>,
    modseqs: Vec<u64>,
    words: Vec<u32>,
    parts: Parts,
}

impl Model for Block {
    ghost use Rattle.dv_blocks.specs.Cells.{AreColumns, Cells, beside};

    ghost Value = { Cells };

    ghost view = { λ b. record {
      width = b.parts.width;
      cells = beside b.uids.items b.flags.items b.modseqs.items b.words.items b.parts.items;
    } };

    ghost invariant = { λ b. AreColumns
        b.uids.items b.flags.items b.modseqs.items b.words.items b.parts.items
        (beside b.uids.items b.flags.items b.modseqs.items b.words.items b.parts.items) };
}

// Makes room for one item more in each column.
fn reserve(
    uids: &mut Vec<u32>,
    flags: &mut Vec<u8>,
    modseqs: &mut Vec<u64>,
    words: &mut Vec<u32>,
) -> Result<(), NoMemory>
    ensures uids { uids.new.items ≡ uids.old.items }
    ensures flags { flags.new.items ≡ flags.old.items }
    ensures modseqs { modseqs.new.items ≡ modseqs.old.items }
    ensures words { words.new.items ≡ words.old.items }
    ensures uids_room { OnOk result (vec_len uids.new < vec_capacity uids.new) }
    ensures flags_room { OnOk result (vec_len flags.new < vec_capacity flags.new) }
    ensures modseqs_room { OnOk result (vec_len modseqs.new < vec_capacity modseqs.new) }
    ensures words_room { OnOk result (vec_len words.new < vec_capacity words.new) }
{
    uids.reserve(1)?;
    flags.reserve(1)?;
    modseqs.reserve(1)?;
    words.reserve(1)?;
    Ok(())
}

impl Block {
    /// No rows.
    pub fn new(alloc: Global, width: usize) -> Block
        ensures { result ≡ record { width = width; cells = [] } }
    {
        Block {
            uids: Vec::new(alloc),
            flags: Vec::new(alloc),
            modseqs: Vec::new(alloc),
            words: Vec::new(alloc),
            parts: Parts::new(alloc, width),
        }
    }

    /// No rows, with memory for so many.
    pub fn with_room(alloc: Global, width: usize, rows: usize) -> Result<Block, NoMemory>
        ensures { IfOk result (λ made. made ≡ record { width = width; cells = [] }) }
    {
        Ok(Block {
            uids: Vec::with_capacity(alloc, rows)?,
            flags: Vec::with_capacity(alloc, rows)?,
            modseqs: Vec::with_capacity(alloc, rows)?,
            words: Vec::with_capacity(alloc, rows)?,
            parts: Parts::with_room(alloc, width, rows)?,
        })
    }

    /// Whether the rows could do with four fifths of the memory.
    pub fn is_loose(&self) -> bool {
        self.uids.capacity() / 5 > self.uids.len() / 4
    }

    /// How many bytes of parts each row has.
    pub fn width(&self) -> usize
        ensures { result ≡ self.now.width }
    {
        self.parts.width()
    }

    /// The UIDs of the rows.
    pub fn uids(&self) -> &[u32]
        ensures { result.now ≡ map (λ c. c.uid) self.now.cells }
    {
        &self.uids
    }

    /// The flags of the rows.
    pub fn flags(&self) -> &[u8]
        ensures { result.now ≡ map (λ c. c.flags) self.now.cells }
    {
        &self.flags
    }

    /// The modification sequences of the rows.
    pub fn modseqs(&self) -> &[u64]
        ensures { result.now ≡ map (λ c. c.modseq) self.now.cells }
    {
        &self.modseqs
    }

    /// The numbers of the rows' sets of keywords.
    pub fn words(&self) -> &[u32]
        ensures { result.now ≡ map (λ c. c.words) self.now.cells }
    {
        &self.words
    }

    /// The parts of a row.
    pub fn part(&self, at: usize) -> &[u8]
        requires { at < length self.now.cells }
        ensures is { slice_get (map (λ c. c.part) self.now.cells) at ≡ Some result.now }
        ensures width { length result.now ≡ self.now.width }
    {
        self.parts.get(at)
    }

    /// Adds a row. After `NoMemory` all is as before.
    pub fn push(
        &mut self,
        uid: u32,
        flags: u8,
        modseq: u64,
        words: u32,
        part: &[u8],
    ) -> Result<(), NoMemory>
        requires width { length part.now ≡ self.old.width }
        requires few { length self.old.cells + 1 < 2 ^ 64 }
        ensures ok { OnOk result (self.new ≡ record {
          width = self.old.width;
          cells = self.old.cells ++ record {
            uid = uid;
            flags = flags;
            modseq = modseq;
            words = words;
            part = part.now;
          } ∷ [];
        }) }
        ensures err { OnErr result (self.new ≡ self.old) }
    {
        reserve(
            &mut self.uids,
            &mut self.flags,
            &mut self.modseqs,
            &mut self.words,
        )?;
        self.parts.push(part)?;
        self.uids.push_reserved(uid);
        self.flags.push_reserved(flags);
        self.modseqs.push_reserved(modseq);
        self.words.push_reserved(words);
        Ok(())
    }

    /// Gives a row these flags, this modification sequence and this set of keywords.
    pub fn set(&mut self, at: usize, flags: u8, modseq: u64, words: u32)
        requires { at < length self.old.cells }
        ensures { self.new ≡ record {
          width = self.old.width;
          cells = with_item at (with_values flags modseq words) self.old.cells;
        } }
    {
        self.flags[at] = flags;
        self.modseqs[at] = modseq;
        self.words[at] = words;
    }

    /// Gives a row other parts.
    pub fn set_part(&mut self, at: usize, part: &[u8])
        requires inside { at < length self.old.cells }
        requires width { length part.now ≡ self.old.width }
        ensures { self.new ≡ record {
          width = self.old.width;
          cells = with_item at (with_part part.now) self.old.cells;
        } }
    {
        self.parts.put(at, part);
    }

    /// The number of rows.
    pub fn len(&self) -> usize
        ensures { result ≡ length self.now.cells }
    {
        self.uids.len()
    }

    /// Removes the rows from one place to another.
    pub fn remove(&mut self, from: usize, to: usize)
        requires order { from ≤ to }
        requires inside { to ≤ length self.old.cells }
        ensures { self.new ≡ record {
          width = self.old.width;
          cells = remove_range self.old.cells from to;
        } }
    {
        remove_run(&mut self.uids, from, to);
        remove_run(&mut self.flags, from, to);
        remove_run(&mut self.modseqs, from, to);
        remove_run(&mut self.words, from, to);
        self.parts.remove(from, to);
    }
}
