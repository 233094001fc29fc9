ghost use Rattle.std.specs.Prelude.{◌≡◌, ◌<◌, ◌≤◌, ◌+◌, ◌*◌, ◌^◌, [], ◌∷◌, ◌++◌, drop, length, slice_get, slice_set, take, IfOk, OnErr, OnOk, Some};
ghost use Rattle.std.specs.List.{remove_range};
ghost use Rattle.dv_blocks.specs.Cells.{Strings};

use crate::columns::remove_run;
use dv_model::NoMemory;
use std::alloc::Global;
use std::marker::Model;

/// Strings of bytes of one length, one after another.
#[derive(Drop)]
pub struct Parts {
    bytes: Vec<u8>,
    width: usize,
    count: usize,
}

impl Model for Parts {
    ghost use Rattle.std.specs.Prelude.{◌≡◌, ◌*◌, length};
    ghost use Rattle.dv_blocks.specs.Cells.{Strings, pieces};

    ghost Value = { Strings };

    ghost view = { λ p. record { width = p.width; items = pieces p.count p.width p.bytes.items } };

    ghost invariant = { λ p. length p.bytes.items ≡ p.count * p.width };
}

// The bytes of a string of this length at a place.
fn piece(bytes: &[u8], at: usize, width: usize) -> &[u8]
    requires { at * width + width ≤ length bytes.now }
    ensures { result.now ≡ take width (drop (at * width) bytes.now) }
{
    let (_, rest) = bytes.split_at(at * width);
    let (piece, _) = rest.split_at(width);
    piece
}

// Puts other bytes in their place.
fn put_piece(bytes: &mut [u8], at: usize, width: usize, part: &[u8])
    requires inside { at * width + width ≤ length bytes.old }
    requires width { length part.now ≡ width }
    ensures { bytes.new
        ≡ take (at * width) bytes.old ++ part.now ++ drop (at * width + width) bytes.old }
{
    let start = at * width;
    bytes[start..start + width].copy_from_slice(part);
}

fn put_piece_in(bytes: &mut Vec<u8>, at: usize, width: usize, part: &[u8])
    requires inside { at * width + width ≤ length bytes.old.items }
    requires width { length part.now ≡ width }
    ensures { bytes.new.items
        ≡ take (at * width) bytes.old.items
        ++ part.now ++ drop (at * width + width) bytes.old.items }
{
    put_piece(bytes.as_mut_slice(), at, width, part);
}

// Removes those of the strings from one place to another.
fn remove_pieces(bytes: &mut Vec<u8>, from: usize, to: usize, width: usize)
    requires order { from ≤ to }
    requires inside { to * width ≤ length bytes.old.items }
    ensures { bytes.new.items ≡ remove_range bytes.old.items (from * width) (to * width) }
{
    remove_run(bytes, from * width, to * width);
}

impl Parts {
    /// No strings, each of which has this length.
    pub fn new(alloc: Global, width: usize) -> Parts
        ensures { result ≡ record { width = width; items = [] } }
    {
        Parts {
            bytes: Vec::new(alloc),
            width,
            count: 0,
        }
    }

    /// No strings, with memory for so many.
    pub fn with_room(alloc: Global, width: usize, count: usize) -> Result<Parts, NoMemory>
        ensures { IfOk result (λ made. made ≡ record { width = width; items = [] }) }
    {
        Ok(Parts {
            bytes: Vec::with_capacity(alloc, count.saturating_mul(width))?,
            width,
            count: 0,
        })
    }

    /// The length of each string.
    pub fn width(&self) -> usize
        ensures { result ≡ self.now.width }
    {
        self.width
    }

    /// The string at a place.
    pub fn get(&self, at: usize) -> &[u8]
        requires { at < length self.now.items }
        ensures is { slice_get self.now.items at ≡ Some result.now }
        ensures width { length result.now ≡ self.now.width }
    {
        piece(&self.bytes, at, self.width)
    }

    /// Puts other bytes in the place of those of a string.
    pub fn put(&mut self, at: usize, part: &[u8])
        requires inside { at < length self.old.items }
        requires width { length part.now ≡ self.old.width }
        ensures { self.new
            ≡ record { width = self.old.width; items = slice_set self.old.items at part.now } }
    {
        put_piece_in(&mut self.bytes, at, self.width, part);
    }

    /// Makes room for one string more. After `NoMemory` all is as before.
    pub fn reserve(&mut self) -> Result<(), NoMemory>
        ensures { self.new ≡ self.old }
    {
        self.bytes.reserve(self.width)?;
        Ok(())
    }

    /// Adds a string. After `NoMemory` all is as before.
    pub fn push(&mut self, part: &[u8]) -> Result<(), NoMemory>
        requires width { length part.now ≡ self.old.width }
        requires few { length self.old.items + 1 < 2 ^ 64 }
        ensures ok { OnOk result (self.new
            ≡ record { width = self.old.width; items = self.old.items ++ part.now ∷ [] }) }
        ensures err { OnErr result (self.new ≡ self.old) }
    {
        self.bytes.extend_from_slice(part)?;
        self.count += 1;
        Ok(())
    }

    /// Removes the strings from one place to another.
    pub fn remove(&mut self, from: usize, to: usize)
        requires order { from ≤ to }
        requires inside { to ≤ length self.old.items }
        ensures { self.new
            ≡ record { width = self.old.width; items = remove_range self.old.items from to } }
    {
        remove_pieces(&mut self.bytes, from, to, self.width);
        self.count -= to - from;
    }
}
