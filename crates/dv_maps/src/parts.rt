//! The parts of a mailbox's rows that belong to a named extension.

ghost use Rattle.std.specs.Prelude.{◌≡◌, ◌<◌, ◌+◌, [], ◌∷◌, IfSome, bytes_eq, length, position, slice_get, slice_index, unwrap_or};
ghost use Rattle.std.specs.Int.{w16, w32, from_le_bytes};
ghost use Rattle.std.specs.Option.{option_copied};
ghost use Rattle.dv_maps.specs.Parts.{half_at, part_of, place_in, word_at};
ghost use Rattle.dv_maps.specs.Maps as maps;

use crate::Place;
use dv_model::{Bytes, Extension};

// The place of the extension of this name.
fn place_in(extensions: &[Extension], name: &[u8]) -> Option<usize>
    ensures { result ≡ place_in name.now extensions.now }
{
    extensions
        .iter()
        .position(|extension| extension.name.as_slice() == name)
}

fn part_at(parts: &[Bytes], at: usize) -> Option<&Bytes>
    ensures { option_copied result ≡ slice_get parts.now at }
{
    parts.get(at)
}

/// The part of a row that belongs to the extension of this name, where the mailbox has one and the
/// row a part of it. Extensions and a row's parts go side by side. Takes no memory.
pub fn part_of<'a>(extensions: &[Extension], parts: &'a [Bytes], name: &[u8]) -> Option<&'a Bytes>
    ensures { option_copied result ≡ part_of name.now extensions.now parts.now }
{
    let at = place_in(extensions, name)?;
    part_at(parts, at)
}

// The byte at a place; behind the end it is 0.
fn byte_at(part: &[u8], at: usize) -> u8
    ensures { result ≡ slice_index part.now at }
{
    match part.get(at) {
        Some(byte) => *byte,
        None => 0,
    }
}

// The number of the four bytes from a place on.
fn word_at(part: &[u8], at: usize) -> u32
    requires { at < 100 }
    ensures { result ≡ word_at part.now at }
{
    u32::from_le_bytes([
        byte_at(part, at),
        byte_at(part, at + 1),
        byte_at(part, at + 2),
        byte_at(part, at + 3),
    ])
}

// The place in a row's part.
fn place_from(part: &[u8]) -> Place
    ensures { result ≡ maps.place_from part.now }
{
    Place {
        file: word_at(part, 0),
        offset: word_at(part, 4),
        size: word_at(part, 8),
    }
}

// The count in a row's part.
fn count_from(part: &[u8]) -> u16
    ensures { result ≡ half_at part.now 0 }
{
    u16::from_le_bytes([byte_at(part, 0), byte_at(part, 1)])
}

/// Where the text of a row's message stands: the first twelve bytes of the row's part `map`, of
/// which missing ones are 0.
pub fn place_of(extensions: &[Extension], parts: &[Bytes]) -> Place
    ensures { result ≡ maps.place_of extensions.now parts.now }
{
    match part_of(extensions, parts, b"map") {
        Some(part) => place_from(part.as_slice()),
        None => place_from(&[]),
    }
}

/// How many references a row's message has: the first two bytes of the row's part `ref`, of which
/// missing ones are 0.
pub fn count_of(extensions: &[Extension], parts: &[Bytes]) -> u16
    ensures { result ≡ maps.count_of extensions.now parts.now }
{
    match part_of(extensions, parts, b"ref") {
        Some(part) => count_from(part.as_slice()),
        None => 0,
    }
}
