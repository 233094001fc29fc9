ghost use Rattle.std.specs.Prelude.{◌≡◌, ◌↔◌, IsTrue, ◌≤◌, ◌<◌, ◌+◌, ◌*◌, ◌/◌, ◌%◌, ◌^◌, ℕ, List, length, IfOk};
ghost use Rattle.dv_formats.specs.Snapshots.{keyword_words};
ghost use Rattle.dv_formats.specs.SnapshotFaults.{word_at};
ghost use Rattle.dv_index.specs.Reading.{ArePlaces, HasBitPast, OnCheck};

use super::failed;
use crate::fault::IndexEnd;
use dv_model::List;
use dv_num::u32_at;
use std::alloc::Global;

// Whether the bit of the keyword at a place is set.
fn is_set(bits: &[u8], place: u32) -> bool
    requires { 4 * (place / 32) + 4 ≤ length bits.now }
    ensures { IsTrue result ↔ (word_at (4 * (place / 32)) bits.now / 2 ^ (place % 32) % 2 ≡ 1) }
{
    let word = u32_at(bits, 4 * (place as usize / 32));
    (word >> (place % 32)) % 2 == 1
}

// Whether a bit is set that is past so many keywords.
fn has_bit_past(names: u32, bits: &[u8]) -> bool
    requires { length bits.now ≡ 4 * keyword_words names }
    ensures { IsTrue result ↔ HasBitPast names bits.now }
{
    let used = names % 32;
    used != 0 && u32_at(bits, 4 * (names as usize / 32)) >> used != 0
}

/// The places of a row's keywords, of so many in the table.
pub fn read_places(alloc: Global, names: u32, bits: &[u8]) -> Result<List<u32>, IndexEnd>
    requires { length bits.now ≡ 4 * keyword_words names }
    ensures found { IfOk result (λ places. ArePlaces names places bits.now) }
    ensures check { OnCheck result 6 ((places : List ℕ) → ArePlaces names places bits.now → ⊥) }
{
    if has_bit_past(names, bits) {
        return Err(failed(6));
    }
    let mut places = List::new(alloc);
    for place in 0..names {
        if is_set(bits, place) {
            places.push(place)?;
        }
    }
    Ok(places)
}
