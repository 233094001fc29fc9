ghost use Rattle.std.specs.Prelude.{◌≡◌, ◌<◌, ◌≤◌, ◌++◌, [], ◌∷◌, length, position, bytes_eq, sum_by};
ghost use Rattle.dv_model.specs.Effects.{fit, grown_extension, introduced, may_be_added, new_extension, with_item};
ghost use Rattle.dv_model.specs.Mailboxes.{AreExtensions};

use dv_model::{Extension, Intro};

// The `ext_id` of an introduction by name.
const NO_ID: u32 = u32::MAX;

// How many extensions there are at most.
const MOST: usize = 16;

// How many bytes the extensions have in a row at most.
const ROW_BYTES: usize = 1_024;

// How many bytes a header has at most.
const HEADER_BYTES: u32 = 65_536;

fn place_of_name(list: &[Extension], name: &[u8]) -> Option<usize>
    ensures { result ≡ position (λ e. bytes_eq e.name name.now) list.now }
{
    for (place, extension) in list.iter().enumerate() {
        if extension.name.as_slice() == name {
            return Some(place);
        }
    }
    None
}

/// The place of the extension that an introduction speaks of.
pub fn place_of(list: &[Extension], intro: &Intro) -> Option<usize>
    ensures { result ≡ introduced list.now intro.now }
{
    if intro.ext_id == NO_ID {
        return place_of_name(list, intro.name.as_slice());
    }
    let place = intro.ext_id as usize;
    if place < list.len() {
        Some(place)
    } else {
        None
    }
}

/// Whether an extension that isn't in the table may be added so: it is introduced by a name of 1
/// to 255 bytes other than `keywords`.
pub fn may_be_added(intro: &Intro) -> bool
    ensures { result ≡ may_be_added intro.now }
{
    let name = intro.name.as_slice();
    intro.ext_id == NO_ID && !name.is_empty() && name.len() <= 255 && name != b"keywords".as_slice()
}

// The bytes of all extensions in a row.
fn record_sizes(list: &[Extension]) -> usize
    requires { sum_by (λ e. e.record_size) list.now ≤ 1024 }
    ensures { result ≡ sum_by (λ e. e.record_size) list.now }
{
    let mut sum = 0;
    for extension in list {
        sum += usize::from(extension.record_size);
    }
    sum
}

/// Whether the table with the introduced extension at its end is within the limits.
pub fn fits_added(list: &[Extension], intro: &Intro) -> bool
    requires { AreExtensions list.now }
    ensures { result ≡ fit (list.now ++ new_extension intro.now ∷ []) }
{
    list.len() < MOST
        && record_sizes(list) + usize::from(intro.record_size) <= ROW_BYTES
        && intro.hdr_size <= HEADER_BYTES
}

/// Whether the table is within the limits once the extension at a place has grown.
pub fn fits_grown(list: &[Extension], place: usize, intro: &Intro) -> bool
    requires extensions { AreExtensions list.now }
    requires place { place < length list.now }
    ensures { result ≡ fit (with_item place (grown_extension intro.now) list.now) }
{
    let known = list[place].record_size;
    let others = record_sizes(list) - usize::from(known);
    others + usize::from(known.max(intro.record_size)) <= ROW_BYTES
        && intro.hdr_size <= HEADER_BYTES
}
