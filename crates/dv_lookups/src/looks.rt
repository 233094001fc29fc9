//! Where a row of the mailbox stands in its cache file.

ghost use Rattle.std.specs.Prelude.{◌≡◌, ◌<◌, IfSome, length, position, slice_get};
ghost use Rattle.std.specs.Option.{option_copied, option_map};
ghost use Rattle.dv_openings.specs.TrueCaches.{look_at, look_in, look_of};
ghost use Rattle.dv_lookups.specs.Looks.{is_cache, look_seen};

use dv_model::{Bytes, Extension, Row};
use dv_num::u32_at;
use dv_view::Live;

/// The cache file's sequence, and the place of an entry in it.
#[derive(Clone, Copy)]
pub(crate) struct Look {
    pub(crate) seq: u32,
    pub(crate) offset: u32,
}

// The place is the first four bytes of a part.
fn look_at(seq: u32, part: &[u8]) -> Option<Look>
    ensures { option_map look_seen result ≡ look_at seq part.now }
{
    if part.len() < 4 {
        return None;
    }
    let offset = u32_at(part, 0);
    Some(Look { seq, offset })
}

// The place of the extension `cache`.
fn place_in(extensions: &[Extension]) -> Option<usize>
    ensures is { result ≡ position is_cache extensions.now }
    ensures inside { IfSome result (λ at. at < length extensions.now) }
{
    extensions.iter().position(|extension| extension.name.as_slice() == b"cache".as_slice())
}

fn part_at(parts: &[Bytes], at: usize) -> Option<&Bytes>
    ensures { option_copied result ≡ slice_get parts.now at }
{
    parts.get(at)
}

// Extensions and a row's parts go side by side.
fn look_in(extensions: &[Extension], parts: &[Bytes]) -> Option<Look>
    ensures { option_map look_seen result ≡ look_in extensions.now parts.now }
{
    let Some(at) = place_in(extensions) else {
        return None;
    };
    let Some(part) = part_at(parts, at) else {
        return None;
    };
    look_at(extensions[at].reset_id, part.as_slice())
}

/// Where the mailbox's row is looked up: only where the mailbox has the extension `cache`, and the
/// row's part of it four bytes or more.
pub(crate) fn look_of(live: &Live, row: &Row) -> Option<Look>
    ensures { option_map look_seen result ≡ look_of live.now.mailbox row.now }
{
    look_in(live.extensions().list().as_slice(), row.parts.as_slice())
}
