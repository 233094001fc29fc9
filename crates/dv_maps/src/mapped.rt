//! What the rows of a map say.

ghost use Rattle.std.specs.Prelude.{◌≡◌};
ghost use Rattle.dv_maps.specs.Maps.{count_of, place_of};

use crate::{Place, parts};
use dv_model::{Extension, Row};

/// What a row of a map says of an id.
#[derive(Clone, Copy, PartialEq, Eq, Debug)]
pub struct Mapped {
    /// The id.
    pub id: u32,
    /// How many references it has.
    pub count: u16,
    /// Where its text stands.
    pub place: Place,
}

/// An id, and where its text stands.
#[derive(Clone, Copy, PartialEq, Eq, Debug)]
pub struct Placed {
    /// The id.
    pub id: u32,
    /// Where its text stands.
    pub place: Place,
}

/// What a row says, in a map with these extensions. Takes no memory.
pub fn read_row(extensions: &[Extension], row: &Row) -> Mapped
    ensures { result ≡ record {
      id = row.now.uid;
      count = count_of extensions.now row.now.parts;
      place = place_of extensions.now row.now.parts;
    } }
{
    Mapped {
        id: row.uid,
        count: parts::count_of(extensions, row.parts.as_slice()),
        place: parts::place_of(extensions, row.parts.as_slice()),
    }
}
