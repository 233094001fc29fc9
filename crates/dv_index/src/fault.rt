ghost use Rattle.std.specs.Prelude.{◌≡◌};
ghost use Rattle.dv_index.specs.declared.fault.IndexEnd.TheVariants as end;

use dv_model::OutOfMemory;

/// The first test that the bytes of a snapshot don't pass; the tests stand in this order.
#[derive(Clone, Copy, PartialEq, Eq, Debug)]
pub enum IndexFault {
    /// There are only so many bytes, fewer than the 120 of a header.
    Short { have: u32 },
    /// The first four bytes are neither those of version 1 nor those of version 2; this is the
    /// first that differs from the latter.
    Version { byte: u8 },
    /// What the header says doesn't fit. The check is 1 where a number that has to be zero isn't,
    /// or one that may not be is; 2 for the tables of keywords and extensions; 3 for the size of a
    /// record; 4 for the length of the text; 5 for the current extension; 6 where a record has
    /// other bytes than a row can have; 7 for the number of rows that are seen or deleted.
    Counts { check: u8 },
    /// The record at this place of the bytes has the UID 0, one that isn't above the UID before,
    /// or one that isn't below the UIDNEXT. It is the first.
    Order { at: u64 },
}

/// Why a snapshot wasn't read.
#[derive(Clone, Copy, PartialEq, Eq, Debug)]
pub enum IndexEnd {
    Fault(IndexFault),
    NoMemory,
}

impl<E: OutOfMemory> From<E> for IndexEnd {
    ghost from_gives = { λ _ e. e ≡ end.NoMemory };

    fn from(_: E) -> IndexEnd {
        IndexEnd::NoMemory
    }
}
