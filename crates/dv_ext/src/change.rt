/// What a record of extensions does to the parts of each row.
#[derive(Clone, Copy, PartialEq, Eq, Debug)]
pub enum PartsChange {
    /// They stay.
    Same,
    /// One more part at the end, of this many zero bytes.
    Added { size: u16 },
    /// The part at this place is filled up with zero bytes to this many, and never cut.
    Grown { place: u32, size: u16 },
    /// The bytes of the part at this place become zero.
    Zeroed { place: u32 },
}
