use crate::block::Block;

/// A block of rows among others.
#[derive(Drop)]
pub struct Chunk {
    /// The UID of its first row.
    pub first: u32,
    pub block: Block,
}

/// A set of keywords that is held for a row.
#[derive(Clone, Copy)]
pub struct Pending {
    /// The place of the row.
    pub at: u32,
    /// The number of the set.
    pub words: u32,
}

/// A row without its parts.
#[derive(Clone, Copy)]
pub struct Entry {
    pub uid: u32,
    pub flags: u8,
    pub modseq: u64,
    /// The number of its set of keywords.
    pub words: u32,
}
