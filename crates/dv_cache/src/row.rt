use dv_model::{Bytes, List};

/// The sizes and header fields of a message.
#[derive(Drop)]
pub struct Known {
    /// The message's number of bytes.
    pub physical: u32,
    /// The message's number of bytes with CRLF line ends.
    pub virtual_size: u32,
    /// The values of Date, From, To, Subject and Message-ID, in this order; `None` where the
    /// message lacks the field.
    pub fields: List<Option<Bytes>>,
}

/// A message in the cache.
#[derive(Drop)]
pub struct CacheRow {
    pub uid: u32,
    /// What is known of the message; `None` where it can't be read.
    pub known: Option<Known>,
}
