use dv_model::{Bytes, List};

/// A message with its metadata, as its file holds them.
#[derive(Drop)]
pub struct Message {
    /// The time at which the file was made, in seconds since 1970.
    pub stamp: u32,
    pub bytes: Bytes,
    pub guid: Option<[u8; 16]>,
    /// The time of receipt, in seconds since 1970.
    pub received: Option<u64>,
    /// The message's number of bytes, as the metadata has it.
    pub physical: Option<u64>,
    /// The message's number of bytes with CRLF line ends, as the metadata has it.
    pub virtual_size: Option<u64>,
    /// The metadata's lines of other keys, as they stand.
    pub others: List<Bytes>,
}
