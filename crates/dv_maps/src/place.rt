/// Where the text of a message stands in a storage.
#[derive(Clone, Copy, PartialEq, Eq, Debug)]
pub struct Place {
    /// The number of the file.
    pub file: u32,
    /// Where the text begins there, in bytes.
    pub offset: u32,
    /// How many bytes it has.
    pub size: u32,
}
