//! What a write does, made ready.
use dv_apply::Prepared;
use dv_files::Turn;
use dv_model::Bytes;

/// The file that is written before a group.
#[derive(Drop)]
pub enum Files {
    /// None.
    Nothing,
    /// A text at a place of a file, by the file's number and the offset.
    Text(u32, u32, Bytes),
    /// A whole file, by its number.
    File(u32, Bytes),
}

/// The steps of a write behind what is owed.
#[derive(Drop)]
pub struct Steps {
    /// The rotation, where one is due.
    pub turn: Option<Turn>,
    /// The file before the group.
    pub files: Files,
    /// The map with the group.
    pub prepared: Prepared,
}
