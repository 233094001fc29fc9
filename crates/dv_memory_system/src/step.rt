use dv_model::Bytes;
use dv_shelf::Name;
use dv_system::Entry;

/// What a call did to a file.
#[derive(Clone, Copy)]
pub enum Change {
    /// It was there at the start, and durable.
    Found,
    /// A new empty file took its place, and reads see it or not.
    Create { is_seen: bool },
    /// Bytes were written from a place on, and reads see so many of them.
    Write { at: u32, stuck: usize },
    /// A sync of it answered Ok, or failed.
    Sync { is_done: bool },
    /// It was removed, and reads see that or not.
    Unlink { is_seen: bool },
}

/// What a call did to the folder.
#[derive(Clone, Copy)]
pub enum Deed {
    /// The folder was there at the start, and durable.
    FoundFolder,
    MakeFolder,
    SyncParent { is_done: bool },
    SyncFolder { is_done: bool },
    /// The temporary file took a name, and reads see that or not.
    Rename { name: Name, is_seen: bool },
    /// A file changed.
    File { entry: Entry, change: Change },
}

/// What a call did, with the bytes that it was handed.
#[derive(Drop)]
pub struct Step {
    pub deed: Deed,
    pub bytes: Bytes,
}
