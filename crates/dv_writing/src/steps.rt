//! What a write does, made ready.
use dv_apply::Prepared;
use dv_files::Turn;
use dv_model::{Bytes, List};

/// The files that are written or removed before a group.
#[derive(Drop)]
pub enum Files {
    /// None.
    Nothing,
    /// The file of an appended message, by its text.
    Message(Bytes),
    /// Those of a check.
    Check(Renewal),
}

/// What a check removes and replaces, in this order.
#[derive(Drop)]
pub struct Renewal {
    /// The UIDs of the message files that go, which no row has, rising.
    pub gone: List<u32>,
    /// `dovecot.index`: the snapshot at the place where the group begins.
    pub index: Bytes,
    /// `dovecot.index.cache`: the sizes and header fields of the rows' messages.
    pub cache: Bytes,
}

/// The steps of a write behind what is owed.
#[derive(Drop)]
pub struct Steps {
    /// The rotation, where one is due.
    pub turn: Option<Turn>,
    /// The files before the group.
    pub files: Files,
    /// The mailbox with the group.
    pub prepared: Prepared,
}
