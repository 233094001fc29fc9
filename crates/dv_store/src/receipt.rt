use dv_model::{Bytes, Group, Mark};
use dv_touched::Touched;

/// What a command wrote.
#[derive(Drop)]
pub struct Receipt {
    /// The place behind the group, or behind the last one where it has no record.
    pub mark: Mark,
    /// The UID of an appended message.
    pub uid: Option<u32>,
    /// The records; none where the command changes nothing.
    pub group: Group,
    /// The written spelling of the records.
    pub text: Bytes,
    /// The UIDs of which a session is to be told.
    pub touched: Touched,
    /// When an appended message came, in seconds since 1970; else 0.
    pub received: u32,
}
