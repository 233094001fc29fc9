use dv_model::Mark;

/// What a commit wrote.
#[derive(Clone, Copy, PartialEq, Eq, Debug)]
pub struct Written {
    /// The place behind the group, or behind the last one where it has no record.
    pub mark: Mark,
    /// The UID of an appended message.
    pub uid: Option<u32>,
    /// How many entries the log has then.
    pub number: u64,
}
