use dv_answer::Session;
use dv_apply::Live;
use dv_model::Mark;

/// What a session has seen and was told.
#[derive(Drop)]
pub(crate) struct Mirror {
    /// How many entries of the log it has seen.
    pub(crate) seen: u64,
    /// The mailbox behind them.
    pub(crate) live: Live,
    /// The place behind them.
    pub(crate) mark: Mark,
    pub(crate) session: Session,
    /// The place behind the entries that it was told.
    pub(crate) told_mark: Mark,
}
