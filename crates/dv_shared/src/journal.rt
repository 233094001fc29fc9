use crate::tries::Tries;
use dv_generations::Generations;
use dv_naming::Keeping;
use dv_shelf::Clock;
use dv_store::Store;

/// A mailbox's store with the notes that sessions share.
#[derive(Drop)]
pub(crate) struct Journal<S, C: Clock, K: Keeping> {
    pub(crate) store: Store<S, C>,
    pub(crate) feed: Generations<K>,
    /// How many notes were published.
    pub(crate) count: u64,
    pub(crate) tries: Tries<S, C>,
}
