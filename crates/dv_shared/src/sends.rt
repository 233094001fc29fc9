//! What a thread may carry.
use crate::shared::Shared;
use dv_naming::{Keeping, Tally};
use dv_shelf::{Clock, Shelf};

fn is_send<T: Send>() {}

fn shared_is_send<
    S: Shelf + Send,
    C: Clock + Send,
    K: Keeping + Send + Sync,
    L: Tally + Send + Sync,
    M: Tally + Send + Sync,
>() {
    is_send::<Shared<S, C, K, L, M>>();
}
