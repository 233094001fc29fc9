//! What threads may share.
use crate::keeper::Keeper;
use dv_naming::{Keeping, Tally};
use dv_shelf::{Clock, Shelf};

fn is_sync<T: Sync>() {}

fn keeper_is_sync<
    S: Shelf + Send,
    C: Clock + Send,
    K: Keeping + Send + Sync,
    L: Tally + Send + Sync,
    M: Tally + Send + Sync,
>() {
    is_sync::<Keeper<S, C, K, L, M>>();
}
