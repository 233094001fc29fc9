//! What a thread may carry.
use crate::session::Session;
use dv_naming::{Keeping, Tally};

fn is_send<T: Send>() {}

fn session_is_send<K: Keeping + Send + Sync, L: Tally + Send + Sync, M: Tally + Send + Sync>() {
    is_send::<Session<K, L, M>>();
}
