//! What a thread may carry.
use crate::Job;
use dv_naming::{Keeping, Tally};

fn is_send<T: Send>() {}

fn job_is_send<K: Keeping + Send + Sync, L: Tally + Send + Sync, M: Tally + Send + Sync>() {
    is_send::<Job<K, L, M>>();
}
