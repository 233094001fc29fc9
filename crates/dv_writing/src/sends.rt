//! What a thread may carry.
use crate::Committed;

fn is_send<T: Send>() {}

fn is_sync<T: Sync>() {}

fn committed_is_send() {
    is_send::<Committed>();
}

fn committed_is_sync() {
    is_sync::<Committed>();
}
