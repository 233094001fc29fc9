//! What a thread may carry.
use crate::Saved;

fn is_send<T: Send>() {}

fn is_sync<T: Sync>() {}

fn saved_is_send() {
    is_send::<Saved>();
}

fn saved_is_sync() {
    is_sync::<Saved>();
}
