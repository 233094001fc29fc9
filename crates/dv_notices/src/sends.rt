//! What a thread may carry.
use crate::Told;

fn is_send<T: Send>() {}

fn is_sync<T: Sync>() {}

fn told_is_send() {
    is_send::<Told>();
}

fn told_is_sync() {
    is_sync::<Told>();
}
