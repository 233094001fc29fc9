//! What a thread may carry.
use crate::Touched;

fn is_send<T: Send>() {}

fn is_sync<T: Sync>() {}

fn touched_is_send() {
    is_send::<Touched>();
}

fn touched_is_sync() {
    is_sync::<Touched>();
}
