//! What a thread may carry.
use crate::Extensions;

fn is_send<T: Send>() {}

fn is_sync<T: Sync>() {}

fn extensions_is_send() {
    is_send::<Extensions>();
}

fn extensions_is_sync() {
    is_sync::<Extensions>();
}
