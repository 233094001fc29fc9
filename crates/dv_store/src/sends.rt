//! What a thread may carry.
use crate::{Receipt, Store};

fn is_send<T: Send>() {}

fn is_sync<T: Sync>() {}

fn store_is_send<S: Send, C: Send>() {
    is_send::<Store<S, C>>();
}

fn store_is_sync<S: Sync, C: Sync>() {
    is_sync::<Store<S, C>>();
}

fn receipt_is_send() {
    is_send::<Receipt>();
}

fn receipt_is_sync() {
    is_sync::<Receipt>();
}
