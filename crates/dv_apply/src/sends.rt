//! What a thread may carry.
use crate::{Live, Prepared};

fn is_send<T: Send>() {}

fn is_sync<T: Sync>() {}

fn live_is_send() {
    is_send::<Live>();
}

fn live_is_sync() {
    is_sync::<Live>();
}

fn prepared_is_send() {
    is_send::<Prepared>();
}

fn prepared_is_sync() {
    is_sync::<Prepared>();
}
