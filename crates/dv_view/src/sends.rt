//! What a thread may carry.
use crate::View;

fn is_send<T: Send>() {}

fn is_sync<T: Sync>() {}

fn view_is_send() {
    is_send::<View>();
}

fn view_is_sync() {
    is_sync::<View>();
}
