//! What a thread may carry.
use crate::Session;

fn is_send<T: Send>() {}

fn is_sync<T: Sync>() {}

fn session_is_send() {
    is_send::<Session>();
}

fn session_is_sync() {
    is_sync::<Session>();
}
