//! What a thread may carry.
use crate::Chain;

fn is_send<T: Send>() {}

fn is_sync<T: Sync>() {}

fn chain_is_send() {
    is_send::<Chain>();
}

fn chain_is_sync() {
    is_sync::<Chain>();
}
