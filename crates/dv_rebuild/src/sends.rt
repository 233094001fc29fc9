//! What a thread may carry.
use crate::{RebuildFault, Rebuilt};

fn is_send<T: Send>() {}

fn is_sync<T: Sync>() {}

fn rebuilt_is_send() {
    is_send::<Rebuilt>();
}

fn rebuilt_is_sync() {
    is_sync::<Rebuilt>();
}

fn fault_is_send() {
    is_send::<RebuildFault>();
}

fn fault_is_sync() {
    is_sync::<RebuildFault>();
}
