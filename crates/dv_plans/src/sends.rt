//! What a thread may carry.
use crate::{Plan, StoreFault};

fn is_send<T: Send>() {}

fn is_sync<T: Sync>() {}

fn plan_is_send() {
    is_send::<Plan>();
}

fn plan_is_sync() {
    is_sync::<Plan>();
}

fn fault_is_send() {
    is_send::<StoreFault>();
}

fn fault_is_sync() {
    is_sync::<StoreFault>();
}
