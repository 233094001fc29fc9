//! What a thread may carry.
use crate::Stopping;
use dv_shelf::MemShelf;

fn is_send<T: Send>() {}

fn stopping_is_send() {
    is_send::<Stopping<MemShelf>>();
}
