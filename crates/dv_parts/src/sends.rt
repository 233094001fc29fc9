//! What a thread may carry.
use crate::Part;
use dv_model::List;

fn is_send<T: Send>() {}

fn is_sync<T: Sync>() {}

fn part_is_send() {
    is_send::<Part>();
}

fn part_is_sync() {
    is_sync::<Part>();
}

fn parts_are_send() {
    is_send::<List<Part>>();
}
