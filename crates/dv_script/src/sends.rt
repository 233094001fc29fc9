//! What a thread may carry.
use crate::Line;
use dv_model::Command;

fn is_send<T: Send>() {}

fn is_sync<T: Sync>() {}

fn line_is_send() {
    is_send::<Line>();
}

fn line_is_sync() {
    is_sync::<Line>();
}

fn command_is_send() {
    is_send::<Command>();
}

fn command_is_sync() {
    is_sync::<Command>();
}
