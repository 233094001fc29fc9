//! What a thread may carry.
use crate::{MemClock, MemShelf, MemSink, MemSource, OpenGate};

fn is_send<T: Send>() {}

fn is_sync<T: Sync>() {}

fn mem_shelf_is_send() {
    is_send::<MemShelf>();
}

fn mem_source_is_send() {
    is_send::<MemSource>();
}

fn mem_sink_is_send() {
    is_send::<MemSink>();
}

fn mem_clock_is_send() {
    is_send::<MemClock>();
}

fn open_gate_is_send() {
    is_send::<OpenGate>();
}

fn open_gate_is_sync() {
    is_sync::<OpenGate>();
}
