//! The sessions of a script over one mailbox folder, served one command after another.
#![tactic(auto)]

mod laws;
mod lines;
mod numbers;
mod reading;
mod seats;
mod serial;
mod serving;
mod sinks;

pub use laws::next_runs_begin;
pub use lines::LineEnd;
pub use numbers::{Seen, Turn, next_turn};
pub use seats::new_seats;
pub use serial::Serial;
pub use sinks::NullSink;
