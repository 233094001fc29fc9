//! Which events of a world of interleavings the calls of a keeper and of its sessions are, as laws:
//! by what their contracts say, the events lead from any world that the keeper is at to one that it
//! is at then.
#![tactic(auto)]

mod laws;

pub use laws::{
    answers_are_events, debts_are_pending, loads_are_events, nothing_is_no_event, promises_hold,
    readings_are_events, sessions_are_opened, writes_are_events,
};
