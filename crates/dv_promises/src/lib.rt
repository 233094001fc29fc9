//! What holds in each world of interleavings, as laws of the definitions: replies by the session
//! rules over one log, equal views, message numbers that stay, and what a crash leaves.
#![tactic(auto)]

mod laws;

pub use laws::{crashes_keep, prefixes_grow, promises_hold, worlds_stand};
