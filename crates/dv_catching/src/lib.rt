//! What a client with an older state of a mailbox hears of its folder (RFC 7162, section 3.2.5).
#![tactic(auto)]

mod catching;
mod clients;
mod pieces;

pub use catching::{CatchEnd, Caught, catch_client};
pub use clients::client_of;
