//! The generations of one keeper's shared words: a table for each, named by one roll. A note is
//! published into the newest by one store; where it doesn't fit, that table is sealed and a next
//! one begins with all that was published. Sealed tables stay readable, so that a session which
//! slept through several reads each in turn. No call waits, and none locks.
#![tactic(auto)]

mod ends;
mod generations;
mod reading;
mod sends;

pub use ends::Next;
pub use generations::Generations;
