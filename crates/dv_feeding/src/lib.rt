//! The words by which sessions tell each other of groups, as a law of the definitions: they are of
//! one list of entries.
#![tactic(auto)]

mod laws;

pub use laws::{feed_goes_on, one_feed};
