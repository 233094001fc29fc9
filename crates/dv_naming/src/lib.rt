//! The names that tie the sessions, the lock and the tables of one run to one another, for
//! contracts alone: the run picks them once.
#![tactic(auto)]

mod names;
mod sends;

pub use names::{Keeping, Names, Tally, new_names};
