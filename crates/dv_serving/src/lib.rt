//! What each form of a run shares: which commands may be served, what a commit by an author, a
//! command and a view is over a store, what it meets and leaves, and the line of one that isn't
//! served.
#![tactic(auto)]

mod laws;
mod told;

pub use laws::{commands_are_servable, generated_are_servable};
pub use told::take_fault;
