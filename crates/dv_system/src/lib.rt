//! The system's calls on a folder, with a model of what they do: what reads give, and what a crash
//! may leave.
#![tactic(auto)]

mod seconds;
mod system;

pub use seconds::cut_seconds;
pub use system::{Access, Entry, System};
