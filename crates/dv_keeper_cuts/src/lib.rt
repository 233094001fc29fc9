//! A keeper over a folder that stops: what a power cut at any moment leaves of what its sessions
//! were answered.
#![tactic(auto)]

mod cut;

pub use cut::close_behind_cut;
