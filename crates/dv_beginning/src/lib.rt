//! The mailbox that a run begins from: a folder opened, or made where there is none.
#![tactic(auto)]

mod opening;

pub use opening::open_folder;
