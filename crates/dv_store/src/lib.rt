//! A mailbox folder and a clock behind one value: the one place that writes.
#![tactic(auto)]

mod commits;
mod fault;
mod looking;
mod opening;
mod planning;
mod receipt;
mod sends;
mod store;
mod sweeping;

pub use receipt::Receipt;
pub use store::Store;
