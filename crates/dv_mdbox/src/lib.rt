//! A storage of messages many to a file, with counts of how many references each has, which no
//! crash loses while it is referenced (Dovecot's mdbox; the layout is this project's own).
#![tactic(auto)]

mod counting;
mod fault;
mod gathering;
mod got;
mod listing;
mod looking;
mod opening;
mod purging;
mod readying;
mod rewriting;
mod saving;
mod settling;
mod storage;
mod tails;
mod writing;

pub use fault::StorageFault;
pub use got::Got;
pub use storage::Storage;
