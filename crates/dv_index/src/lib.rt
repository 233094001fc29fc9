//! The text of a mailbox's index, the snapshot that stands beside the transaction log.
#![tactic(auto)]

mod fault;
mod header;
mod law;
mod reading;
mod rows;
mod tables;
mod tally;
mod words;
mod writing;

pub use fault::{IndexEnd, IndexFault};
pub use law::one_outcome;
pub use reading::read;
pub use rows::write_row;
pub use tally::Tally;
pub use writing::{begin, write};
