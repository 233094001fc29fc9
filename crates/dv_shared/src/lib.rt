//! What lies under the lock of a keeper: the folder's store, the notes that were published in their
//! generations, and two ledgers, of the entries that sessions wrote and of the commands that a
//! failure of the disk answered. A commit is the one change of it. There is no lock here.
#![tactic(auto)]

mod journal;
mod noting;
mod reading;
mod room;
mod sends;
mod settling;
mod shared;
mod starting;
mod tries;
mod writing;
mod written;

pub use shared::Shared;
pub use written::Written;
