//! The records of a storage's groups: of a message that is saved, of an id that has another count,
//! and of the purge of a file.
#![tactic(auto)]

mod records;

pub use records::{count_records, purge_records, save_records};
