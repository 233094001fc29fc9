//! A folder's true cache stays true of the mailbox that a command's group makes, as laws.
#![tactic(auto)]

mod laws;

pub use laws::{cache_stays_true, checked_cache_is_true, checks_place_rows, groups_keep_looks};
