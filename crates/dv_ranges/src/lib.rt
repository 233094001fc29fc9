//! Ranges of UIDs that overlap or stand in disorder, as the records of a log may have them
//! (Dovecot's `mail-transaction-log.h`), made into disjoint ones that rise.
#![tactic(auto)]

mod changes;
mod overlays;
mod pairs;

pub use changes::join_changes;
pub use pairs::{join_pairs, pairs_of};
