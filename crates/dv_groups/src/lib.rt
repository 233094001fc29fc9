//! What a command of a session writes: its records, the bytes that they take, and the limits that
//! it meets.
#![tactic(auto)]

mod changing;
mod checks;
mod cutting;
mod groups;
mod laws;
mod lengths;
mod limits;
mod ranges;
mod records;

pub use changing::{changed_uids, expunged_uids, removes};
pub use checks::next_cache_number;
pub use cutting::next_piece;
pub use groups::{group_from, group_length, group_of, need};
pub use laws::groups_are_short;
pub use limits::{Limit, limit_of};
pub use ranges::{range_count, ranges_of};
pub use records::{add_keyword_update, external, internal};
