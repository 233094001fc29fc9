//! Sequence sets and flag lists of RFC 3501, section 9: which messages a set names, and both as
//! text.
#![tactic(auto)]

mod choosing;
mod cutting;
mod end;
mod flags;
mod intervals;
mod joining;
mod law;
mod printing;
mod sets;

pub use choosing::{is_in_set, largest_uid, missing_end, numbers, numbers_among, uids};
pub use end::{ParseEnd, SetEnd};
pub use flags::{flag_bit, parse_flags};
pub use joining::{is_in_joined, join_set};
pub use law::{one_flags, one_set, written_flags_are_read, written_set_is_read};
pub use printing::{print_flags, print_set};
pub use sets::parse_set;
