//! Searches whose results are kept and follow a mailbox by what has changed, without a look at it.
#![tactic(auto)]

mod examples;
mod keeping_up;
mod law;
mod merging;
mod saved;
mod sends;
mod steadiness;
mod verdicts;

pub use keeping_up::keep_up;
pub use law::{kept_is_searched, touched_are_followed, turns_are_searched};
pub use saved::Saved;
pub use steadiness::steady;
