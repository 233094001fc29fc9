//! Which UIDs a session is to be told of after a record of the log.
#![tactic(auto)]

mod law;
mod merging;
mod sends;
mod touched;

pub use law::only_named_are_touched;
pub use touched::Touched;
