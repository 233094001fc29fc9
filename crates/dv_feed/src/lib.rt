//! Groups as words that sessions share: a written group is published by one store, and a pass
//! takes the words that are new to it.
#![tactic(auto)]

mod groups;
mod laws;
mod marking;
mod publishing;
mod sends;
mod taking;

pub use groups::groups_of;
pub use laws::good_notes_have_feeds;
pub use marking::mark_behind_words;
pub use publishing::publish_group;
pub use taking::{Taken, skip, take};

#[cfg(test)]
mod tests;
