//! The lines of a script parted by session, and the text of the sessions' transcripts.
#![tactic(auto)]

mod laws;
mod parts;
mod sends;
#[cfg(test)]
mod tests;

pub use laws::{lines_interleave, one_session_is_serial, transcripts_go_on};
pub use parts::{Part, part_lines};
