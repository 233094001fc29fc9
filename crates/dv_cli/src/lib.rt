//! A mailbox folder served to the sessions of a script or to a client that catches up, or rebuilt,
//! or a storage folder served to the calls of a script, as the program's words ask.
#![tactic(auto)]

mod beside;
mod ending;
mod loading;
mod reading;
mod rebuilding;
mod restarts;
mod resyncing;
mod running;
mod scripts;
mod storing;
mod top_call;
mod watching;
mod words;

pub use ending::{End, Loaded, conclude, write_text};
pub use restarts::{restarts_may_run, runs_may_follow};
pub use running::{Outcome, untouched};
pub use top_call::{Ran, run, script_text, told_of};
pub use words::Load;
