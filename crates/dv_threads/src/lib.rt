//! A whole script served by sessions in threads, over a mailbox that was opened or made.
#![tactic(auto)]

mod ending;
mod jobs;
mod laws;
mod serving;
mod threads;

pub use ending::{Served, ThreadsEnd};
pub use laws::{
    folder_laws, runs_may_follow_threads, sessions_write_one_log, stories_are_transcripts,
};
pub use threads::serve_threads;
