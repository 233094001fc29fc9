//! Each session of a keeper in a thread of its own: its commands are answered in turn, and its
//! replies are kept as text until the threads are joined. The session rules are dv_answer's.
#![tactic(auto)]

mod job;
mod reading;
mod running;
mod sends;
mod serving;
mod threads;

pub use job::Job;
pub use threads::run_threads;
