//! The program: a mailbox folder served to the sessions of a script, in threads too, or to a POP3
//! session, and whatever else its words ask for.
#![tactic(auto)]

mod errors;
mod form;
mod laws;
mod pop3;
mod program;
mod scripts;
mod serving;
#[cfg(test)]
mod tests;
mod top_call;

pub use errors::ErrorOutput;
pub use laws::runs_may_follow;
pub use program::{obey_read, words_given};
pub use top_call::run;
