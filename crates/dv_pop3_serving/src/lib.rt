//! A POP3 session (RFC 1939) over a mailbox that was opened or made: a keeper of it with one
//! session, its lines, what they write, and what the folder has behind them.
#![tactic(auto)]

mod ending;
mod laws;
mod serving;
mod session;

pub use ending::{PopEnd, Served};
pub use laws::runs_may_follow_pop3;
pub use serving::serve_pop3;
