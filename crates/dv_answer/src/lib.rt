//! The session rules over a live mailbox: what a command is refused, what it is answered, and what
//! the session knows then (RFC 3501, sections 6 and 7).
#![tactic(auto)]

mod fresh;
mod laws;
mod numbers;
mod sends;
mod session;

pub use fresh::fresh_of;
pub use laws::{refusal_goes_on, sessions_keep_up};
pub use session::Session;
