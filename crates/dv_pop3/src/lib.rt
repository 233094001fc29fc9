//! A POP3 session (RFC 1939) over the store of a keeper, beside other sessions that write: the
//! messages that it lists when it begins, the answer to each line, and the removal that its QUIT
//! asks for.
#![tactic(auto)]

mod client;
mod collecting;
mod entering;
mod laws;
mod lines;
mod listing;
mod messages;
mod removing;
mod serving;
mod sizes;

pub use client::Pop;
pub use entering::{PopFault, login};
pub use laws::{listing_is_counted, sessions_write_once};
pub use lines::{LinesEnd, answer_lines};
pub use serving::serve;
