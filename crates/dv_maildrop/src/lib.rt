//! A POP3 session (RFC 1939) without its store: the lines that a client gives, a maildrop with the
//! messages that are marked as deleted, and the text of each answer.
#![tactic(auto)]

mod answering;
mod counts;
mod laws;
mod listing;
mod maildrop;
mod message;
mod pieces;
mod reading;
mod script;
#[cfg(test)]
mod tests;
mod types;

pub use answering::{put_found, put_greeting, put_held};
pub use laws::{messages_are_heard, rows_stay};
pub use maildrop::Maildrop;
pub use message::put_message;
pub use reading::parse_line;
pub use script::{PopLines, open_lines};
pub use types::{Asked, Found, Listed, PopLine, Removal};
