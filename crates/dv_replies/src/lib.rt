//! Replies from their text: what a session was told, read back exactly (RFC 3501, section 7).
#![tactic(auto)]

mod lists;
mod numbers;
mod reply;
mod tagged;
mod value;

pub use reply::parse_reply;
