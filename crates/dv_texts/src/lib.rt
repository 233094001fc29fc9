//! The text of a session's replies, made while they are taken one by one.
#![tactic(auto)]

mod items;
mod lines;
mod pieces;
mod reply_text;
mod sends;

pub use reply_text::ReplyText;
