//! A keeper over a folder in memory, whose sessions are asked one thing after another, for tests.
#![tactic(auto)]

mod asking;
mod calls;
mod clients;
mod lines;
mod player;
mod playing;
mod serving;

pub use player::{Ask, Trouble};
pub use playing::{MemStore, Played, play};
