//! A large script of several sessions from a number, the same each time.
#![tactic(auto)]

mod commands;
mod draws;
mod generation;
mod generator;

pub use draws::draw;
pub use generation::GeneratedLines;
pub use generator::{generated_lines, script};
