//! What is told on standard error beside the output: a script's bad line, and what a rebuild found.
#![tactic(auto)]

mod lines;
mod reports;
mod sends;
mod telling;

pub use lines::told_line;
pub use reports::report_text;
pub use telling::{Told, told_text};

#[cfg(test)]
mod tests;
