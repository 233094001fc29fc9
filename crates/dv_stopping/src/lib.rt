//! A shelf that stops in the middle of a call, over any shelf: the power cut for a law over whole
//! runs.
#![tactic(auto)]

mod passing;
mod sends;
mod shelf;
mod stopping;
#[cfg(test)]
mod tests;

pub use stopping::Stopping;
