//! A run over a folder that stops: what a power cut at any moment of it leaves of the lines whose
//! answers were written.
#![tactic(auto)]

mod cut;
#[cfg(test)]
mod tests;

pub use cut::run_until_cut;
