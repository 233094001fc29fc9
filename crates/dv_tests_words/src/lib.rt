//! Tests of the words that sessions share, through their generations.
#![tactic(auto)]

#[cfg(test)]
mod races;
#[cfg(test)]
mod tests;
