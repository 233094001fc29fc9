//! Tests of scripts and replies as text, and of the generator.
#![tactic(auto)]

#[cfg(test)]
mod generator;
#[cfg(test)]
mod replies;
#[cfg(test)]
mod script;
