//! Tests of scripts beside which a search is kept, each played through the program's call: what is
//! told of it, by hand and generated, and which keys are taken.
#![tactic(auto)]

#[cfg(test)]
mod generated;
#[cfg(test)]
mod keys;
#[cfg(test)]
mod rows;
#[cfg(test)]
mod runs;
#[cfg(test)]
mod searching;

// Nothing stands above these tests, so they are a program's, which does nothing.
fn main(_rt: HostRuntime) {}
