//! Tests of clients that catch up by the program's words, each played through the program's call.
#![tactic(auto)]

#[cfg(test)]
mod cases;
#[cfg(test)]
mod generated;
#[cfg(test)]
mod runs;
#[cfg(test)]
mod words;

// Nothing stands above these tests, so they are a program's, which does nothing.
fn main(_rt: HostRuntime) {}
