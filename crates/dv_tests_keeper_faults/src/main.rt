//! Tests of what two sessions of a keeper are answered, and what its folder keeps, where a call of
//! the folder fails, or is the last.
#![tactic(auto)]

#[cfg(test)]
mod failures;
#[cfg(test)]
mod lines;
#[cfg(test)]
mod runs;
#[cfg(test)]
mod script;
#[cfg(test)]
mod stops;

// Nothing stands above these tests, so they are a program's, which does nothing.
fn main(_rt: HostRuntime) {}
