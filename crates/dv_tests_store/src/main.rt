//! Tests of a store over a folder in memory: what its commands write and answer.
#![tactic(auto)]

#[cfg(test)]
mod cases;
#[cfg(test)]
mod checks;
#[cfg(test)]
mod said;
#[cfg(test)]
mod sleepers;
#[cfg(test)]
mod views;
#[cfg(test)]
mod writes;

// Nothing stands above these tests, so they are a program's, which does nothing.
fn main(_rt: HostRuntime) {}
