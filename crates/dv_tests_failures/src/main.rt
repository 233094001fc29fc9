//! Tests of what a store's commands leave where a call fails, or is the last.
#![tactic(auto)]

#[cfg(test)]
mod failures;
#[cfg(test)]
mod long_logs;
#[cfg(test)]
mod runs;
#[cfg(test)]
mod states;

// Nothing stands above these tests, so they are a program's, which does nothing.
fn main(_rt: HostRuntime) {}
