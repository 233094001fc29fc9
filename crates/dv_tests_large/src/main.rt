//! Tests of runs that need much at once: many sessions, many changed or told rows, a long rebuilt
//! log. Each is played through the program's call.
#![tactic(auto)]

#[cfg(test)]
mod cases;
#[cfg(test)]
mod folders;
#[cfg(test)]
mod large;

// Nothing stands above these tests, so they are a program's, which does nothing.
fn main(_rt: HostRuntime) {}
