//! Tests of a storage's lines, each script served through the library's call over a folder in
//! memory: what is answered, which files are left, and what a next run finds behind a stop.
#![tactic(auto)]

#[cfg(test)]
mod following;
#[cfg(test)]
mod mixed;
#[cfg(test)]
mod model;
#[cfg(test)]
mod rows;
#[cfg(test)]
mod runs;

// Nothing stands above these tests, so they are a program's, which does nothing.
fn main(_rt: HostRuntime) {}
