//! Tests of the calls on a storage by the program's word, each script played through the program's
//! call: what is answered, what is left, what a stop at each call leaves, and how runs end.
#![tactic(auto)]

#[cfg(test)]
mod answers;
#[cfg(test)]
mod cases;
#[cfg(test)]
mod endings;
#[cfg(test)]
mod runs;
#[cfg(test)]
mod stops;

// Nothing stands above these tests, so they are a program's, which does nothing.
fn main(_rt: HostRuntime) {}
