//! Tests of a POP3 session by the program's word, each script played through the program's call:
//! what is answered, of which messages, how runs end, and what is left where a call of the folder
//! fails, or the folder stops.
#![tactic(auto)]

#[cfg(test)]
mod cases;
#[cfg(test)]
mod endings;
#[cfg(test)]
mod failures;
#[cfg(test)]
mod lines;
#[cfg(test)]
mod messages;
#[cfg(test)]
mod runs;

// Nothing stands above these tests, so they are a program's, which does nothing.
fn main(_rt: HostRuntime) {}
