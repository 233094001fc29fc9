//! Tests of scripts whose sessions are served in threads, each played through the program's call:
//! what one session is answered, how sessions meet, how many there may be, how runs end, and what
//! is left where a call of the folder fails, or the folder stops.
#![tactic(auto)]

#[cfg(test)]
mod crowds;
#[cfg(test)]
mod endings;
#[cfg(test)]
mod failures;
#[cfg(test)]
mod gates;
#[cfg(test)]
mod meetings;
#[cfg(test)]
mod rows;
#[cfg(test)]
mod runs;
#[cfg(test)]
mod sleeper;

// Nothing stands above these tests, so they are a program's, which does nothing.
fn main(_rt: HostRuntime) {}
