//! Tests of a keeper's calls: worked rows, whole and by parts, sessions that compare and rejoin,
//! eight that sleep through rotations, and a POP3 client beside a session that writes.
#![tactic(auto)]

#[cfg(test)]
mod maildrops;
#[cfg(test)]
mod meeting;
#[cfg(test)]
mod plays;
#[cfg(test)]
mod rows;
#[cfg(test)]
mod sleeper;

// Nothing stands above these tests, so they are a program's, which does nothing.
fn main(_rt: HostRuntime) {}
