//! Tests of a folder over a system in memory, and of streams over calls in memory.
#![tactic(auto)]

#[cfg(test)]
mod allowed;
#[cfg(test)]
mod cases;
#[cfg(test)]
mod disk;
#[cfg(test)]
mod folders;
#[cfg(test)]
mod streams;
#[cfg(test)]
mod syncs;
