//! Tests of a folder that is opened, written and rotated.
#![tactic(auto)]

#[cfg(test)]
mod chain;
#[cfg(test)]
mod commits;
#[cfg(test)]
mod ends;
#[cfg(test)]
mod folders;
#[cfg(test)]
mod rotation;
