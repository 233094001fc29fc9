//! Tests of clients that catch up, and copies of mailboxes that are compared.
#![tactic(auto)]

#[cfg(test)]
mod answers;
#[cfg(test)]
mod cases;
#[cfg(test)]
mod mailboxes;
#[cfg(test)]
mod ranges;
mod replicas;
#[cfg(test)]
mod rows;

pub use replicas::{catch_up, hear_each};
