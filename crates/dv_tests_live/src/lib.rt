//! Tests of kept searches over a mailbox that records change: by hand, and generated.
#![tactic(auto)]

#[cfg(test)]
mod follower;
#[cfg(test)]
mod generated;
#[cfg(test)]
mod keys;
#[cfg(test)]
mod rows;
