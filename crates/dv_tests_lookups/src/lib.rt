//! Tests of what is looked up of a mailbox's messages: what is found, and by how many calls.
#![tactic(auto)]

#[cfg(test)]
mod looks;
