//! Tests that cross crates: what a folder, its records and its commands go through on their way.
#![tactic(auto)]

#[cfg(test)]
mod copies;
#[cfg(test)]
mod keywords;
#[cfg(test)]
mod prepared;
#[cfg(test)]
mod servers;
