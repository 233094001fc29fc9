//! Tests of the live mailbox: its rows, and the records that change them.
#![tactic(auto)]

#[cfg(test)]
mod apply;
#[cfg(test)]
mod overlaps;
#[cfg(test)]
mod rows;
#[cfg(test)]
mod touched;
