//! Tests of sessions over one log whose steps come in any order.
#![tactic(auto)]

#[cfg(test)]
mod cases;
#[cfg(test)]
mod steps;
#[cfg(test)]
mod worlds;
