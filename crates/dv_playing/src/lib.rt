//! A script of any number of sessions, played by the session rules over one log, and the law that
//! what is played is a run by the rules.
#![tactic(auto)]

mod laws;

pub use laws::{failures_rise, plays_are_serial, plays_go_on};
