//! What any list of records leaves of the modification sequences of rows, as laws.
#![tactic(auto)]

mod laws;

pub use laws::rows_stay_or_rise;
