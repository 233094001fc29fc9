//! The numbers of the log: the coded size of a record, and little-endian fields.
#![tactic(auto)]

mod fields;
mod sizes;

pub use fields::{u16_at, u32_at, u64_at};
pub use sizes::{size_code, size_value};
