//! The header fields of a message and its two sizes (RFC 5322, sections 2.1 and 2.2).
#![tactic(auto)]

mod fields;
mod lines;
mod sizes;

pub use fields::field_of;
pub use sizes::{physical, virtual_size};
