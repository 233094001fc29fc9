//! The one place that writes to a storage's folder: what an earlier write left is repaired, a long
//! log is rotated, the texts of messages are written, and then the group of the map's log. None of
//! these calls takes memory.
#![tactic(auto)]

mod carrying;
mod clearing;
mod files;
mod repairs;
mod steps;
mod turns;
mod way;

pub use carrying::carry_out;
pub use clearing::clear;
pub use files::write_files;
pub use repairs::pay;
pub use steps::{Files, Steps};
pub use turns::turn_over;
pub use way::make_way;
