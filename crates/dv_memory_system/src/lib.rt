//! A system in memory, which tells what its calls do. It keeps all that its calls did, so that
//! what a crash may leave is known at any moment.
#![tactic(auto)]

mod bytes;
mod failing;
mod images;
mod samples;
mod state;
mod step;
mod system;

pub use failing::Trace;
pub use system::{MemFile, MemSystem};
