//! The lines of a storage's script served over its folder, one call each: what each answers and
//! leaves, and what holds of all of them, from run to run.
#![tactic(auto)]

mod answering;
mod calls;
mod ending;
mod laws;
mod opening;
mod running;
mod serving;

pub use ending::{CallEnd, StorageEnd};
pub use laws::{counts_go_on, next_runs_begin};
pub use opening::open_storage;
pub use running::{Ran, run_storage};
pub use serving::serve_calls;
