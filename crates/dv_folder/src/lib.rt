//! The real folder, standard input and output, and the system's clock. What the system does isn't
//! proved: these calls are trusted to do what their names say.
#![tactic(auto)]

mod calls;
mod folder;
mod kinds;
mod names;
mod streams;
mod system_clock;

pub use dv_disk::Missing;
pub use folder::Folder;
pub use names::Layout;
pub use streams::{Input, Output, write_error};
pub use system_clock::SystemClock;
