//! The outside: files, a script, an output and a clock.
#![tactic(auto)]

mod clock;
mod failures;
mod files;
mod images;
mod mem_clock;
mod mem_shelf;
mod mem_streams;
mod record;
mod sends;
mod shelf;
mod streams;

pub use clock::{Clock, Gate};
pub use files::is_of_mailbox;
pub use mem_clock::{MemClock, OpenGate};
pub use mem_shelf::{Folder, MemShelf};
pub use mem_streams::{MemSink, MemSource};
pub use shelf::{Failed, Name, Shelf, ShelfFault};
pub use streams::{Sink, Source};
