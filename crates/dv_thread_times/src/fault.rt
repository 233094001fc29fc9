use dv_model::NoMemory;
use std::alloc::AllocFailed;
use std::io;

/// Why sessions aren't timed.
#[derive(Clone, Copy, Debug)]
pub enum Fault {
    NoMemory,
    /// The folder isn't opened.
    NotOpened,
    /// The script isn't one of 1 to 64 sessions, or a command is refused or reads messages.
    BadScript,
    /// The input, the output or the clock failed.
    System,
}

impl From<NoMemory> for Fault {
    fn from(_: NoMemory) -> Fault {
        Fault::NoMemory
    }
}

impl<T: Drop> From<AllocFailed<T>> for Fault {
    fn from(_: AllocFailed<T>) -> Fault {
        Fault::NoMemory
    }
}

impl From<io::Error> for Fault {
    fn from(_: io::Error) -> Fault {
        Fault::System
    }
}
