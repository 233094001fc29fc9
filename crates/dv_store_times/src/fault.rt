use dv_model::NoMemory;
use std::alloc::AllocFailed;
use std::io;

/// Why nothing was timed.
#[derive(Debug, Drop, thiserror::Error)]
pub enum Fault {
    #[error("memory ran out")]
    NoMemory,
    #[error("a mailbox of so many messages isn't opened")]
    NotOpened,
    #[error("a command isn't written")]
    NotWritten,
    #[error("the input, the output or the clock failed")]
    System,
}

impl<T: Drop> From<AllocFailed<T>> for Fault {
    fn from(_: AllocFailed<T>) -> Fault {
        Fault::NoMemory
    }
}

impl From<NoMemory> for Fault {
    fn from(_: NoMemory) -> Fault {
        Fault::NoMemory
    }
}

impl From<io::Error> for Fault {
    fn from(_: io::Error) -> Fault {
        Fault::System
    }
}
