use dv_apply::ApplyFault;
use dv_model::NoMemory;
use dv_records::DecodeEnd;
use std::alloc::AllocFailed;
use std::io;

/// Why nothing was timed.
#[derive(Debug, Drop, thiserror::Error)]
pub enum Fault {
    #[error("memory ran out")]
    NoMemory,
    #[error("no record stands there")]
    BadRecord,
    #[error("an append's UID was given out before")]
    BadAppend,
    #[error("a session hasn't selected the mailbox")]
    NotSelected,
    #[error("a write is no entry of the log")]
    NotWritten,
    #[error("the input, the output or the clock failed")]
    System,
}

impl<T: Drop> From<AllocFailed<T>> for Fault {
    fn from(_: AllocFailed<T>) -> Fault {
        Fault::NoMemory
    }
}

impl From<NoMemory> for Fault {
    fn from(_: NoMemory) -> Fault {
        Fault::NoMemory
    }
}

impl From<io::Error> for Fault {
    fn from(_: io::Error) -> Fault {
        Fault::System
    }
}

impl From<DecodeEnd> for Fault {
    fn from(end: DecodeEnd) -> Fault {
        match end {
            DecodeEnd::NoMemory => Fault::NoMemory,
            DecodeEnd::Fault(_) => Fault::BadRecord,
        }
    }
}

impl From<ApplyFault> for Fault {
    fn from(fault: ApplyFault) -> Fault {
        match fault {
            ApplyFault::NoMemory => Fault::NoMemory,
            ApplyFault::BadAppend { .. } => Fault::BadAppend,
        }
    }
}
