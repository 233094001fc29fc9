//! What reading a log file whole gives.

ghost use Rattle.std.specs.Prelude.{◌≡◌};
ghost use Rattle.dv_logfile.specs.declared.outcome.ScanEnd.TheVariants as end;

use crate::LogHeader;
use dv_model::{List, OutOfMemory, Record};

/// What a log file holds.
#[derive(Drop)]
pub struct Scan {
    /// What stands before the records.
    pub header: LogHeader,
    /// Where each record begins, in turn, in bytes from the file's start.
    pub places: List<u32>,
    /// The records, one for each place.
    pub records: List<Record>,
    /// Where the last record ends, and no further one begins.
    pub end: u32,
}

/// Why a log file wasn't read.
#[derive(Clone, Copy, PartialEq, Eq, Debug)]
pub enum ScanEnd {
    /// The file begins with no header that is taken.
    BadHeader,
    /// The record that begins there has a fault, or ends past 1,073,741,820.
    BadRecord { offset: u32 },
    NoMemory,
}

impl<E: OutOfMemory> From<E> for ScanEnd {
    ghost from_gives = { λ _ e. e ≡ end.NoMemory };

    fn from(_: E) -> ScanEnd {
        ScanEnd::NoMemory
    }
}
