//! Why a write isn't made ready.

ghost use Rattle.std.specs.Prelude.{◌≡◌};
ghost use Rattle.dv_plans.specs.Faults.{chain_told, limit_told, shelf_told};
ghost use Rattle.dv_plans.specs.declared.fault.StoreFault.TheVariants as fault;

use dv_files::ChainFault;
use dv_groups::Limit;
use dv_model::OutOfMemory;
use dv_shelf::{Shelf, ShelfFault};

/// Why a command's write isn't made.
#[derive(Clone, Copy, PartialEq, Eq, Debug)]
pub enum StoreFault {
    /// The disk failed, so often until now (RFC 5530, UNAVAILABLE).
    Disk(u64),
    /// Memory ran out.
    NoMemory,
    /// No UID is left (RFC 5530, LIMIT).
    UidsUsedUp,
    /// The message or the group has so many bytes, which are too many (RFC 5530, LIMIT).
    TooLong { bytes: u64 },
}

impl<E: OutOfMemory> From<E> for StoreFault {
    ghost from_gives = { λ _ e. e ≡ fault.NoMemory };

    fn from(_: E) -> StoreFault {
        StoreFault::NoMemory
    }
}

/// A limit that is met.
pub fn limit_fault(limit: Limit) -> StoreFault
    ensures { result ≡ limit_told limit }
{
    match limit {
        Limit::UidsUsedUp => StoreFault::UidsUsedUp,
        Limit::TooLong { bytes } => StoreFault::TooLong { bytes },
    }
}

/// What comes of the files and of memory.
pub fn chain_fault(told: ChainFault) -> StoreFault
    ensures { result ≡ chain_told told }
{
    match told {
        ChainFault::Disk(faults) => StoreFault::Disk(faults),
        ChainFault::NoMemory => StoreFault::NoMemory,
    }
}

/// What a shelf answers, with its count of faults.
pub fn told<S: Shelf>(shelf: &S, fault: ShelfFault) -> ChainFault
    ensures { result ≡ shelf_told (S.sees.fault_count shelf.now) fault }
{
    match fault {
        ShelfFault::Failed => ChainFault::Disk(shelf.faults()),
        ShelfFault::NoMemory => ChainFault::NoMemory,
    }
}
