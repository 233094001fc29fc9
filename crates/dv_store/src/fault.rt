//! What a failure of the shelf is for a store.

ghost use Rattle.std.specs.Prelude.{◌≡◌};
ghost use Rattle.dv_plans.specs.declared.fault.StoreFault.TheVariants as fault;
ghost use Rattle.dv_store.specs.Faults.{IsFailure, shelf_told};

use dv_plans::StoreFault;
use dv_shelf::{Shelf, ShelfFault};

/// A failure of the disk, with the shelf's count of faults.
pub(crate) fn disk<S: Shelf>(shelf: &S) -> StoreFault
    ensures { result ≡ fault.Disk (S.sees.fault_count shelf.now) }
{
    StoreFault::Disk(shelf.faults())
}

/// What a shelf answers, with its count of faults.
pub(crate) fn told<S: Shelf>(shelf: &S, fault: ShelfFault) -> StoreFault
    ensures value { result ≡ shelf_told (S.sees.fault_count shelf.now) fault }
    ensures failure { IsFailure result }
{
    match fault {
        ShelfFault::Failed => disk(shelf),
        ShelfFault::NoMemory => StoreFault::NoMemory,
    }
}
