//! Why a call on a storage gave nothing.

ghost use Rattle.std.specs.Prelude.{◌≡◌, Err, MatchResult, Ok};
ghost use Rattle.dv_mdbox.specs.Answers.{chain_told, shelf_told};
ghost use Rattle.dv_mdbox.specs.declared.fault.StorageFault.TheVariants as fault;

use dv_files::ChainFault;
use dv_model::OutOfMemory;
use dv_shelf::{Failed, Shelf, ShelfFault};

/// Why a call on a storage gave nothing. The ids are then as before, but for those that a purge has
/// removed by then.
#[derive(Clone, Copy, PartialEq, Eq, Debug)]
pub enum StorageFault {
    /// Memory ran out.
    NoMemory,
    /// The disk failed, so often until now.
    Disk(u64),
    /// The id isn't there, or has no reference.
    None,
    /// The id has 65,535 references, the most that there can be.
    Full,
    /// No id is left.
    Ids,
    /// No number is left for a new file.
    Files,
    /// The message or the group has so many bytes, which are too many.
    TooLong { bytes: u64 },
}

impl<E: OutOfMemory> From<E> for StorageFault {
    ghost from_gives = { λ _ e. e ≡ fault.NoMemory };

    fn from(_: E) -> StorageFault {
        StorageFault::NoMemory
    }
}

/// A failure of the disk, with the shelf's count of faults.
pub(crate) fn disk<S: Shelf>(shelf: &S) -> StorageFault
    ensures { result ≡ fault.Disk (S.sees.fault_count shelf.now) }
{
    StorageFault::Disk(shelf.faults())
}

/// What a shelf answers, with its count of faults.
pub(crate) fn told<S: Shelf>(shelf: &S, fault: ShelfFault) -> StorageFault
    ensures { result ≡ shelf_told (S.sees.fault_count shelf.now) fault }
{
    match fault {
        ShelfFault::Failed => disk(shelf),
        ShelfFault::NoMemory => StorageFault::NoMemory,
    }
}

/// What comes of calls on a shelf that only fail.
pub(crate) fn outcome<S: Shelf>(shelf: &S, done: Result<(), Failed>) -> Result<(), StorageFault>
    ensures { MatchResult done (λ x. result ≡ Ok x)
        (λ e. result ≡ Err (fault.Disk (S.sees.fault_count shelf.now))) }
{
    match done {
        Ok(()) => Ok(()),
        Err(_) => Err(disk(shelf)),
    }
}

/// What comes of the files and of memory.
pub(crate) fn chain_fault(told: ChainFault) -> StorageFault
    ensures { result ≡ chain_told told }
{
    match told {
        ChainFault::Disk(faults) => StorageFault::Disk(faults),
        ChainFault::NoMemory => StorageFault::NoMemory,
    }
}
