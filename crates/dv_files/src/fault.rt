//! Why a rotation isn't made.

ghost use Rattle.std.specs.Prelude.{◌≡◌};
ghost use Rattle.dv_files.specs.declared.fault.ChainFault.TheVariants as fault;

use dv_model::OutOfMemory;

/// Why the texts of a rotation weren't made.
#[derive(Clone, Copy, PartialEq, Eq, Debug)]
pub enum ChainFault {
    /// The disk failed, so often until now.
    Disk(u64),
    /// Memory ran out.
    NoMemory,
}

impl<E: OutOfMemory> From<E> for ChainFault {
    ghost from_gives = { λ _ e. e ≡ fault.NoMemory };

    fn from(_: E) -> ChainFault {
        ChainFault::NoMemory
    }
}

/// Which replace of a rotation failed.
#[derive(Clone, Copy, PartialEq, Eq, Debug)]
pub enum TurnEnd {
    /// The first or the second: the log is as it was.
    Before,
    /// The last: the log is the old one or the new one.
    Last,
}
