ghost use Rattle.std.specs.Prelude.{◌≡◌, IfOk};

use crate::OpenFault;
use std::alloc::{AllocError, AllocFailed, Global};

/// Memory ran out.
#[derive(Clone, Copy, PartialEq, Eq, Debug)]
pub struct NoMemory;

impl From<AllocError> for NoMemory {
    fn from(_: AllocError) -> NoMemory {
        NoMemory
    }
}

impl<T: Drop> From<AllocFailed<T>> for NoMemory {
    fn from(_: AllocFailed<T>) -> NoMemory {
        NoMemory
    }
}

/// An error that says that memory ran out. Each error with a variant for it is made from all of
/// them by one `From`.
pub trait OutOfMemory: Drop {}

impl OutOfMemory for NoMemory {}

impl OutOfMemory for AllocError {}

impl<T: Drop> OutOfMemory for AllocFailed<T> {}

impl<E: OutOfMemory> From<E> for OpenFault {
    ghost use Rattle.dv_model.specs.declared.types.OpenFault.TheVariants as open_fault;

    ghost from_gives = { λ _ fault. fault ≡ open_fault.NoMemory };

    fn from(_: E) -> OpenFault {
        OpenFault::NoMemory
    }
}

/// A value of which an equal one can be made.
pub trait Duplicate: Drop {
    /// An equal value. `NoMemory` is the only error.
    fn duplicate(&self, alloc: Global) -> Result<Self, NoMemory>
        ensures { IfOk result (λ made. made ≡ self.now) };
}
