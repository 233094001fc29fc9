ghost use Rattle.std.specs.Prelude.{◌≡◌};
ghost use Rattle.dv_apply.specs.declared.fault.ApplyFault.TheVariants as fault;

use dv_model::OutOfMemory;

/// Why a record wasn't applied. The mailbox is as before.
#[derive(Clone, Copy, PartialEq, Eq, Debug)]
pub enum ApplyFault {
    /// A row of an append has this UID, which is below the UIDNEXT that the rows before it leave.
    BadAppend { uid: u32, next_uid: u32 },
    NoMemory,
}

impl<E: OutOfMemory> From<E> for ApplyFault {
    ghost from_gives = { λ _ e. e ≡ fault.NoMemory };

    fn from(_: E) -> ApplyFault {
        ApplyFault::NoMemory
    }
}
