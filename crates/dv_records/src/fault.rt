ghost use Rattle.std.specs.Prelude.{◌≡◌};
ghost use Rattle.dv_records.specs.declared.fault.DecodeEnd.TheVariants as end;

use dv_model::OutOfMemory;

/// Why the bytes at a place are no record.
#[derive(Clone, Copy, PartialEq, Eq, Debug)]
pub enum RecordFault {
    /// No record begins there: fewer than four bytes are left, or the size isn't written yet.
    Closed,
    /// The size is below that of a record's header, or goes past the end.
    BadSize,
    /// An expunge stands without the bits that protect it (Dovecot's
    /// `MAIL_TRANSACTION_EXPUNGE_PROT`).
    BadGuard,
    /// The payload isn't one of the record's type.
    BadPayload,
}

/// Why a record wasn't read.
#[derive(Clone, Copy, PartialEq, Eq, Debug)]
pub enum DecodeEnd {
    Fault(RecordFault),
    NoMemory,
}

impl<E: OutOfMemory> From<E> for DecodeEnd {
    ghost from_gives = { λ _ e. e ≡ end.NoMemory };

    fn from(_: E) -> DecodeEnd {
        DecodeEnd::NoMemory
    }
}

impl From<RecordFault> for DecodeEnd {
    ghost from_gives = { λ f e. e ≡ end.Fault f };

    fn from(fault: RecordFault) -> DecodeEnd {
        DecodeEnd::Fault(fault)
    }
}
