ghost use Rattle.std.specs.Prelude.{◌≡◌};
ghost use Rattle.dv_dbox.specs.declared.fault.BoxEnd.TheVariants.{Fault, NoMemory};

use dv_model::OutOfMemory;

/// The part of a message file that is the first to break the format.
#[derive(Clone, Copy, PartialEq, Eq, Debug)]
pub enum BoxFault {
    /// The first line isn't `2` with `M1e` and a `C` of 1 to 8 hexadecimal digits.
    BadHeader,
    /// The 30 bytes of the message header don't follow.
    BadMessageHeader,
    /// Fewer bytes than the message's size follow.
    BadSize,
    /// The four bytes 0a 01 03 0a don't stand behind the message.
    BadEnd,
    /// The empty line behind the metadata is missing, a line has no key, or the value of a known
    /// key isn't of its form.
    BadMetadata,
}

/// Why a message file couldn't be read.
#[derive(Clone, Copy, PartialEq, Eq, Debug)]
pub enum BoxEnd {
    Fault(BoxFault),
    NoMemory,
}

impl From<BoxFault> for BoxEnd {
    ghost from_gives = { λ fault end. end ≡ Fault fault };

    fn from(fault: BoxFault) -> BoxEnd {
        BoxEnd::Fault(fault)
    }
}

impl<E: OutOfMemory> From<E> for BoxEnd {
    ghost from_gives = { λ _ end. end ≡ NoMemory };

    fn from(_: E) -> BoxEnd {
        BoxEnd::NoMemory
    }
}
