ghost use Rattle.std.specs.Prelude.{◌≡◌, ◌+◌, List, ℕ, Option};
ghost use Rattle.std.specs.Io.{ReadsAtMost, WritesAtMost};
ghost use Rattle.dv_shelf.specs.Streams.{Takes};
ghost use Rattle.dv_streams.specs.Calls.{IsCounted, TakesSome};

/// Why a call that reads or writes did neither.
#[derive(Clone, Copy, PartialEq, Eq, Debug)]
pub enum CallFault {
    /// A signal came first (POSIX: the error `EINTR`).
    Interrupted,
    /// Any other error.
    Failed,
}

/// The system's call that reads an open file from its front on.
pub trait ReadCalls {
    ghost use Rattle.dv_streams.specs.declared.calls.CallFault.{CallFault};

    /// Calls of this type tell what they do. The members below speak of those that do.
    ghost tells: { Type 0 };

    /// The bytes that are still to be read.
    ghost left: { Self → List ℕ };

    /// How many calls have failed.
    ghost failures: { Self → ℕ };

    /// How often a call may be interrupted still.
    ghost interruptions: { Self → ℕ };

    /// Reads some of the next bytes into the front of the buffer, and gives their number: 0 at the
    /// end (POSIX `read()`).
    fn read(&mut self, buf: &mut [u8]) -> Result<usize, CallFault>
        ensures bytes { tells → Takes (left self.old) (left self.new) result buf.new }
        ensures bound { ReadsAtMost result buf.new }
        ensures counted { tells → IsCounted (failures self.old) (failures self.new)
            (interruptions self.old) (interruptions self.new) result };
}

/// The system's call that writes behind an open file's end.
pub trait WriteCalls {
    ghost use Rattle.dv_streams.specs.declared.calls.CallFault.{CallFault};

    /// Calls of this type tell what they do. The members below speak of those that do.
    ghost tells: { Type 0 };

    /// The bytes that the file has taken.
    ghost taken: { Self → List ℕ };

    /// How many calls have failed.
    ghost failures: { Self → ℕ };

    /// How often a call may be interrupted still.
    ghost interruptions: { Self → ℕ };

    /// Writes some of the bytes from the front, and gives their number: of some bytes at least
    /// one. After an error none is written (POSIX `write()`).
    fn write(&mut self, bytes: &[u8]) -> Result<usize, CallFault>
        ensures bytes { tells → TakesSome (taken self.old) (taken self.new) bytes.now result }
        ensures bound { WritesAtMost result bytes.now }
        ensures counted { tells → IsCounted (failures self.old) (failures self.new)
            (interruptions self.old) (interruptions self.new) result };
}

/// The system's call that reads the time.
pub trait TimeCalls {
    /// Calls of this type tell their readings. The members below speak of those that do.
    ghost tells: { Type 0 };

    /// The reading after so many others.
    ghost upcoming: { Self → ℕ → Option ℕ };

    /// Whole seconds since 1970, or `None` where the system can't say, or says of a time before
    /// (POSIX `clock_gettime()`).
    fn seconds(&mut self) -> Option<u64>
        ensures reading { tells → result ≡ upcoming self.old 0 }
        ensures later { tells → upcoming self.new ≡ (λ k. upcoming self.old (1 + k)) };
}
