ghost use Rattle.std.specs.Prelude.{◌≡◌, ◌-◌, ◌^◌, ◌<◌, IsErr, OnErr};
ghost use Rattle.std.specs.Io.{ReadsAtMost};
ghost use Rattle.dv_model.specs.Counts.{Rose};
ghost use Rattle.dv_shelf.specs.Causes.{HasCause, CountsOnce};
ghost use Rattle.dv_shelf.specs.Streams.{Takes};

use crate::{CallFault, ReadCalls};
use dv_shelf::{Failed, Source};

/// A script over the system's calls. A call that was interrupted is made again, and each error is
/// counted.
#[derive(Drop)]
pub struct ReadStream<C: ReadCalls + Drop> {
    calls: C,
    faults: u64,
}

impl<C: ReadCalls + Drop> ReadStream<C> {
    /// Nothing is read yet.
    pub fn new(calls: C) -> ReadStream<C>
        ensures calls { result.calls ≡ calls }
        ensures faults { result.faults ≡ 0 }
    {
        ReadStream { calls, faults: 0 }
    }

    /// Counts an error, and answers it.
    fn fail(&mut self) -> Result<usize, Failed>
        ensures err { IsErr result }
        ensures cause { HasCause self.old.faults self.new.faults result }
        ensures once { CountsOnce self.old.faults self.new.faults result }
        ensures calls { self.new.calls ≡ self.old.calls }
    {
        self.faults = self.faults.saturating_add(1);
        Err(Failed)
    }
}

impl<C: ReadCalls + Drop> Source for ReadStream<C> {
    ghost sees = { record {
      tells = C.tells;
      left = λ s. C.left s.calls;
      fault_count = λ s. s.faults;
    } };

    fn read(&mut self, buf: &mut [u8]) -> Result<usize, Failed>
        // What the trait says.
        ensures bytes { C.tells →
            Takes (C.left self.old.calls) (C.left self.new.calls) result buf.new }
        ensures bound { ReadsAtMost result buf.new }
        ensures cause { HasCause self.old.faults self.new.faults result }
        ensures once { CountsOnce self.old.faults self.new.faults result }

        // It fails only where a call does: an interruption is no failure.
        ensures failed { C.tells → C.interruptions self.old.calls < 2 ^ 64 - 1 →
            OnErr result (Rose (C.failures self.old.calls) (C.failures self.new.calls)) }
    {
        for _ in 0..u64::MAX {
            match self.calls.read(buf) {
                Ok(count) => return Ok(count),
                Err(CallFault::Interrupted) => {}
                Err(CallFault::Failed) => return self.fail(),
            }
        }
        self.fail()
    }

    fn faults(&self) -> u64 {
        self.faults
    }
}
