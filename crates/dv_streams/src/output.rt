ghost use Rattle.std.specs.Prelude.{◌≡◌, ◌+◌, ◌-◌, ◌^◌, ◌<◌, length, IsErr, OnOk, OnErr};
ghost use Rattle.dv_model.specs.Counts.{Rose};
ghost use Rattle.dv_shelf.specs.Causes.{HasCause, CountsOnce};
ghost use Rattle.dv_shelf.specs.Streams.{Appends, AppendsFront};

use crate::{CallFault, WriteCalls};
use dv_shelf::{Failed, Sink};

/// An output over the system's calls. A write that took some of the bytes is gone on with, a call
/// that was interrupted is made again, and each error is counted.
#[derive(Drop)]
pub struct WriteStream<C: WriteCalls + Drop> {
    calls: C,
    faults: u64,
}

impl<C: WriteCalls + Drop> WriteStream<C> {
    /// Nothing is written yet.
    pub fn new(calls: C) -> WriteStream<C>
        ensures calls { result.calls ≡ calls }
        ensures faults { result.faults ≡ 0 }
    {
        WriteStream { calls, faults: 0 }
    }

    /// The calls that it makes.
    pub fn calls(&self) -> &C
        ensures { result.now ≡ self.now.calls }
    {
        &self.calls
    }

    /// Counts an error, and answers it.
    fn fail(&mut self) -> Result<(), Failed>
        ensures err { IsErr result }
        ensures cause { HasCause self.old.faults self.new.faults result }
        ensures once { CountsOnce self.old.faults self.new.faults result }
        ensures calls { self.new.calls ≡ self.old.calls }
    {
        self.faults = self.faults.saturating_add(1);
        Err(Failed)
    }
}

impl<C: WriteCalls + Drop> Sink for WriteStream<C> {
    ghost sees = { record {
      tells = C.tells;
      taken = λ s. C.taken s.calls;
      fault_count = λ s. s.faults;
    } };

    fn write_all(&mut self, bytes: &[u8]) -> Result<(), Failed>
        // What the trait says.
        ensures ok { C.tells → OnOk result
            (Appends (C.taken self.old.calls) (C.taken self.new.calls) bytes.now) }
        ensures err { C.tells →
            AppendsFront (C.taken self.old.calls) (C.taken self.new.calls) bytes.now }
        ensures cause { HasCause self.old.faults self.new.faults result }
        ensures once { CountsOnce self.old.faults self.new.faults result }

        // It fails only where a call does: a part or an interruption is no failure.
        ensures failed { C.tells →
            C.interruptions self.old.calls + length bytes.now < 2 ^ 64 - 1 →
            OnErr result (Rose (C.failures self.old.calls) (C.failures self.new.calls)) }
    {
        let mut done = 0;
        for _ in 0..u64::MAX {
            if done == bytes.len() {
                return Ok(());
            }
            let (_, rest) = bytes.split_at(done);
            match self.calls.write(rest) {
                Ok(0) => return self.fail(),
                Ok(count) => done += count,
                Err(CallFault::Interrupted) => {}
                Err(CallFault::Failed) => return self.fail(),
            }
        }
        self.fail()
    }

    fn faults(&self) -> u64 {
        self.faults
    }
}
