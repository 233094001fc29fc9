//! An output that is not kept.

ghost use Rattle.std.specs.Prelude.{[], IsOk};
ghost use Rattle.dv_shelf.specs.Causes.{HasCause, CountsOnce};

use dv_shelf::{Failed, Sink};

/// An output that takes all bytes and keeps none. It never fails, and does not tell what it took.
#[derive(Clone, Copy)]
pub struct NullSink;

impl Sink for NullSink {
    // It has no contents to tell of.
    ghost sees = { record { tells = ⊥; taken = λ _. []; fault_count = λ _. 0 } };

    fn write_all(&mut self, _bytes: &[u8]) -> Result<(), Failed>
        ensures never { IsOk result }
        ensures cause { HasCause 0 0 result }
        ensures once { CountsOnce 0 0 result }
    {
        Ok(())
    }

    fn faults(&self) -> u64 {
        0
    }
}
