//! Standard error.

ghost use Rattle.std.specs.Prelude.{[]};

use dv_folder::write_error;
use dv_shelf::{Failed, Sink};

/// Standard error. There is no other place to tell of a failure, so it is passed over.
#[derive(Drop)]
pub struct ErrorOutput {
    rt: HostRuntime,
}

impl ErrorOutput {
    /// Standard error, to which this program has written nothing yet.
    pub fn new(rt: HostRuntime) -> ErrorOutput {
        ErrorOutput { rt }
    }
}

impl Sink for ErrorOutput {
    ghost sees = { record { tells = ⊥; taken = λ _. []; fault_count = λ _. 0 } };

    fn write_all(&mut self, bytes: &[u8]) -> Result<(), Failed> {
        write_error(self.rt, bytes);
        Ok(())
    }

    fn faults(&self) -> u64 {
        0
    }
}
