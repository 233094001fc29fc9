ghost use Rattle.std.specs.Prelude.{◌≡◌, ◌≢◌, ◌↔◌, IsErr, is_err};
ghost use Rattle.dv_shelf.specs.Causes.{HasCause, CountsOnce};
ghost use Rattle.dv_shelf.specs.Failures.{turn_of, after_call, after_fault, after_answer, untried, is_behind, is_listed};

use crate::Failed;
use dv_model::List;

/// What becomes of a call.
#[derive(Clone, Copy, PartialEq, Eq)]
pub enum Turn {
    Passes,
    /// It is listed among those that fail.
    Fails,
    /// It stands behind the stop: it fails and leaves no trace.
    Stopped,
}

/// Which calls of an object fail, and how many calls and faults were counted.
#[derive(Drop)]
pub struct Failures {
    /// Numbers of calls that fail; the first call is number 1.
    pub listed: List<u32>,
    /// The number of calls behind which all fail.
    pub stop: Option<u32>,
    pub calls: u64,
    pub faults: u64,
}

impl Failures {
    /// No call was made yet.
    pub fn new(listed: List<u32>, stop: Option<u32>) -> Failures
        ensures { result ≡ untried listed stop }
    {
        Failures {
            listed,
            stop,
            calls: 0,
            faults: 0,
        }
    }

    /// Counts a call, and says what becomes of it.
    pub fn count_call(&mut self) -> Turn
        ensures turn { result ≡ turn_of self.old }
        ensures counted { self.new ≡ after_call self.old }
    {
        self.calls = self.calls.saturating_add(1);
        if is_behind(self.stop, self.calls) {
            Turn::Stopped
        } else if is_listed(&self.listed, self.calls) {
            Turn::Fails
        } else {
            Turn::Passes
        }
    }

    /// Counts a fault, and answers it.
    pub fn fail(&mut self) -> Result<(), Failed>
        ensures err { IsErr result }
        ensures counted { self.new ≡ after_fault self.old }
        ensures cause { HasCause self.old.faults self.new.faults result }
        ensures once { CountsOnce self.old.faults self.new.faults result }
    {
        self.faults = self.faults.saturating_add(1);
        Err(Failed)
    }

    /// Counts a call, and a fault where it is one of those that fail.
    pub fn call(&mut self) -> Result<(), Failed>
        ensures fails { IsErr result ↔ (turn_of self.old ≢ Turn.Passes) }
        ensures counted { self.new ≡ after_answer self.old (is_err result) }
        ensures cause { HasCause self.old.faults self.new.faults result }
        ensures once { CountsOnce self.old.faults self.new.faults result }
    {
        if self.count_call() == Turn::Passes {
            Ok(())
        } else {
            self.fail()
        }
    }
}

fn is_behind(stop: Option<u32>, call: u64) -> bool
    ensures { result ≡ is_behind stop call }
{
    match stop {
        None => false,
        Some(stop) => u64::from(stop) < call,
    }
}

fn is_listed(listed: &List<u32>, call: u64) -> bool
    ensures { result ≡ is_listed listed.now call }
{
    listed.as_slice().iter().any(|k| u64::from(*k) == call)
}
