ghost use Rattle.std.specs.Prelude.{◌≡◌, is_some, None, IsErr, IsErrOf};
ghost use Rattle.dv_shelf.specs.Causes.{HasCause, HasCauseOf, CountsOnce};
ghost use Rattle.dv_shelf.specs.Folders.{counted, mail_reads_of};

use dv_shelf::{Failed, Name, Shelf, ShelfFault};
use std::snapshot::Snapshot;

/// What becomes of a call.
#[derive(Clone, Copy, PartialEq, Eq)]
pub enum Turn {
    /// It is passed on.
    Passes,
    /// It is passed on, and fails: the stop comes in the middle of it.
    Stops,
    /// It stands behind the stop: it fails and leaves no trace.
    Behind,
}

/// A shelf that stops, over any shelf. It passes so many calls, passes the next on too but answers
/// that it failed, and then fails without a trace. What it may leave then is what the inner shelf
/// might have left at some moment since before the call that stopped, as after a power cut in the
/// middle of that call.
#[derive(Drop)]
pub struct Stopping<S> {
    pub(crate) inner: S,
    /// How many calls are passed still.
    left: u64,
    /// The inner shelf as it was before the call that stopped.
    stop: Option<Snapshot<S>>,
    pub(crate) faults: u64,
    pub(crate) mail_reads: u64,
}

impl<S: Shelf> Stopping<S> {
    ghost use Rattle.dv_stopping.specs.Turns.{turn_of, Begun};
    ghost use Rattle.dv_shelf.specs.declared.shelf.ShelfFault.TheVariants as fault;

    /// A shelf over this one that passes so many calls. What it shows is what the inner shelf does,
    /// but that no call was counted.
    pub fn new(inner: S, calls: u64) -> Stopping<S>
        ensures inner { result.inner ≡ inner }
        ensures left { result.left ≡ calls }
        ensures stop { result.stop ≡ None }
        ensures faults { result.faults ≡ 0 }
        ensures reads { result.mail_reads ≡ 0 }
    {
        Stopping {
            inner,
            left: calls,
            stop: None,
            faults: 0,
            mail_reads: 0,
        }
    }

    /// Whether it has stopped.
    pub fn has_stopped(&self) -> bool
        ensures { result ≡ is_some self.now.stop }
    {
        self.stop.is_some()
    }

    /// The inner shelf.
    pub fn into_inner(self) -> S
        ensures { result ≡ self.inner }
    {
        self.inner
    }

    /// What becomes of the next call; the stop is marked where it comes.
    pub(crate) fn begin(&mut self) -> Turn
        ensures turn { result ≡ turn_of self.old }
        ensures begun { Begun result self.old self.new }
        ensures inner { self.new.inner ≡ self.old.inner }
        ensures faults { self.new.faults ≡ self.old.faults }
        ensures reads { self.new.mail_reads ≡ self.old.mail_reads }
    {
        if self.stop.is_some() {
            return Turn::Behind;
        }
        if self.left == 0 {
            self.stop = Some(Snapshot::of(&self.inner));
            return Turn::Stops;
        }
        self.left -= 1;
        Turn::Passes
    }

    /// Counts a failure, and answers it.
    pub(crate) fn fail(&mut self) -> Result<(), Failed>
        ensures err { IsErr result }
        ensures cause { HasCause self.old.faults self.new.faults result }
        ensures once { CountsOnce self.old.faults self.new.faults result }
        ensures others { self.new ≡ record self.old { faults = self.new.faults } }
    {
        self.faults = self.faults.saturating_add(1);
        Err(Failed)
    }

    /// Counts the failure of a look, and answers it.
    pub(crate) fn fail_look<T>(&mut self) -> Result<T, ShelfFault>
        ensures err { IsErrOf result fault.Failed }
        ensures cause { HasCauseOf fault.Failed self.old.faults self.new.faults result }
        ensures once { self.new.faults ≡ counted self.old.faults 1 }
        ensures others { self.new ≡ record self.old { faults = self.new.faults } }
    {
        self.faults = self.faults.saturating_add(1);
        Err(ShelfFault::Failed)
    }

    /// Counts an answer, if it is a failure, and gives it.
    pub(crate) fn counted(&mut self, done: Result<(), Failed>) -> Result<(), Failed>
        ensures answer { result ≡ done }
        ensures cause { HasCause self.old.faults self.new.faults result }
        ensures once { CountsOnce self.old.faults self.new.faults result }
        ensures others { self.new ≡ record self.old { faults = self.new.faults } }
    {
        if done.is_err() {
            self.faults = self.faults.saturating_add(1);
        }
        done
    }

    /// Counts a look's answer, if it is a failure, and gives it.
    pub(crate) fn counted_look<T>(&mut self, found: Result<T, ShelfFault>) -> Result<T, ShelfFault>
        ensures answer { result ≡ found }
        ensures cause { HasCauseOf fault.Failed self.old.faults self.new.faults result }
        ensures once { IsErrOf result fault.Failed →
            self.new.faults ≡ counted self.old.faults 1 }
        ensures others { self.new ≡ record self.old { faults = self.new.faults } }
    {
        if let Err(ShelfFault::Failed) = &found {
            self.faults = self.faults.saturating_add(1);
        }
        found
    }
}

/// The count of reads of message files after a read of this name.
pub fn count_read(reads: u64, name: Name) -> u64
    ensures { result ≡ counted reads (mail_reads_of name) }
{
    match name {
        Name::Mail(_) => reads.saturating_add(1),
        _ => reads,
    }
}
