ghost use Rattle.std.specs.Prelude.{◌≡◌, ◌+◌, ◌^◌, ◌<◌, length, Some, None, IsErr, IsErrOf, MatchBool};
ghost use Rattle.dv_shelf.specs.Causes.{HasCause, HasCauseOf, CountsOnce};
ghost use Rattle.dv_shelf.specs.Folders.{counted, mail_reads_of, Lists, IsNew};

use crate::Stopping;
use crate::stopping::Turn;
use dv_model::{Bytes, List};
use dv_shelf::{Failed, Name, Shelf, ShelfFault};
use std::alloc::Global;

impl<S: Shelf> Stopping<S> {
    ghost use Rattle.dv_stopping.specs.Turns.{turn_of, Turned, WritesAt, Replaces, Syncs, Looks};
    ghost use Rattle.dv_shelf.specs.declared.shelf.ShelfFault.TheVariants as fault;

    pub(crate) fn pass_read(
        &mut self,
        alloc: Global,
        name: Name,
    ) -> Result<Option<Bytes>, ShelfFault>
        ensures turn { Turned (turn_of self.old) S.sees
            (Looks S.sees (λ files bytes. bytes ≡ files name)
            (λ reads. counted reads (mail_reads_of name)))
            (IsErrOf result fault.Failed) self.old self.new result }
        ensures reads { self.new.mail_reads ≡ self.old.mail_reads }
        ensures cause { HasCauseOf fault.Failed self.old.faults self.new.faults result }
        ensures once { IsErrOf result fault.Failed →
            self.new.faults ≡ counted self.old.faults 1 }
    {
        match self.begin() {
            Turn::Passes => {
                let found = self.inner.read(alloc, name);
                self.counted_look(found)
            }
            Turn::Stops => {
                let _ = self.inner.read(alloc, name);
                self.fail_look()
            }
            Turn::Behind => self.fail_look(),
        }
    }

    pub(crate) fn pass_has_mailbox(&mut self, alloc: Global) -> Result<bool, ShelfFault>
        ensures turn { Turned (turn_of self.old) S.sees
            (Looks S.sees (λ files has. MatchBool has (IsNew files → ⊥) (IsNew files))
            (λ reads. reads))
            (IsErrOf result fault.Failed) self.old self.new result }
        ensures reads { self.new.mail_reads ≡ self.old.mail_reads }
        ensures cause { HasCauseOf fault.Failed self.old.faults self.new.faults result }
        ensures once { IsErrOf result fault.Failed →
            self.new.faults ≡ counted self.old.faults 1 }
    {
        match self.begin() {
            Turn::Passes => {
                let found = self.inner.has_mailbox(alloc);
                self.counted_look(found)
            }
            Turn::Stops => {
                let _ = self.inner.has_mailbox(alloc);
                self.fail_look()
            }
            Turn::Behind => self.fail_look(),
        }
    }

    pub(crate) fn pass_list(&mut self, alloc: Global) -> Result<List<Name>, ShelfFault>
        ensures turn { Turned (turn_of self.old) S.sees
            (Looks S.sees (λ files names. Lists files names) (λ reads. reads))
            (IsErrOf result fault.Failed) self.old self.new result }
        ensures reads { self.new.mail_reads ≡ self.old.mail_reads }
        ensures cause { HasCauseOf fault.Failed self.old.faults self.new.faults result }
        ensures once { IsErrOf result fault.Failed →
            self.new.faults ≡ counted self.old.faults 1 }
    {
        match self.begin() {
            Turn::Passes => {
                let found = self.inner.list(alloc);
                self.counted_look(found)
            }
            Turn::Stops => {
                let _ = self.inner.list(alloc);
                self.fail_look()
            }
            Turn::Behind => self.fail_look(),
        }
    }

    pub(crate) fn pass_write_at(&mut self, name: Name, at: u32, bytes: &[u8]) -> Result<(), Failed>
        requires { at + length bytes.now < 2 ^ 32 }
        ensures turn { Turned (turn_of self.old) S.sees (WritesAt S.sees name at bytes.now)
            (IsErr result) self.old self.new result }
        ensures reads { self.new.mail_reads ≡ self.old.mail_reads }
        ensures cause { HasCause self.old.faults self.new.faults result }
        ensures once { CountsOnce self.old.faults self.new.faults result }
    {
        match self.begin() {
            Turn::Passes => {
                let done = self.inner.write_at(name, at, bytes);
                self.counted(done)
            }
            Turn::Stops => {
                let _ = self.inner.write_at(name, at, bytes);
                self.fail()
            }
            Turn::Behind => self.fail(),
        }
    }

    pub(crate) fn pass_sync(&mut self, name: Name) -> Result<(), Failed>
        ensures turn { Turned (turn_of self.old) S.sees (Syncs S.sees name)
            (IsErr result) self.old self.new result }
        ensures reads { self.new.mail_reads ≡ self.old.mail_reads }
        ensures cause { HasCause self.old.faults self.new.faults result }
        ensures once { CountsOnce self.old.faults self.new.faults result }
    {
        match self.begin() {
            Turn::Passes => {
                let done = self.inner.sync(name);
                self.counted(done)
            }
            Turn::Stops => {
                let _ = self.inner.sync(name);
                self.fail()
            }
            Turn::Behind => self.fail(),
        }
    }

    pub(crate) fn pass_replace(&mut self, name: Name, bytes: &[u8]) -> Result<(), Failed>
        ensures turn { Turned (turn_of self.old) S.sees (Replaces S.sees name (Some bytes.now))
            (IsErr result) self.old self.new result }
        ensures reads { self.new.mail_reads ≡ self.old.mail_reads }
        ensures cause { HasCause self.old.faults self.new.faults result }
        ensures once { CountsOnce self.old.faults self.new.faults result }
    {
        match self.begin() {
            Turn::Passes => {
                let done = self.inner.replace(name, bytes);
                self.counted(done)
            }
            Turn::Stops => {
                let _ = self.inner.replace(name, bytes);
                self.fail()
            }
            Turn::Behind => self.fail(),
        }
    }

    pub(crate) fn pass_remove(&mut self, name: Name) -> Result<(), Failed>
        ensures turn { Turned (turn_of self.old) S.sees (Replaces S.sees name None)
            (IsErr result) self.old self.new result }
        ensures reads { self.new.mail_reads ≡ self.old.mail_reads }
        ensures cause { HasCause self.old.faults self.new.faults result }
        ensures once { CountsOnce self.old.faults self.new.faults result }
    {
        match self.begin() {
            Turn::Passes => {
                let done = self.inner.remove(name);
                self.counted(done)
            }
            Turn::Stops => {
                let _ = self.inner.remove(name);
                self.fail()
            }
            Turn::Behind => self.fail(),
        }
    }
}
