ghost use Rattle.std.specs.Prelude.{◌≡◌, IsErrOf};
ghost use Rattle.dv_shelf.specs.Folders.{counted, mail_reads_of};

use crate::files::{Files, Missing};
use dv_model::{Bytes, List};
use dv_shelf::{Failed, Name, Shelf, ShelfFault};
use dv_system::System;
use std::alloc::Global;

/// A mailbox folder, by a system's calls. Each call that fails is counted.
#[derive(Drop)]
pub struct Folder<Y: System + Drop> {
    files: Files<Y>,
    faults: u64,
    mail_reads: u64,
}

impl<Y: System + Drop> Folder<Y> {
    ghost use Rattle.std.specs.Prelude.{false};
    ghost use Rattle.dv_shelf.specs.declared.shelf.ShelfFault.TheVariants as fault;
    ghost use Rattle.dv_shelf.specs.Causes.{HasCause, HasCauseOf, CountsOnce};
    ghost use Rattle.dv_disk.specs.States.{IsTrusted, IsPlaceTrusted};

    /// A folder that the first call makes where it is missing, unless that is refused, and locks
    /// until this value is dropped; where that fails, so does the call. No sync may have failed on
    /// the folder before: no later one would tell. This call makes no call of the system.
    pub fn new(alloc: Global, system: Y, missing: Missing) -> Folder<Y>
        requires trusted { IsTrusted false Y.tells (Y.disk system) }
        requires place_trusted { IsPlaceTrusted false Y.tells (Y.disk system) }
        ensures system { result.files.system ≡ system }
        ensures missing { result.files.missing ≡ missing }
        ensures faults { result.faults ≡ 0 }
        ensures reads { result.mail_reads ≡ 0 }
    {
        Folder {
            files: Files::new(alloc, system, missing),
            faults: 0,
            mail_reads: 0,
        }
    }

    /// The system whose calls it makes.
    pub fn system(&self) -> &Y
        ensures { result.now ≡ self.now.files.system }
    {
        &self.files.system
    }

    fn counted(&mut self, done: Result<(), Failed>) -> Result<(), Failed>
        ensures answer { result ≡ done }
        ensures cause { HasCause self.old.faults self.new.faults result }
        ensures once { CountsOnce self.old.faults self.new.faults result }
        ensures files { self.new.files ≡ self.old.files }
        ensures reads { self.new.mail_reads ≡ self.old.mail_reads }
    {
        if done.is_err() {
            self.faults = self.faults.saturating_add(1);
        }
        done
    }

    fn counted_look<T>(&mut self, done: Result<T, ShelfFault>) -> Result<T, ShelfFault>
        ensures answer { result ≡ done }
        ensures cause { HasCauseOf fault.Failed self.old.faults self.new.faults result }
        ensures once { IsErrOf result fault.Failed →
            self.new.faults ≡ counted self.old.faults 1 }
        ensures files { self.new.files ≡ self.old.files }
        ensures reads { self.new.mail_reads ≡ self.old.mail_reads }
    {
        if let Err(ShelfFault::Failed) = &done {
            self.faults = self.faults.saturating_add(1);
        }
        done
    }
}

impl<Y: System + Drop> Shelf for Folder<Y> {
    ghost use Rattle.dv_system.specs.Disks.{LeftBy, files_of};
    ghost use Rattle.dv_disk.specs.Laws.{left_as_read};

    ghost sees = { record {
      tells = Y.tells;
      files = λ s. files_of (Y.disk s.files.system);
      may_leave = λ s. LeftBy (Y.disk s.files.system);
      moment = λ s. Y.moment s.files.system;
      left_since = λ s. Y.left_since s.files.system;
      fault_count = λ s. s.faults;
      mail_reads = λ s. s.mail_reads;
    } };

    fn read(&mut self, alloc: Global, name: Name) -> Result<Option<Bytes>, ShelfFault> {
        self.mail_reads = count_read(self.mail_reads, name);
        let done = self.files.read(alloc, name);
        self.counted_look(done)
    }

    fn has_mailbox(&mut self, alloc: Global) -> Result<bool, ShelfFault> {
        let done = self.files.has_mailbox(alloc);
        self.counted_look(done)
    }

    fn list(&mut self, alloc: Global) -> Result<List<Name>, ShelfFault> {
        let done = self.files.list(alloc);
        self.counted_look(done)
    }

    fn write_at(&mut self, name: Name, at: u32, bytes: &[u8]) -> Result<(), Failed> {
        let done = self.files.write_at(name, at, bytes);
        self.counted(done)
    }

    fn sync(&mut self, name: Name) -> Result<(), Failed> {
        let done = self.files.sync(name);
        self.counted(done)
    }

    fn replace(&mut self, name: Name, bytes: &[u8]) -> Result<(), Failed> {
        let done = self.files.replace(name, bytes);
        self.counted(done)
    }

    fn remove(&mut self, name: Name) -> Result<(), Failed> {
        let done = self.files.remove(name);
        self.counted(done)
    }

    fn faults(&self) -> u64 {
        self.faults
    }

    ghost leaves_files = { λ s tells.
        left_as_read (Y.disk s.files.system) (Y.readable s.files.system tells) };

    ghost counts_now = { λ s t c le left. Y.counts_now s.files.system t c le left };

    ghost only_now = { λ s c tells left. Y.only_now s.files.system c tells left };
}

/// The count of reads of message files after a read of this name.
fn count_read(reads: u64, name: Name) -> u64
    ensures { result ≡ counted reads (mail_reads_of name) }
{
    match name {
        Name::Mail(_) => reads.saturating_add(1),
        _ => reads,
    }
}
