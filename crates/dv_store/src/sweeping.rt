//! Files are removed and replaced outside a command's write.

ghost use Rattle.std.specs.Prelude.{◌≡◌, All, IfErr, OnOk};
ghost use Rattle.dv_model.specs.Journals.{Log};
ghost use Rattle.dv_shelf.specs.Causes.{HasCause};
ghost use Rattle.dv_shelf.specs.declared.shelf.Name.TheVariants as name;
ghost use Rattle.dv_logfile.specs.Settling.{StaysSettled};
ghost use Rattle.dv_writing.specs.Debts.{Debt, Nothing, Stands};
ghost use Rattle.dv_writing.specs.Repairing.{IsOwing};
ghost use Rattle.dv_writing.specs.Quiet.{IsQuiet};
ghost use Rattle.dv_writing.specs.Removals.{IsFree};
ghost use Rattle.dv_plans.specs.Faults.{HasStoreCause};
ghost use Rattle.dv_plans.specs.declared.fault.StoreFault.TheVariants as fault;
ghost use Rattle.dv_files.specs.Leavings.{IsPut, Leaves, Puts};
ghost use Rattle.dv_files.specs.Texts.{IsSnapshotOf, place_of};
ghost use Rattle.dv_writing.specs.Ways.{KeepsMails, repaired};
ghost use Rattle.dv_store.specs.Paying.{HasSnapshot, KeepsLog, OwesNothing, PaysDebts, PaysQuietly, SweepsMails};
ghost use Rattle.dv_store.specs.Rest.{IsAtRest};

use crate::Store;
use crate::fault::disk;
use crate::store::place_of;
use dv_chain::Chain;
use dv_files::{Turn, checkpoint, snapshot_at};
use dv_model::{Bytes, List, Mark};
use dv_plans::StoreFault;
use dv_shelf::{Failed, Shelf};
use dv_writing::{clear, repair};

/// Where the first record of a new log stands.
const HEADER_SIZE: u32 = 40;

/// Where the log ends behind what is owed.
fn place_behind(chain: &Chain, owed: &Option<Turn>) -> Mark
    requires { IsOwing chain.now owed.now }
    ensures { result ≡ place_of (repaired owed.now chain.now) }
{
    match owed {
        None => place_of(chain),
        Some(_) => Mark {
            file_seq: chain.log.file_seq + 1,
            offset: HEADER_SIZE,
        },
    }
}

/// Replaces the index by a chain's snapshot. What the folder gives stays, at any moment.
fn put_snapshot<S: Shelf>(chain: &Chain, shelf: &mut S, text: &Bytes) -> Result<(), Failed>
    requires { IsSnapshotOf chain.now text.now }
    ensures leaves { S.sees.tells → Leaves S.sees
        (Puts name.Index text.now result) (IsPut name.Index text.now) shelf.old shelf.new }
    ensures cache { S.sees.tells → S.sees.files shelf.new name.Cache
        ≡ S.sees.files shelf.old name.Cache }
    ensures quiet { S.sees.tells → (log : Log) →
        Stands S.sees log Nothing chain.now shelf.old →
        IsQuiet S.sees log chain.now shelf.old shelf.new }
    ensures mail_reads { S.sees.mail_reads shelf.new ≡ S.sees.mail_reads shelf.old }
    ensures cause { HasCause (S.sees.fault_count shelf.old) (S.sees.fault_count shelf.new) result }
{
    checkpoint(chain, shelf, text)
}

impl<S: Shelf, C> Store<S, C> {
    /// Removes the message files of these UIDs, of which the mailbox has no row. What is owed is
    /// repaired first. Takes no memory: `Disk` is the only error, and then some of the files, in
    /// their order, may be gone.
    pub fn sweep(&mut self, uids: &List<u32>) -> Result<(), StoreFault>
        requires { All (IsFree self.old.chain.live.mailbox) uids.now }
        // The mailbox stays, and nothing is owed behind Ok.
        ensures value { PaysDebts self.old self.new result }
        // Behind Ok the files are gone. All others stay, where nothing was owed those of the log
        // too.
        ensures mails { S.sees.tells → SweepsMails uids.now result
            (S.sees.files self.old.shelf) (S.sees.files self.new.shelf) }
        ensures log { S.sees.tells → OwesNothing self.old →
            KeepsLog (S.sees.files self.old.shelf) (S.sees.files self.new.shelf) }
        // What the folder gives stays, at any moment; from rest to rest.
        ensures quiet { S.sees.tells → (log : Log) (debt : Debt) →
            IsAtRest S.sees log debt self.old →
            PaysQuietly S.sees log debt
            self.old self.new result }
        ensures settled { S.sees.tells →
            StaysSettled S.sees self.old.shelf self.new.shelf }
        // No message file is read; an error is a failure of the disk, and has its cause.
        ensures err { IfErr result (λ e. e ≡ fault.Disk (S.sees.fault_count self.new.shelf)) }
        ensures mail_reads { S.sees.mail_reads self.new.shelf ≡ S.sees.mail_reads self.old.shelf }
        ensures cause { HasStoreCause (S.sees.fault_count self.old.shelf)
            (S.sees.fault_count self.new.shelf) result }
    {
        match repair(&mut self.chain, &mut self.shelf, &mut self.owed) {
            Ok(()) => (),
            Err(_) => return Err(disk(&self.shelf)),
        }
        match clear(&self.chain, &mut self.shelf, uids.as_slice()) {
            Ok(()) => Ok(()),
            Err(_) => Err(disk(&self.shelf)),
        }
    }

    /// Replaces the index by the snapshot of the mailbox at the end of its log. What is owed is
    /// repaired first. `NoMemory` leaves the store as it was, and `Disk` the index as it was, as a
    /// rotation's or the new one.
    pub fn checkpoint(&mut self) -> Result<(), StoreFault>
        // The mailbox stays, and nothing is owed behind Ok; without memory nothing is done.
        ensures value { PaysDebts self.old self.new result }
        ensures memory { IfErr result (λ e. e ≡ fault.NoMemory → self.new ≡ self.old) }
        // Behind Ok the index is the snapshot. Message files and the cache file stay.
        ensures index { S.sees.tells → OnOk result
            (HasSnapshot self.new.chain (S.sees.files self.new.shelf)) }
        ensures mails { S.sees.tells →
            KeepsMails (S.sees.files self.old.shelf) (S.sees.files self.new.shelf) }
        // What the folder gives stays, at any moment; from rest to rest.
        ensures quiet { S.sees.tells → (log : Log) (debt : Debt) →
            IsAtRest S.sees log debt self.old →
            PaysQuietly S.sees log debt
            self.old self.new result }
        ensures settled { S.sees.tells →
            StaysSettled S.sees self.old.shelf self.new.shelf }
        // No message file is read; a fault of the disk has its cause.
        ensures mail_reads { S.sees.mail_reads self.new.shelf ≡ S.sees.mail_reads self.old.shelf }
        ensures cause { HasStoreCause (S.sees.fault_count self.old.shelf)
            (S.sees.fault_count self.new.shelf) result }
    {
        let mark = place_behind(&self.chain, &self.owed);
        let text = snapshot_at(self.alloc, &self.chain.live, self.chain.indexid, mark)?;
        match repair(&mut self.chain, &mut self.shelf, &mut self.owed) {
            Ok(()) => (),
            Err(_) => return Err(disk(&self.shelf)),
        }
        match put_snapshot(&self.chain, &mut self.shelf, &text) {
            Ok(()) => Ok(()),
            Err(_) => Err(disk(&self.shelf)),
        }
    }
}
