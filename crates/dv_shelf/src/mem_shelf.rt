ghost use Rattle.std.specs.Prelude.{◌≡◌, ◌≢◌, ◌↔◌, ◌+◌, ◌^◌, ◌<◌, ◌≤◌, [], length, Some, None, true, map, IfOk, OnOk, OnErr, is_err, IsErr, IsErrOf, MatchBool};
ghost use Rattle.dv_shelf.specs.Causes.{HasCause, HasCauseOf, CountsOnce};
ghost use Rattle.dv_shelf.specs.Folders.{counted, mail_reads_of};
ghost use Rattle.dv_shelf.specs.Outcomes.{outcome_then};

use crate::failures::{Failures, Turn};
use crate::files::are_of_mailbox;
use crate::record::{Deed, Outcome, Record, is_done};
use crate::{Failed, Name, Shelf, ShelfFault};
use dv_model::{Bytes, List, NoMemory};
use std::alloc::Global;

/// The files of a folder, by their names.
pub type Folder = List<(Name, Bytes)>;

/// A folder in memory, by a record of the writing calls that made it.
#[derive(Drop)]
pub struct MemShelf {
    record: Record,
    failures: Failures,
    /// Of a replace or remove that fails, reads see what it made.
    shows_failed: bool,
    mail_reads: u64,
}

impl MemShelf {
    ghost use Rattle.dv_shelf.specs.Failures.{turn_of, after_answer};
    ghost use Rattle.dv_shelf.specs.MemShelves.{call_count, calls_of, faults_of, files_of, IsAnswered, IsUntried, sees_memory};
    ghost use Rattle.dv_shelf.specs.Folders.{no_files, folder_of};
    ghost use Rattle.dv_shelf.specs.Crashes.{IsSettled};
    ghost use Rattle.dv_shelf.specs.Disks.{put_call};
    ghost use Rattle.dv_shelf.specs.Samples.{AreSamples};

    /// An empty folder with room for so many bytes: a writing call takes 64 and one for each
    /// byte. The calls that `fails` lists fail, of which the first is number 1, those behind the
    /// first `stop`, and writing calls for which no room is left. Of a replace or remove that
    /// fails reads see nothing.
    pub fn new(
        alloc: Global,
        room: u32,
        fails: List<u32>,
        stop: Option<u32>,
    ) -> Result<MemShelf, NoMemory>
        ensures files { IfOk result (λ shelf. files_of shelf ≡ no_files) }
        ensures settled { IfOk result (λ shelf. IsSettled sees_memory shelf) }
        ensures untried { IfOk result (λ shelf. IsUntried shelf [] room fails stop) }
    {
        Ok(MemShelf {
            record: Record::new(alloc, room as usize)?,
            failures: Failures::new(fails, stop),
            shows_failed: false,
            mail_reads: 0,
        })
    }

    /// A folder with these files, of which the last counts where a name stands twice. Its room,
    /// beside what the files take, and its calls are as those of `new`. Want of memory is the only
    /// reason of its error.
    pub fn of(
        alloc: Global,
        folder: &Folder,
        room: u32,
        fails: List<u32>,
        stop: Option<u32>,
    ) -> Result<MemShelf, NoMemory>
        ensures files { IfOk result (λ shelf. files_of shelf ≡ folder_of folder.now) }
        ensures settled { IfOk result (λ shelf. IsSettled sees_memory shelf) }
        ensures untried { IfOk result (λ shelf.
            IsUntried shelf (map put_call folder.now) room fails stop) }
    {
        Ok(MemShelf {
            record: Record::of(alloc, folder.as_slice(), room as usize)?,
            failures: Failures::new(fails, stop),
            shows_failed: false,
            mail_reads: 0,
        })
    }

    /// The same shelf, but from now on reads see what a replace or remove that fails has made.
    pub fn showing_failed(self) -> MemShelf
        ensures { result ≡ record self { shows_failed = true } }
    {
        let mut shelf = self;
        shelf.shows_failed = true;
        shelf
    }

    /// How many calls it has had, those that failed among them; it stops at the end of its type.
    pub fn call_count(&self) -> u64
        ensures { result ≡ call_count self.now }
    {
        self.failures.calls
    }

    /// Sample images for tests: the files as a read gives them, and for each unsynced write of
    /// some bytes the old bytes, the new bytes, and the new bytes with 0x80, 0x00 and 0x37 as the
    /// first one.
    pub fn images(&self, alloc: Global) -> Result<List<Folder>, NoMemory>
        ensures { IfOk result (λ images. AreSamples (calls_of self.now) images) }
    {
        self.record.images(alloc)
    }

    /// A writing call.
    fn write(&mut self, name: Name, deed: Deed, bytes: &[u8]) -> Result<(), Failed>
        ensures made { IsAnswered self.old self.new result name deed bytes.now }
        ensures cause { HasCause (faults_of self.old) (faults_of self.new) result }
        ensures once { CountsOnce (faults_of self.old) (faults_of self.new) result }
    {
        let turn = self.failures.count_call();
        if turn == Turn::Stopped || !self.record.fits(bytes.len()) {
            return self.failures.fail();
        }
        let outcome = outcome_of(turn, self.shows_failed);
        self.record.add(name, deed, outcome, bytes);
        if is_done(outcome) {
            Ok(())
        } else {
            self.failures.fail()
        }
    }
}

impl Shelf for MemShelf {
    ghost use Rattle.dv_shelf.specs.Failures.{turn_of};
    ghost use Rattle.dv_shelf.specs.MemShelves.{calls_of, faults_of, files_of, images_of, images_since, moment_of, IsAnswered, IsLook, sees_memory};
    ghost use Rattle.dv_shelf.specs.Folders.{Folder, with_file, contents, patched, Lists, ChangesOnly, TornFile, IsEither, IsNew};
    ghost use Rattle.dv_shelf.specs.Crashes.{Follows, FollowsNone, Elapses};
    ghost use Rattle.dv_shelf.specs.Laws.{files_left, left_now, left_last};

    ghost sees = { sees_memory };

    ghost counts_now = { λ s t c le is. left_now (calls_of s) t c le is };

    ghost leaves_files = { λ s told. files_left (calls_of s) };

    ghost only_now = { λ s c told had. left_last (calls_of s) c had };

    fn read(&mut self, alloc: Global, name: Name) -> Result<Option<Bytes>, ShelfFault>
        // What the trait says.
        ensures found { IfOk result (λ bytes. bytes ≡ files_of self.old name) }
        ensures files { files_of self.new ≡ files_of self.old }
        ensures crash { FollowsNone (images_of self.old) (images_of self.new) }
        ensures time { Elapses (moment_of self.old) (moment_of self.new)
            (images_since self.old) (images_since self.new) (images_of self.new) }
        ensures reads { self.new.mail_reads ≡ counted self.old.mail_reads (mail_reads_of name) }
        ensures cause { HasCauseOf ShelfFault.Failed
            (faults_of self.old) (faults_of self.new) result }
        ensures once { IsErrOf result ShelfFault.Failed →
            faults_of self.new ≡ counted (faults_of self.old) 1 }

        // Exactly the listed calls and those behind the stop fail.
        ensures seen { IsLook self.old self.new }
        ensures fails { IsErrOf result ShelfFault.Failed
            ↔ (turn_of self.old.failures ≢ Turn.Passes) }
    {
        self.mail_reads = count_read(self.mail_reads, name);
        let Ok(()) = self.failures.call() else {
            return Err(ShelfFault::Failed);
        };
        match self.record.file(alloc, name) {
            Ok(file) => Ok(file),
            Err(_) => Err(ShelfFault::NoMemory),
        }
    }

    fn has_mailbox(&mut self, alloc: Global) -> Result<bool, ShelfFault>
        // What the trait says.
        ensures found { IfOk result (λ has.
            MatchBool has (IsNew (files_of self.old) → ⊥) (IsNew (files_of self.old))) }
        ensures files { files_of self.new ≡ files_of self.old }
        ensures crash { FollowsNone (images_of self.old) (images_of self.new) }
        ensures time { Elapses (moment_of self.old) (moment_of self.new)
            (images_since self.old) (images_since self.new) (images_of self.new) }
        ensures reads { self.new.mail_reads ≡ self.old.mail_reads }
        ensures cause { HasCauseOf ShelfFault.Failed
            (faults_of self.old) (faults_of self.new) result }
        ensures once { IsErrOf result ShelfFault.Failed →
            faults_of self.new ≡ counted (faults_of self.old) 1 }

        // Exactly the listed calls and those behind the stop fail.
        ensures seen { IsLook self.old self.new }
        ensures fails { IsErrOf result ShelfFault.Failed
            ↔ (turn_of self.old.failures ≢ Turn.Passes) }
    {
        match self.list(alloc) {
            Ok(names) => Ok(are_of_mailbox(names.as_slice())),
            Err(fault) => Err(fault),
        }
    }

    fn list(&mut self, alloc: Global) -> Result<List<Name>, ShelfFault>
        // What the trait says.
        ensures found { IfOk result (λ names. Lists (files_of self.old) names) }
        ensures files { files_of self.new ≡ files_of self.old }
        ensures crash { FollowsNone (images_of self.old) (images_of self.new) }
        ensures time { Elapses (moment_of self.old) (moment_of self.new)
            (images_since self.old) (images_since self.new) (images_of self.new) }
        ensures reads { self.new.mail_reads ≡ self.old.mail_reads }
        ensures cause { HasCauseOf ShelfFault.Failed
            (faults_of self.old) (faults_of self.new) result }
        ensures once { IsErrOf result ShelfFault.Failed →
            faults_of self.new ≡ counted (faults_of self.old) 1 }

        // Exactly the listed calls and those behind the stop fail.
        ensures seen { IsLook self.old self.new }
        ensures fails { IsErrOf result ShelfFault.Failed
            ↔ (turn_of self.old.failures ≢ Turn.Passes) }
    {
        let Ok(()) = self.failures.call() else {
            return Err(ShelfFault::Failed);
        };
        match self.record.names(alloc) {
            Ok(names) => Ok(names),
            Err(_) => Err(ShelfFault::NoMemory),
        }
    }

    fn write_at(&mut self, name: Name, at: u32, bytes: &[u8]) -> Result<(), Failed>
        // What the trait says.
        ensures ok { OnOk result (files_of self.new ≡ with_file (files_of self.old) name
            (Some (patched (contents (files_of self.old) name) at bytes.now))) }
        ensures err { OnErr result (ChangesOnly name (TornFile at (length bytes.now))
            (files_of self.old) (files_of self.new)) }
        ensures crash { Follows (ChangesOnly name (TornFile at (length bytes.now)))
            (images_of self.old) (images_of self.new) }
        ensures time { Elapses (moment_of self.old) (moment_of self.new)
            (images_since self.old) (images_since self.new) (images_of self.new) }
        ensures reads { self.new.mail_reads ≡ self.old.mail_reads }
        ensures cause { HasCause (faults_of self.old) (faults_of self.new) result }
        ensures once { CountsOnce (faults_of self.old) (faults_of self.new) result }

        // What is kept of it, and when it fails.
        ensures made { IsAnswered self.old self.new result name (Deed.Write at) bytes.now }
    {
        self.write(name, Deed::Write { at }, bytes)
    }

    fn sync(&mut self, name: Name) -> Result<(), Failed>
        // What the trait says.
        ensures durable { OnOk result ((c : Folder) → images_of self.new c →
            c name ≡ files_of self.new name) }
        ensures files { files_of self.new ≡ files_of self.old }
        ensures crash { FollowsNone (images_of self.old) (images_of self.new) }
        ensures time { Elapses (moment_of self.old) (moment_of self.new)
            (images_since self.old) (images_since self.new) (images_of self.new) }
        ensures reads { self.new.mail_reads ≡ self.old.mail_reads }
        ensures cause { HasCause (faults_of self.old) (faults_of self.new) result }
        ensures once { CountsOnce (faults_of self.old) (faults_of self.new) result }

        // What is kept of it, and when it fails.
        ensures made { IsAnswered self.old self.new result name Deed.Sync [] }
    {
        self.write(name, Deed::Sync, &[])
    }

    fn replace(&mut self, name: Name, bytes: &[u8]) -> Result<(), Failed>
        // What the trait says.
        ensures ok { OnOk result (files_of self.new
            ≡ with_file (files_of self.old) name (Some bytes.now)) }
        ensures err { OnErr result (ChangesOnly name (IsEither (Some bytes.now))
            (files_of self.old) (files_of self.new)) }
        ensures durable { OnOk result ((c : Folder) → images_of self.new c →
            c name ≡ Some bytes.now) }
        ensures crash { Follows (ChangesOnly name (IsEither (Some bytes.now)))
            (images_of self.old) (images_of self.new) }
        ensures time { Elapses (moment_of self.old) (moment_of self.new)
            (images_since self.old) (images_since self.new) (images_of self.new) }
        ensures reads { self.new.mail_reads ≡ self.old.mail_reads }
        ensures cause { HasCause (faults_of self.old) (faults_of self.new) result }
        ensures once { CountsOnce (faults_of self.old) (faults_of self.new) result }

        // What is kept of it, and when it fails.
        ensures made { IsAnswered self.old self.new result name Deed.Replace bytes.now }
    {
        self.write(name, Deed::Replace, bytes)
    }

    fn remove(&mut self, name: Name) -> Result<(), Failed>
        // What the trait says.
        ensures ok { OnOk result (files_of self.new ≡ with_file (files_of self.old) name None) }
        ensures err { OnErr result (ChangesOnly name (IsEither None)
            (files_of self.old) (files_of self.new)) }
        ensures durable { OnOk result ((c : Folder) → images_of self.new c → c name ≡ None) }
        ensures crash { Follows (ChangesOnly name (IsEither None))
            (images_of self.old) (images_of self.new) }
        ensures time { Elapses (moment_of self.old) (moment_of self.new)
            (images_since self.old) (images_since self.new) (images_of self.new) }
        ensures reads { self.new.mail_reads ≡ self.old.mail_reads }
        ensures cause { HasCause (faults_of self.old) (faults_of self.new) result }
        ensures once { CountsOnce (faults_of self.old) (faults_of self.new) result }

        // What is kept of it, and when it fails.
        ensures made { IsAnswered self.old self.new result name Deed.Remove [] }
    {
        self.write(name, Deed::Remove, &[])
    }

    fn faults(&self) -> u64 {
        self.failures.faults
    }
}

/// What comes of a writing call that isn't behind the stop.
fn outcome_of(turn: Turn, shows_failed: bool) -> Outcome
    ensures { result ≡ outcome_then turn shows_failed }
{
    if turn == Turn::Passes {
        Outcome::Done
    } else if shows_failed {
        Outcome::Shown
    } else {
        Outcome::Hidden
    }
}

/// The count of reads of message files after a read of this name.
fn count_read(reads: u64, name: Name) -> u64
    ensures { result ≡ counted reads (mail_reads_of name) }
{
    match name {
        Name::Mail(_) => reads.saturating_add(1),
        _ => reads,
    }
}
