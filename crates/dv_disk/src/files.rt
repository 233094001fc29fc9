ghost use Rattle.std.specs.Prelude.{◌≡◌, ◌≢◌, ◌≤◌, List, [], length, ℕ, Option, unwrap_or, Some, None, true, false, IfOk, IsErr, IsErrOf, MatchBool, MatchOption, OnOk, OnErr};
ghost use Rattle.dv_shelf.specs.declared.shelf.Name.{Name};
ghost use Rattle.dv_shelf.specs.Folders.{patched, IsNew};
ghost use Rattle.dv_system.specs.declared.system.Entry.TheVariants as entry;
ghost use Rattle.dv_system.specs.Entries.{read_at};
ghost use Rattle.dv_system.specs.Disks.{is_missing};
ghost use Rattle.dv_disk.specs.declared.kept.KeptFile.{KeptFile};
ghost use Rattle.dv_disk.specs.States.{Stands, AreSwept, IsTrusted, IsPlaceTrusted};

use crate::kept::{KeptFile, close};
use crate::names::names_of;
use dv_model::{Bytes, List, NoMemory};
use dv_shelf::{Failed, Name, ShelfFault};
use dv_system::{Access, Entry, System};
use std::alloc::Global;

/// What is done about a folder that is missing.
#[derive(Clone, Copy, PartialEq, Eq)]
pub enum Missing {
    /// It is made.
    Make,
    /// Each call fails, and nothing is made.
    Refuse,
}

/// What is left of the temporary file behind a failure.
#[derive(Clone, Copy, PartialEq, Eq)]
pub(crate) enum Leftover {
    /// It is removed.
    Cleared,
    /// Its removal failed too.
    Kept,
}

/// The files of a folder, by calls of a system.
#[derive(Drop)]
pub(crate) struct Files<Y: System + Drop> {
    pub(crate) system: Y,
    alloc: Global,
    missing: Missing,
    /// The file that was written last.
    kept: Option<KeptFile<Y::File>>,
    /// The folder is there, and the system has its lock.
    is_locked: bool,
    /// The folder was made where it was missing, and is durable.
    is_ready: bool,
    /// No entry changed since a sync of the folder answered Ok.
    is_swept: bool,
    /// A sync of a file that was written, or of a folder, failed: no later one makes that good.
    has_failed: bool,
    ghost held: { is_locked ≡ true → Y.locked system ≡ true },
    ghost there: { is_locked ≡ true → Y.tells → is_missing (Y.disk system).place ≡ false },
    ghost ready: { Stands is_ready Y.tells (Y.disk system) },
    ghost swept: { AreSwept is_swept Y.tells (Y.disk system) },
    ghost trusted: { IsTrusted has_failed Y.tells (Y.disk system) },
    ghost place_trusted: { IsPlaceTrusted has_failed Y.tells (Y.disk system) },
    ghost stands: { Y.tells → (k : KeptFile Y.File) → kept ≡ Some k →
        Y.stands system k.file (entry.File k.name) ≡ true },
}

impl<Y: System + Drop> Files<Y> {
    ghost use Rattle.dv_shelf.specs.Crashes.{Elapses};
    ghost use Rattle.dv_shelf.specs.Folders.{Lists};
    ghost use Rattle.dv_system.specs.Entries.{swept_at, unsure_at};
    ghost use Rattle.dv_system.specs.Disks.{changed_names, files_of, IsUnchangedOr, LeftBy};
    ghost use Rattle.dv_disk.specs.Steps.{IsQuiet, IsDurable, LeavesNames, Puts, Syncs, Writes, Wrote};

    /// The files of a folder on which no sync failed.
    pub(crate) fn new(alloc: Global, system: Y, missing: Missing) -> Files<Y>
        requires trusted { IsTrusted false Y.tells (Y.disk system) }
        requires place_trusted { IsPlaceTrusted false Y.tells (Y.disk system) }
        ensures system { result.system ≡ system }
        ensures missing { result.missing ≡ missing }
    {
        Files {
            system,
            alloc,
            missing,
            kept: None,
            is_locked: false,
            is_ready: false,
            is_swept: false,
            has_failed: false,
        }
    }

    /// Makes or finds the folder, and takes its lock, which the first call does.
    fn enter(&mut self) -> Result<(), Failed>
        ensures quiet { Y.tells →
            IsQuiet Y.disk Y.moment Y.left_since self.old.system self.new.system }
        ensures locked { OnOk result (self.new.is_locked ≡ true) }
        // One that is missing isn't made, if so was asked for.
        ensures refused { Y.tells → self.old.missing ≡ Missing.Refuse →
            is_missing (Y.disk self.old.system).place ≡ true → IsErr result }
        ensures unmade { Y.tells → self.old.missing ≡ Missing.Refuse →
            Y.disk self.new.system ≡ Y.disk self.old.system }
    {
        if self.is_locked {
            return Ok(());
        }
        self.reach()?;
        self.system.lock()?;
        self.is_locked = true;
        Ok(())
    }

    /// Makes the folder where it is missing, or finds it.
    fn reach(&mut self) -> Result<(), Failed>
        ensures quiet { Y.tells →
            IsQuiet Y.disk Y.moment Y.left_since self.old.system self.new.system }
        ensures there { Y.tells →
            OnOk result (is_missing (Y.disk self.new.system).place ≡ false) }
        ensures unmade { Y.tells → self.old.missing ≡ Missing.Refuse →
            Y.disk self.new.system ≡ Y.disk self.old.system }
        ensures missing { self.new.missing ≡ self.old.missing }
    {
        match self.missing {
            Missing::Make => self.system.make_folder(),
            Missing::Refuse => self.system.find_folder(),
        }
    }

    /// Makes the folder durable.
    fn make_ready(&mut self) -> Result<(), Failed>
        ensures quiet { Y.tells →
            IsQuiet Y.disk Y.moment Y.left_since self.old.system self.new.system }
        ensures locked { OnOk result (self.new.is_locked ≡ true) }
        ensures ready { OnOk result (self.new.is_ready ≡ true) }
    {
        self.enter()?;
        if self.is_ready {
            return Ok(());
        }
        if self.has_failed {
            return Err(Failed);
        }
        self.sync_parent()
    }

    /// Makes the folder durable, which is there.
    fn sync_parent(&mut self) -> Result<(), Failed>
        requires locked { self.old.is_locked ≡ true }
        requires trusted { self.old.has_failed ≡ false }
        ensures quiet { Y.tells →
            IsQuiet Y.disk Y.moment Y.left_since self.old.system self.new.system }
        ensures locked { self.new.is_locked ≡ true }
        ensures ready { OnOk result (self.new.is_ready ≡ true) }
    {
        match self.system.sync_parent() {
            Ok(()) => {
                self.is_ready = true;
                Ok(())
            }
            Err(failed) => {
                self.has_failed = true;
                Err(failed)
            }
        }
    }

    /// Makes the entries durable.
    fn sweep(&mut self) -> Result<(), Failed>
        requires locked { self.old.is_locked ≡ true }
        ensures ok { Y.tells → OnOk result
            (Y.disk self.new.system ≡ changed_names swept_at (Y.disk self.old.system)) }
        ensures err { Y.tells → OnErr result (IsUnchangedOr (Y.disk self.old.system)
            (changed_names unsure_at (Y.disk self.old.system)) (Y.disk self.new.system)) }
        ensures time { Y.tells → Elapses (Y.moment self.old.system) (Y.moment self.new.system)
            (Y.left_since self.old.system) (Y.left_since self.new.system)
            (LeftBy (Y.disk self.new.system)) }
        ensures ready { self.new.is_ready ≡ self.old.is_ready }
        ensures swept { OnOk result (self.new.is_swept ≡ true) }
        ensures locked { self.new.is_locked ≡ true }
    {
        match self.system.sync_folder() {
            Ok(()) => {
                self.is_swept = true;
                Ok(())
            }
            Err(failed) => {
                self.has_failed = true;
                Err(failed)
            }
        }
    }

    /// Makes the folder and its entries durable, as they are.
    fn start(&mut self) -> Result<(), Failed>
        ensures quiet { Y.tells →
            IsQuiet Y.disk Y.moment Y.left_since self.old.system self.new.system }
        ensures locked { OnOk result (self.new.is_locked ≡ true) }
        ensures ready { OnOk result (self.new.is_ready ≡ true) }
        ensures swept { OnOk result (self.new.is_swept ≡ true) }
    {
        self.make_ready()?;
        if self.is_swept {
            return Ok(());
        }
        self.sweep()
    }

    /// Removes the temporary file, if it is there.
    fn clear_temporary(&mut self) -> Result<(), Failed>
        requires locked { self.old.is_locked ≡ true }
        ensures gone { Y.tells →
            OnOk result (read_at (Y.disk self.new.system).temporary ≡ None) }
        ensures names { Y.tells → LeavesNames (Y.disk self.old.system) (Y.disk self.new.system) }
        ensures time { Y.tells → Elapses (Y.moment self.old.system) (Y.moment self.new.system)
            (Y.left_since self.old.system) (Y.left_since self.new.system)
            (LeftBy (Y.disk self.new.system)) }
        ensures ready { self.new.is_ready ≡ self.old.is_ready }
        ensures swept { self.new.is_swept ≡ self.old.is_swept }
        ensures locked { self.new.is_locked ≡ true }
    {
        self.system.unlink(Entry::Temporary)?;
        Ok(())
    }

    /// Writes the temporary file anew, and makes its bytes durable. Where that fails, the file is
    /// removed, as far as that succeeds: it would keep the last room of a full disk.
    fn write_temporary(&mut self, bytes: &[u8]) -> Result<(), Leftover>
        requires locked { self.old.is_locked ≡ true }
        ensures names { Y.tells → LeavesNames (Y.disk self.old.system) (Y.disk self.new.system) }
        ensures bytes { Y.tells → OnOk result
            (IsDurable (Y.disk self.new.system).temporary (Some bytes.now)) }
        ensures cleared { Y.tells → IsErrOf result Leftover.Cleared →
            read_at (Y.disk self.new.system).temporary ≡ None }
        ensures quiet { Y.tells →
            IsQuiet Y.disk Y.moment Y.left_since self.old.system self.new.system }
        ensures ready { self.new.is_ready ≡ self.old.is_ready }
        ensures swept { self.new.is_swept ≡ self.old.is_swept }
        ensures locked { self.new.is_locked ≡ true }
    {
        if self.clear_temporary().is_err() {
            return Err(Leftover::Kept);
        }
        match self.fill_temporary(bytes) {
            Ok(()) => Ok(()),
            Err(_) => Err(self.clear_behind()),
        }
    }

    /// Removes the temporary file behind a failure, and says what is left of it.
    fn clear_behind(&mut self) -> Leftover
        requires locked { self.old.is_locked ≡ true }
        ensures cleared { Y.tells → result ≡ Leftover.Cleared →
            read_at (Y.disk self.new.system).temporary ≡ None }
        ensures names { Y.tells → LeavesNames (Y.disk self.old.system) (Y.disk self.new.system) }
        ensures time { Y.tells → Elapses (Y.moment self.old.system) (Y.moment self.new.system)
            (Y.left_since self.old.system) (Y.left_since self.new.system)
            (LeftBy (Y.disk self.new.system)) }
        ensures ready { self.new.is_ready ≡ self.old.is_ready }
        ensures swept { self.new.is_swept ≡ self.old.is_swept }
        ensures locked { self.new.is_locked ≡ true }
    {
        match self.clear_temporary() {
            Ok(()) => Leftover::Cleared,
            Err(_) => Leftover::Kept,
        }
    }

    /// Writes a new temporary file, and makes its bytes durable.
    fn fill_temporary(&mut self, bytes: &[u8]) -> Result<(), Failed>
        requires locked { self.old.is_locked ≡ true }
        ensures names { Y.tells → LeavesNames (Y.disk self.old.system) (Y.disk self.new.system) }
        ensures bytes { Y.tells → OnOk result
            (IsDurable (Y.disk self.new.system).temporary (Some bytes.now)) }
        ensures quiet { Y.tells →
            IsQuiet Y.disk Y.moment Y.left_since self.old.system self.new.system }
        ensures ready { self.new.is_ready ≡ self.old.is_ready }
        ensures swept { self.new.is_swept ≡ self.old.is_swept }
        ensures locked { self.new.is_locked ≡ true }
    {
        let file = self.system.create(Entry::Temporary)?;
        self.system.write(&file, 0, bytes)?;
        self.system.sync(&file)
    }

    /// Gives the temporary file, whose bytes are durable, a name.
    fn put(&mut self, name: Name) -> Result<(), Failed>
        requires locked { self.old.is_locked ≡ true }
        requires ready { self.old.is_ready ≡ true }
        requires swept { self.old.is_swept ≡ true }
        requires sure { Y.tells → (Y.disk self.old.system).temporary.is_doubted ≡ false }
        ensures puts { Y.tells → (that : Option (List ℕ)) →
            IsDurable (Y.disk self.old.system).temporary that →
            Puts Y.disk Y.moment Y.left_since name that result self.old.system self.new.system }
    {
        close(&mut self.kept, name);
        self.is_swept = false;
        match self.system.rename(name) {
            Ok(()) => self.sweep(),
            Err(failed) => {
                self.clear_behind();
                Err(failed)
            }
        }
    }

    /// Replaces a file as a whole.
    pub(crate) fn replace(&mut self, name: Name, bytes: &[u8]) -> Result<(), Failed>
        ensures { Y.tells → Puts Y.disk Y.moment Y.left_since name (Some bytes.now) result
            self.old.system self.new.system }
    {
        self.start()?;
        match self.write_temporary(bytes) {
            Ok(()) => self.put(name),
            Err(_) => Err(Failed),
        }
    }

    /// Removes a file.
    pub(crate) fn remove(&mut self, name: Name) -> Result<(), Failed>
        ensures { Y.tells → Puts Y.disk Y.moment Y.left_since name None result
            self.old.system self.new.system }
    {
        self.start()?;
        close(&mut self.kept, name);
        self.is_swept = false;
        if self.system.unlink(Entry::File(name))? {
            return self.sweep();
        }
        // It may come back that it was removed, where a sync failed then.
        if self.has_failed {
            return Err(Failed);
        }
        self.is_swept = true;
        Ok(())
    }

    /// Writes bytes over a file from a place on; a file that is missing is made.
    pub(crate) fn write_at(&mut self, name: Name, at: u32, bytes: &[u8]) -> Result<(), Failed>
        ensures { Y.tells → Writes Y.disk Y.moment Y.left_since name at bytes.now result
            self.old.system self.new.system }
    {
        self.make_ready()?;
        if bytes.is_empty() {
            return self.fill(name, at);
        }
        match self.take_open(name)? {
            Some(file) => self.write_kept(KeptFile { name, file }, at, bytes),
            None => self.write_new(name, at, bytes),
        }
    }

    /// Fills a file with zero bytes up to a place, which a write of no bytes doesn't: the whole
    /// file is replaced.
    fn fill(&mut self, name: Name, at: u32) -> Result<(), Failed>
        requires ready { self.old.is_ready ≡ true }
        ensures { Y.tells → Writes Y.disk Y.moment Y.left_since name at [] result
            self.old.system self.new.system }
    {
        let Ok(file) = self.read(self.alloc, name) else {
            return Err(Failed);
        };
        match filled(self.alloc, file, at) {
            Ok(bytes) => self.replace(name, bytes.as_slice()),
            Err(_) => Err(Failed),
        }
    }

    /// The open file of a name, which is kept or opened now, or `None` where there is none.
    fn take_open(&mut self, name: Name) -> Result<Option<Y::File>, Failed>
        requires locked { self.old.is_locked ≡ true }
        ensures found { Y.tells → IfOk result (λ file. MatchOption file
            (files_of (Y.disk self.old.system) name ≡ None)
            (λ f. Y.stands self.new.system f (entry.File name) ≡ true)) }
        ensures same { Y.tells → Y.disk self.new.system ≡ Y.disk self.old.system }
        ensures quiet { Y.tells →
            IsQuiet Y.disk Y.moment Y.left_since self.old.system self.new.system }
        ensures ready { self.new.is_ready ≡ self.old.is_ready }
        ensures swept { self.new.is_swept ≡ self.old.is_swept }
        ensures locked { self.new.is_locked ≡ true }
    {
        if let Some(kept) = self.kept.take() {
            if kept.name == name {
                return Ok(Some(kept.file));
            }
        }
        self.system.open(Entry::File(name), Access::Write)
    }

    /// Writes a file that isn't there.
    fn write_new(&mut self, name: Name, at: u32, bytes: &[u8]) -> Result<(), Failed>
        requires some { 1 ≤ length bytes.now }
        requires locked { self.old.is_locked ≡ true }
        requires ready { self.old.is_ready ≡ true }
        requires missing { Y.tells → files_of (Y.disk self.old.system) name ≡ None }
        ensures { Y.tells → Writes Y.disk Y.moment Y.left_since name at bytes.now result
            self.old.system self.new.system }
    {
        self.is_swept = false;
        let file = self.system.create(Entry::File(name))?;
        self.write_kept(KeptFile { name, file }, at, bytes)
    }

    /// Writes over an open file, and keeps it open.
    fn write_kept(&mut self, kept: KeptFile<Y::File>, at: u32, bytes: &[u8]) -> Result<(), Failed>
        requires some { 1 ≤ length bytes.now }
        requires locked { self.old.is_locked ≡ true }
        requires stands { Y.tells →
            Y.stands self.old.system kept.file (entry.File kept.name) ≡ true }
        ensures written { Y.tells → Wrote kept.name at bytes.now result
            (Y.disk self.old.system) (Y.disk self.new.system) }
        ensures time { Y.tells → Elapses (Y.moment self.old.system) (Y.moment self.new.system)
            (Y.left_since self.old.system) (Y.left_since self.new.system)
            (LeftBy (Y.disk self.new.system)) }
    {
        let done = self.system.write(&kept.file, at, bytes);
        self.kept = Some(kept);
        done
    }

    /// Makes a file durable.
    pub(crate) fn sync(&mut self, name: Name) -> Result<(), Failed>
        ensures { Y.tells → Syncs Y.disk Y.moment Y.left_since name result
            self.old.system self.new.system }
    {
        self.start()?;
        match self.take_open(name)? {
            Some(file) => self.sync_open(KeptFile { name, file }),
            None => self.sync_missing(name),
        }
    }

    /// Makes an open file durable.
    fn sync_open(&mut self, kept: KeptFile<Y::File>) -> Result<(), Failed>
        requires locked { self.old.is_locked ≡ true }
        requires ready { self.old.is_ready ≡ true }
        requires swept { self.old.is_swept ≡ true }
        requires stands { Y.tells →
            Y.stands self.old.system kept.file (entry.File kept.name) ≡ true }
        ensures { Y.tells → Syncs Y.disk Y.moment Y.left_since kept.name result
            self.old.system self.new.system }
    {
        if self.has_failed {
            self.write_again(kept)
        } else {
            self.sync_kept(kept)
        }
    }

    /// A missing file is durable, unless a sync failed: then a crash may bring one back.
    fn sync_missing(&mut self, name: Name) -> Result<(), Failed>
        requires ready { self.old.is_ready ≡ true }
        requires swept { self.old.is_swept ≡ true }
        requires missing { Y.tells → files_of (Y.disk self.old.system) name ≡ None }
        ensures { Y.tells → Syncs Y.disk Y.moment Y.left_since name result
            self.old.system self.new.system }
    {
        if self.has_failed { Err(Failed) } else { Ok(()) }
    }

    /// Makes the bytes of an open file durable, and keeps it open.
    fn sync_kept(&mut self, kept: KeptFile<Y::File>) -> Result<(), Failed>
        requires locked { self.old.is_locked ≡ true }
        requires ready { self.old.is_ready ≡ true }
        requires swept { self.old.is_swept ≡ true }
        requires trusted { self.old.has_failed ≡ false }
        requires stands { Y.tells →
            Y.stands self.old.system kept.file (entry.File kept.name) ≡ true }
        ensures { Y.tells → Syncs Y.disk Y.moment Y.left_since kept.name result
            self.old.system self.new.system }
    {
        let done = self.system.sync_data(&kept.file);
        if done.is_err() {
            self.has_failed = true;
        }
        self.kept = Some(kept);
        done
    }

    /// Replaces an open file by its own bytes, since no sync makes good one that failed.
    fn write_again(&mut self, kept: KeptFile<Y::File>) -> Result<(), Failed>
        requires locked { self.old.is_locked ≡ true }
        requires ready { self.old.is_ready ≡ true }
        requires stands { Y.tells →
            Y.stands self.old.system kept.file (entry.File kept.name) ≡ true }
        ensures { Y.tells → Syncs Y.disk Y.moment Y.left_since kept.name result
            self.old.system self.new.system }
    {
        let Ok(bytes) = self.system.read(self.alloc, kept.file) else {
            return Err(Failed);
        };
        self.replace(kept.name, bytes.as_slice())
    }

    /// The bytes of a file, or `None` where there is none.
    pub(crate) fn read(&mut self, alloc: Global, name: Name) -> Result<Option<Bytes>, ShelfFault>
        ensures found { Y.tells →
            IfOk result (λ bytes. bytes ≡ files_of (Y.disk self.old.system) name) }
        ensures quiet { Y.tells →
            IsQuiet Y.disk Y.moment Y.left_since self.old.system self.new.system }
    {
        if self.enter().is_err() {
            return Err(ShelfFault::Failed);
        }
        self.read_there(alloc, name)
    }

    /// The same of a folder that is there.
    fn read_there(&mut self, alloc: Global, name: Name) -> Result<Option<Bytes>, ShelfFault>
        requires locked { self.old.is_locked ≡ true }
        ensures found { Y.tells →
            IfOk result (λ bytes. bytes ≡ files_of (Y.disk self.old.system) name) }
        ensures quiet { Y.tells →
            IsQuiet Y.disk Y.moment Y.left_since self.old.system self.new.system }
    {
        match self.system.open(Entry::File(name), Access::Read) {
            Ok(Some(file)) => Ok(Some(self.system.read(alloc, file)?)),
            Ok(None) => Ok(None),
            Err(_) => Err(ShelfFault::Failed),
        }
    }

    /// Whether a file of a mailbox is there.
    pub(crate) fn has_mailbox(&mut self, alloc: Global) -> Result<bool, ShelfFault>
        ensures found { Y.tells → IfOk result (λ has. MatchBool has
            (IsNew (files_of (Y.disk self.old.system)) → ⊥)
            (IsNew (files_of (Y.disk self.old.system)))) }
        ensures quiet { Y.tells →
            IsQuiet Y.disk Y.moment Y.left_since self.old.system self.new.system }
    {
        if self.enter().is_err() {
            return Err(ShelfFault::Failed);
        }
        self.system.has_mailbox(alloc)
    }

    /// The names of the files that are there.
    pub(crate) fn list(&mut self, alloc: Global) -> Result<List<Name>, ShelfFault>
        ensures found { Y.tells →
            IfOk result (λ names. Lists (files_of (Y.disk self.old.system)) names) }
        ensures quiet { Y.tells →
            IsQuiet Y.disk Y.moment Y.left_since self.old.system self.new.system }
    {
        if self.enter().is_err() {
            return Err(ShelfFault::Failed);
        }
        let entries = self.system.list(alloc)?;
        match names_of(alloc, entries.as_slice()) {
            Ok(names) => Ok(names),
            Err(_) => Err(ShelfFault::NoMemory),
        }
    }
}

/// A file's bytes, with zero bytes up to a place where it ends before that.
fn filled(alloc: Global, file: Option<Bytes>, at: u32) -> Result<Bytes, NoMemory>
    ensures { IfOk result (λ made. made ≡ patched (unwrap_or file []) at []) }
{
    let mut bytes = match file {
        Some(bytes) => bytes.into_vec(),
        None => Vec::new(alloc),
    };
    if bytes.len() < at as usize {
        bytes.resize(at as usize, 0)?;
    }
    Ok(List::from_vec(bytes))
}
