//! What comes before the first file of a purge, and removals.

ghost use Rattle.std.specs.Prelude.{◌≡◌, [], IfErr, IfOk, OnOk, Option, ℕ};
ghost use Rattle.dv_logfile.specs.Settling.{StaysSettled};
ghost use Rattle.dv_shelf.specs.declared.shelf.Name.TheVariants as name;
ghost use Rattle.dv_shelf.specs.Folders.{Folder, Lists};
ghost use Rattle.dv_chain.specs.Openings.{OnlyLooks};
ghost use Rattle.dv_chain.specs.Rest.{Nothing, Owed};
ghost use Rattle.dv_filing.specs.Clearing.{Needs};
ghost use Rattle.dv_files.specs.Writing.{IsSwept};
ghost use Rattle.dv_maps.specs.Texts.{Messages};
ghost use Rattle.dv_mdbox.specs.Answers.{HasStorageCause, IsFailure};
ghost use Rattle.dv_mdbox.specs.Gathering.{AreOrphans};
ghost use Rattle.dv_mdbox.specs.Purging.{AllNamed, IsNamed, PurgesQuietly, PurgesTo};
ghost use Rattle.dv_mdbox.specs.States.{IsAtRest, IsLookedAt};

use crate::fault::{outcome, told};
use crate::gathering::orphans;
use crate::{Storage, StorageFault};
use dv_filing::{clear, pay};
use dv_maps::thinnings_are;
use dv_model::{List, NoMemory};
use dv_shelf::{Name, Shelf};

impl<S: Shelf, C> Storage<S, C> {
    /// Pays what is owed.
    pub(crate) fn settle(&mut self) -> Result<(), StorageFault>
        ensures value { (known : Option Folder) → PurgesTo known 0 [] 0 self.old self.new }
        ensures files { S.sees.tells → (file : ℕ) → S.sees.files self.new.shelf (name.Mail file)
            ≡ S.sees.files self.old.shelf (name.Mail file) }
        ensures clock { self.new.clock ≡ self.old.clock }
        ensures gives { S.sees.tells → (messages : Messages) (debt : Owed) →
            IsAtRest S.sees messages debt self.old →
            PurgesQuietly S.sees messages debt self.old self.new result }
        ensures settled { S.sees.tells → StaysSettled S.sees self.old.shelf self.new.shelf }
        ensures err { IfErr result IsFailure }
        ensures cause { HasStorageCause (S.sees.fault_count self.old.shelf)
            (S.sees.fault_count self.new.shelf) result }
    {
        thinnings_are();
        let paid = pay(&mut self.chain, &mut self.shelf, &mut self.owed);
        outcome(&self.shelf, paid)
    }

    /// Removes message files that no row with references names.
    pub(crate) fn clear_files(&mut self, files: &[u32]) -> Result<(), StorageFault>
        ensures stays { IsLookedAt self.old self.new }
        ensures gone { S.sees.tells → OnOk result
            (IsSwept files.now (S.sees.files self.old.shelf) (S.sees.files self.new.shelf)) }
        ensures gives { S.sees.tells → (messages : Messages) →
            (Needs self.old.chain.live.mailbox files.now → ⊥) →
            IsAtRest S.sees messages Nothing self.old →
            PurgesQuietly S.sees messages Nothing self.old self.new result }
        ensures settled { S.sees.tells → StaysSettled S.sees self.old.shelf self.new.shelf }
        ensures err { IfErr result IsFailure }
        ensures cause { HasStorageCause (S.sees.fault_count self.old.shelf)
            (S.sees.fault_count self.new.shelf) result }
    {
        thinnings_are();
        let cleared = clear(&mut self.shelf, files);
        outcome(&self.shelf, cleared)
    }

    /// The files that are there.
    fn list_files(&mut self) -> Result<List<Name>, StorageFault>
        ensures stays { IsLookedAt self.old self.new }
        ensures found { S.sees.tells → IfOk result (Lists (S.sees.files self.old.shelf)) }
        ensures looks { S.sees.tells → OnlyLooks S.sees self.old.shelf self.new.shelf }
        ensures err { IfErr result IsFailure }
        ensures cause { HasStorageCause (S.sees.fault_count self.old.shelf)
            (S.sees.fault_count self.new.shelf) result }
    {
        match self.shelf.list(self.alloc) {
            Ok(names) => Ok(names),
            Err(fault) => Err(told(&self.shelf, fault)),
        }
    }

    /// The message files of a listing that the map doesn't name.
    fn find_orphans(&self, names: &[Name]) -> Result<Vec<u32>, NoMemory>
        ensures { IfOk result (λ files.
            AreOrphans self.now.chain.live.mailbox names.now files.items) }
    {
        orphans(self.alloc, &self.chain.live, names)
    }

    /// Removes the message files that the map doesn't name.
    pub(crate) fn clear_orphans(&mut self) -> Result<(), StorageFault>
        ensures stays { IsLookedAt self.old self.new }
        ensures named { S.sees.tells → OnOk result
            (AllNamed (S.sees.files self.new.shelf) self.old.chain.live.mailbox) }
        ensures kept { S.sees.tells → OnOk result ((file : ℕ) →
            IsNamed self.old.chain.live.mailbox file →
            S.sees.files self.new.shelf (name.Mail file)
            ≡ S.sees.files self.old.shelf (name.Mail file)) }
        ensures gives { S.sees.tells → (messages : Messages) →
            IsAtRest S.sees messages Nothing self.old →
            PurgesQuietly S.sees messages Nothing self.old self.new result }
        ensures settled { S.sees.tells → StaysSettled S.sees self.old.shelf self.new.shelf }
        ensures err { IfErr result IsFailure }
        ensures cause { HasStorageCause (S.sees.fault_count self.old.shelf)
            (S.sees.fault_count self.new.shelf) result }
    {
        thinnings_are();
        let names = self.list_files()?;
        let files = self.find_orphans(names.as_slice())?;
        self.clear_files(files.as_slice())
    }
}
