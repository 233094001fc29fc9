//! Ids that have no reference are removed, and the files rewritten that have some.

ghost use Rattle.std.specs.Prelude.{◌≡◌, ◌-◌, ◌^◌, ◌<◌, ◌≤◌, All, IfErr, IfOk, IfSome, List, MatchOption, None, OnOk, Option, Some, length, ℕ};
ghost use Rattle.dv_logfile.specs.Settling.{StaysSettled};
ghost use Rattle.dv_shelf.specs.declared.shelf.Name.TheVariants as name;
ghost use Rattle.dv_shelf.specs.Folders.{Folder};
ghost use Rattle.dv_chain.specs.Openings.{OnlyLooks};
ghost use Rattle.dv_chain.specs.Rest.{Nothing, Owed};
ghost use Rattle.dv_maps.specs.Laws.{IsMap};
ghost use Rattle.dv_maps.specs.Purges.{StandsIn, all_mapped, size_of, texts_in};
ghost use Rattle.dv_maps.specs.Tables.{IsTableFrom, IsTableOf, all_listed, listed_of, rows_in};
ghost use Rattle.dv_maps.specs.Texts.{Messages};
ghost use Rattle.dv_mdbox.specs.Answers.{HasStorageCause, IsFailure};
ghost use Rattle.dv_mdbox.specs.Gathering.{AreRowsOf, Gathers};
ghost use Rattle.dv_mdbox.specs.Purged.{IsPurged, KeepsNamed};
ghost use Rattle.dv_mdbox.specs.Purging.{AllNamed, FitsKnown, IsCleared, IsNextGone, IsTaken, IsTakenAway, KnowsFile, KnowsFiles, NoneGoneFrom, NumbersFile, PurgesMap, PurgesQuietly, TakesFile, TakesSome};
ghost use Rattle.dv_mdbox.specs.States.{IsAtRest, IsLookedAt};
ghost use Rattle.dv_mdbox.specs.Tails.{KeepsEnd};

use crate::fault::told;
use crate::gathering::{FileRows, read_kept};
use crate::listing::{file_rows, first_gone, map_table};
use crate::tails::{Tail, last_tail, number_behind};
use crate::{Storage, StorageFault};
use dv_apply::Live;
use dv_filing::Files;
use dv_maps::{FileTable, tables_stay, thinnings_are};
use dv_model::{Bytes, NoMemory};
use dv_shelf::{Clock, Shelf};

/// The number behind the highest that a map names. Time by the rows where the end of the last file
/// isn't known.
fn next_file(live: &Live, known: Option<Tail>) -> Result<u32, StorageFault>
    requires { KeepsEnd live.now.mailbox known }
    ensures { NumbersFile live.now.mailbox result }
{
    let named = match last_tail(live, known) {
        Some(tail) => Some(tail.file),
        None => None,
    };
    match number_behind(named) {
        Some(file) => Ok(file),
        None => Err(StorageFault::Files),
    }
}

impl<S, C> Storage<S, C> {
    /// How many ids there are.
    fn count(&self) -> u32
        ensures { result ≡ length self.now.chain.live.mailbox.rows }
    {
        self.chain.live.count()
    }

    /// The rows by file, where the mailbox is a map and there is memory for them.
    fn table(&self) -> Option<FileTable>
        ensures { IfSome result (λ table. IsMap self.now.chain.live.mailbox
            × IsTableOf (all_mapped self.now.chain.live.mailbox) table) }
    {
        map_table(self.alloc, &self.chain.live)
    }

    /// The first file from a number on that has an id without references.
    fn next_gone(&self, table: &Option<FileTable>, from: u64) -> Option<u32>
        requires { IfSome table.now (λ t.
            IsTableFrom from (all_mapped self.now.chain.live.mailbox) t) }
        ensures { MatchOption result (NoneGoneFrom self.now.chain.live.mailbox from)
            (IsNextGone self.now.chain.live.mailbox from) }
    {
        first_gone(&self.chain.live, table, from)
    }

    /// The rows of a file.
    fn rows_of(&self, table: &Option<FileTable>, file: u32) -> Result<FileRows, NoMemory>
        requires { IfSome table.now (λ t. listed_of file t
            ≡ all_listed (rows_in file (all_mapped self.now.chain.live.mailbox))) }
        ensures { IfOk result (AreRowsOf self.now.chain.live.mailbox file) }
    {
        file_rows(self.alloc, &self.chain.live, table, file)
    }

    /// The number of the next new file.
    fn next_number(&self) -> Result<u32, StorageFault>
        ensures { NumbersFile self.now.chain.live.mailbox result }
    {
        next_file(&self.chain.live, self.tail)
    }
}

impl<S: Shelf, C: Clock> Storage<S, C> {
    /// The texts that a file keeps, one behind another; none where one is damaged, or where they
    /// have 4 GiB or more.
    fn file_texts(&mut self, file: u32, rows: &FileRows) -> Result<Option<Bytes>, StorageFault>
        requires { 1 ≤ length rows.now.kept.items }
        ensures stays { IsLookedAt self.old self.new }
        ensures found { S.sees.tells → IfOk result
            (Gathers (S.sees.files self.old.shelf (name.Mail file)) rows.now.kept.items) }
        ensures short { IfOk result (λ found.
            IfSome found (λ texts. size_of rows.now.kept.items < 2 ^ 32)) }
        ensures looks { S.sees.tells → OnlyLooks S.sees self.old.shelf self.new.shelf }
        ensures err { IfErr result IsFailure }
        ensures cause { HasStorageCause (S.sees.fault_count self.old.shelf)
            (S.sees.fault_count self.new.shelf) result }
    {
        match read_kept(self.alloc, &mut self.shelf, file, rows.kept.as_slice()) {
            Ok(texts) => Ok(texts),
            Err(fault) => Err(told(&self.shelf, fault)),
        }
    }

    /// Rewrites a file whose kept texts these are, one behind another.
    fn put_texts(&mut self, file: u32, rows: FileRows, texts: Bytes) -> Result<(), StorageFault>
        requires rows { AreRowsOf self.old.chain.live.mailbox file rows }
        requires some { (1 ≤ length rows.kept.items) × (1 ≤ length rows.gone.items) }
        requires short { size_of rows.kept.items < 2 ^ 32 }
        ensures value { (from : ℕ) (known : Option Folder) →
            IsNextGone self.old.chain.live.mailbox from file →
            FitsKnown known self.old.chain.live.mailbox file →
            TakesFile known from file self.old self.new result }
        ensures gives { S.sees.tells → (messages : Messages) (bytes : List ℕ) →
            IsAtRest S.sees messages Nothing self.old →
            texts ≡ texts_in bytes rows.kept.items →
            All (StandsIn messages bytes) rows.kept.items →
            PurgesQuietly S.sees messages Nothing self.old self.new result
            × OnOk result (IsTakenAway file (S.sees.files self.old.shelf)
            (S.sees.files self.new.shelf) self.old.chain.live.mailbox
            self.new.chain.live.mailbox) }
        ensures settled { S.sees.tells → StaysSettled S.sees self.old.shelf self.new.shelf }
        ensures clock { C.sees.tells →
            TakesSome (C.sees.upcoming self.old.clock) (C.sees.upcoming self.new.clock) }
        ensures cause { HasStorageCause (S.sees.fault_count self.old.shelf)
            (S.sees.fault_count self.new.shelf) result }
    {
        thinnings_are();
        let new = self.next_number()?;
        self.rewrite_file(file, new, rows, Files::File(new, texts))
    }

    /// Rewrites a file that keeps texts, or passes it over.
    fn move_texts(&mut self, file: u32, rows: FileRows) -> Result<(), StorageFault>
        requires rows { AreRowsOf self.old.chain.live.mailbox file rows }
        requires some { (1 ≤ length rows.kept.items) × (1 ≤ length rows.gone.items) }
        ensures value { (from : ℕ) (known : Option Folder) →
            IsNextGone self.old.chain.live.mailbox from file →
            KnowsFile S.sees known file self.old →
            TakesFile known from file self.old self.new result }
        ensures gives { S.sees.tells → (messages : Messages) →
            IsAtRest S.sees messages Nothing self.old →
            PurgesQuietly S.sees messages Nothing self.old self.new result
            × OnOk result (IsTaken file (S.sees.files self.old.shelf)
            (S.sees.files self.new.shelf) self.old.chain.live.mailbox
            self.new.chain.live.mailbox) }
        ensures settled { S.sees.tells → StaysSettled S.sees self.old.shelf self.new.shelf }
        ensures clock { C.sees.tells →
            TakesSome (C.sees.upcoming self.old.clock) (C.sees.upcoming self.new.clock) }
        ensures cause { HasStorageCause (S.sees.fault_count self.old.shelf)
            (S.sees.fault_count self.new.shelf) result }
    {
        thinnings_are();
        let found = self.file_texts(file, &rows)?;
        match found {
            Some(texts) => self.put_texts(file, rows, texts),
            None => Ok(()),
        }
    }

    /// Rewrites a file that has a row without references, or passes it over: where a text that it
    /// keeps is damaged, or where those have 4 GiB or more.
    fn take_file(&mut self, table: &Option<FileTable>, file: u32) -> Result<(), StorageFault>
        requires next { (from : ℕ) × IsNextGone self.old.chain.live.mailbox from file }
        requires table { IfSome table.now (λ t. listed_of file t
            ≡ all_listed (rows_in file (all_mapped self.old.chain.live.mailbox))) }
        ensures value { (from : ℕ) (known : Option Folder) →
            IsNextGone self.old.chain.live.mailbox from file →
            KnowsFile S.sees known file self.old →
            TakesFile known from file self.old self.new result }
        ensures gives { S.sees.tells → (messages : Messages) →
            IsAtRest S.sees messages Nothing self.old →
            PurgesQuietly S.sees messages Nothing self.old self.new result
            × OnOk result (IsTaken file (S.sees.files self.old.shelf)
            (S.sees.files self.new.shelf) self.old.chain.live.mailbox
            self.new.chain.live.mailbox) }
        ensures settled { S.sees.tells → StaysSettled S.sees self.old.shelf self.new.shelf }
        ensures clock { C.sees.tells →
            TakesSome (C.sees.upcoming self.old.clock) (C.sees.upcoming self.new.clock) }
        ensures cause { HasStorageCause (S.sees.fault_count self.old.shelf)
            (S.sees.fault_count self.new.shelf) result }
    {
        thinnings_are();
        let rows = self.rows_of(table, file)?;
        if rows.kept.as_slice().is_empty() {
            self.rewrite_file(file, 0, rows, Files::Nothing)
        } else {
            self.move_texts(file, rows)
        }
    }

    /// Takes each file that has a row without references, by rising number.
    fn take_files(&mut self) -> Result<(), StorageFault>
        ensures value { (known : Option Folder) → KnowsFiles S.sees known self.old →
            PurgesMap known self.old self.new result }
        ensures gives { S.sees.tells → (messages : Messages) →
            IsAtRest S.sees messages Nothing self.old →
            PurgesQuietly S.sees messages Nothing self.old self.new result }
        ensures clears { S.sees.tells → (messages : Messages) →
            IsAtRest S.sees messages Nothing self.old →
            AllNamed (S.sees.files self.old.shelf) self.old.chain.live.mailbox →
            OnOk result
            (IsCleared (S.sees.files self.new.shelf) self.new.chain.live.mailbox) }
        ensures kept { S.sees.tells → (messages : Messages) →
            IsAtRest S.sees messages Nothing self.old →
            OnOk result (KeepsNamed (S.sees.files self.old.shelf) (S.sees.files self.new.shelf)
            self.old.chain.live.mailbox self.new.chain.live.mailbox) }
        ensures settled { S.sees.tells → StaysSettled S.sees self.old.shelf self.new.shelf }
        ensures clock { C.sees.tells →
            TakesSome (C.sees.upcoming self.old.clock) (C.sees.upcoming self.new.clock) }
        ensures cause { HasStorageCause (S.sees.fault_count self.old.shelf)
            (S.sees.fault_count self.new.shelf) result }
    {
        thinnings_are();
        tables_stay();
        let table = self.table();
        let mut from: u64 = 0;
        while let Some(file) = self.next_gone(&table, from) {
            self.take_file(&table, file)?;
            from = u64::from(file) + 1;
        }
        Ok(())
    }

    /// Removes the ids that have no reference, and answers how many went. What is owed is paid, and
    /// message files that the map doesn't name are removed. Then by rising number each file that
    /// has an id without references is rewritten: the texts of its other ids go into a new file, a
    /// group removes the ids and says the new places, and the file is removed. A file in which such
    /// a text is damaged is passed over, and so is one where they have 4 GiB or more, and no other:
    /// their ids stay. `Files` comes exactly where the next file that isn't passed over needs a new
    /// one and no number is left for it, and `TooLong` exactly where its group has more than 64
    /// MiB, or where the log is full and no file can follow it. `Disk` comes only where the shelf's
    /// count of faults rose. After an error the ids are as before, but that those that went with a
    /// group stay gone.
    pub fn purge(&mut self) -> Result<u32, StorageFault>
        // How many ids went, and what becomes of the map, file by file, over any shelf.
        ensures count { IfOk result (λ n. n ≡ length self.old.chain.live.mailbox.rows
            - length self.new.chain.live.mailbox.rows) }
        ensures value { PurgesMap None self.old self.new result }
        // Which files are rewritten, by the folder, and where an error comes; which ids went.
        ensures exact { S.sees.tells → (messages : Messages) (debt : Owed) →
            IsAtRest S.sees messages debt self.old →
            PurgesMap (Some (S.sees.files self.old.shelf)) self.old self.new result }
        ensures purged { S.sees.tells → (messages : Messages) (debt : Owed) →
            IsAtRest S.sees messages debt self.old →
            IfOk result (IsPurged (S.sees.files self.old.shelf) (S.sees.files self.new.shelf)
            self.old.chain.live.mailbox self.new.chain.live.mailbox) }
        // The storage is without some ids that have no reference; from rest to rest.
        ensures gives { S.sees.tells → (messages : Messages) (debt : Owed) →
            IsAtRest S.sees messages debt self.old →
            PurgesQuietly S.sees messages debt self.old self.new result }
        // Each message file is named, and no id without references is left, but in files that were
        // passed over.
        ensures clears { S.sees.tells → (messages : Messages) (debt : Owed) →
            IsAtRest S.sees messages debt self.old → OnOk result
            (IsCleared (S.sees.files self.new.shelf) self.new.chain.live.mailbox) }
        ensures settled { S.sees.tells → StaysSettled S.sees self.old.shelf self.new.shelf }
        // The clock is read where the log is rotated; a fault of the disk has its cause.
        ensures clock { C.sees.tells →
            TakesSome (C.sees.upcoming self.old.clock) (C.sees.upcoming self.new.clock) }
        ensures cause { HasStorageCause (S.sees.fault_count self.old.shelf)
            (S.sees.fault_count self.new.shelf) result }
    {
        thinnings_are();
        let before = self.count();
        self.settle()?;
        self.clear_orphans()?;
        self.take_files()?;
        Ok(before.saturating_sub(self.count()))
    }
}
