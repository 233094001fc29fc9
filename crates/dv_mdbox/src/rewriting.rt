//! A file is rewritten.

ghost use Rattle.std.specs.Prelude.{◌≡◌, ◌≢◌, ◌⊎◌, ◌^◌, ◌<◌, ◌≤◌, List, All, IfOk, IfSome, MatchBool, OnOk, Option, Some, flat_map, length, ℕ};
ghost use Rattle.dv_model.specs.Sessions.{group_limit};
ghost use Rattle.dv_model.specs.Mailboxes.{IsValid};
ghost use Rattle.dv_model.specs.Spelling.{IsRecord, written};
ghost use Rattle.dv_logfile.specs.Settling.{StaysSettled};
ghost use Rattle.dv_shelf.specs.Folders.{Folder};
ghost use Rattle.dv_chain.specs.Rest.{Nothing};
ghost use Rattle.dv_filing.specs.Files as filing;
ghost use Rattle.dv_filing.specs.declared.steps.Files.{Files as FilesOf};
ghost use Rattle.dv_maps.specs.Groups.{purge_records as records_of};
ghost use Rattle.dv_maps.specs.Purges.{AreSpelled, all_mapped, file_records as group_of, moved, size_of as bytes_of};
ghost use Rattle.dv_maps.specs.Texts.{Messages};
ghost use Rattle.dv_mdbox.specs.Answers.{HasRoom, HasStorageCause, IsFull};
ghost use Rattle.dv_mdbox.specs.Purging.{FindsRoomAt, FitsKnown, IsNextGone, IsRewriteOf, IsTakenAway, PurgesQuietly, TakesFile, TakesSome, WritesKept, WritesLater, group_size};
ghost use Rattle.dv_mdbox.specs.States.{IsAtRest};
ghost use Rattle.dv_mdbox.specs.Tails.{KeepsEnd, KeepsEndBehind};
ghost use Rattle.dv_mdbox.specs.Writes.{WritesGroup};

use crate::gathering::FileRows;
use crate::saving::is_number;
use crate::tails::{Tail, has_map};
use crate::writing::{is_full, is_valid, turn_time};
use crate::{Storage, StorageFault};
use dv_apply::Live;
use dv_chain::Chain;
use dv_filing::Files;
use dv_logfile::group_text;
use dv_map_groups::purge_records;
use dv_maps::{Mapped, rewrites_are, rewrites_are_written, rewrites_lose_nothing, thinnings_are};
use dv_model::{Group, List, NoMemory, Record};
use dv_shelf::{Clock, Shelf};
use std::alloc::Global;

/// The most bytes of a group.
const GROUP_LIMIT: u64 = 67_108_864;

/// The bytes of a group.
fn size_of(alloc: Global, group: &Group) -> Result<u64, NoMemory>
    requires some { 1 ≤ length group.now.records }
    requires valid { All IsRecord group.now.records }
    ensures { IfOk result (λ size. size ≡ length (flat_map written group.now.records)) }
{
    let text = group_text(alloc, group)?;
    Ok(text.len() as u64 - 4)
}

/// Whether a group of so many bytes is too long, or has no room behind a chain's log while no file
/// can follow.
fn lacks_room(chain: &Chain, size: u64) -> bool
    ensures { MatchBool result ((group_limit < size) ⊎ IsFull chain.now size)
        ((size ≤ group_limit) × HasRoom chain.now size) }
{
    if size > GROUP_LIMIT {
        return true;
    }
    is_full(chain, size as u32)
}

/// The bytes of the texts of these rows.
fn size_of_texts(rows: &[Mapped]) -> u64
    requires { bytes_of rows.now < 2 ^ 32 }
    ensures { result ≡ bytes_of rows.now }
{
    let mut size: u64 = 0;
    for row in rows {
        size += u64::from(row.place.size);
    }
    size
}

/// The end of the last file, where it isn't that of this one.
fn other_tail(known: Option<Tail>, file: u32) -> Option<Tail>
    ensures { IfSome result (λ tail. (known ≡ Some tail) × (tail.file ≢ file)) }
{
    match known {
        Some(tail) => { if tail.file == file { None } else { Some(tail) } }
        None => None,
    }
}

/// The end of the last file once a file is rewritten: that of its kept texts, which are the only
/// ones of a new file; where it keeps none, the one from before, unless that is its own. It is
/// known where the mailbox is a map.
fn tail_behind(
    live: &Live,
    known: Option<Tail>,
    file: u32,
    new: u32,
    rows: &FileRows,
) -> Option<Tail>
    requires known { KeepsEnd live.now.mailbox known }
    requires rows { (files : FilesOf) × IsRewriteOf live.now.mailbox file new rows.now files }
    ensures { KeepsEndBehind live.now.mailbox
        (group_of file new (all_mapped live.now.mailbox)) result }
{
    is_valid(live);
    is_number(new);
    rewrites_are();
    let kept = rows.kept.as_slice();
    if kept.is_empty() {
        return other_tail(known, file);
    }
    if !has_map(live) {
        return None;
    }
    Some(Tail {
        file: new,
        end: size_of_texts(kept),
    })
}

impl<S, C> Storage<S, C> {
    /// The map is valid, as its type has it: ids rise, and each is below the next one. Nothing is
    /// computed.
    pub fn has_valid_map(&self)
        ensures { IsValid self.now.chain.live.mailbox }
    {
        is_valid(&self.chain.live);
    }

    /// The records for these rows of a file.
    fn file_records(&self, rows: &FileRows, new: u32) -> Result<List<Record>, NoMemory>
        requires { bytes_of rows.now.kept.items < 2 ^ 32 }
        ensures { IfOk result (λ records. records
            ≡ records_of (moved new 0 rows.now.kept.items) rows.now.gone.items) }
    {
        purge_records(self.alloc, rows.kept.as_slice(), rows.gone.as_slice(), new)
    }

    /// The end of the last file once a file is rewritten, where it is known.
    fn tail_behind(&self, file: u32, new: u32, rows: &FileRows) -> Option<Tail>
        requires { (files : FilesOf)
            × IsRewriteOf self.now.chain.live.mailbox file new rows.now files }
        ensures { KeepsEndBehind self.now.chain.live.mailbox
            (group_of file new (all_mapped self.now.chain.live.mailbox)) result }
    {
        tail_behind(&self.chain.live, self.tail, file, new, rows)
    }
}

impl<S: Shelf, C: Clock> Storage<S, C> {
    /// Writes a group of these records behind this file. Behind Ok the end of the last file is this
    /// one, where it is known.
    fn put_group(
        &mut self,
        records: List<Record>,
        files: Files,
        tail: Option<Tail>,
    ) -> Result<(), StorageFault>
        requires some { 1 ≤ length records }
        requires spelled { AreSpelled self.old.chain.live.mailbox records }
        requires room { filing.HasRoom files }
        requires tail { KeepsEndBehind self.old.chain.live.mailbox records tail }
        // The map, the entries and the mark, over any shelf.
        ensures value { WritesGroup records self.old self.new result }
        // What the folder gives, at any moment and afterwards; from rest to rest.
        ensures gives { S.sees.tells → WritesLater S.sees records files self.old self.new result }
        ensures settled { S.sees.tells → StaysSettled S.sees self.old.shelf self.new.shelf }
        ensures clock { C.sees.tells →
            TakesSome (C.sees.upcoming self.old.clock) (C.sees.upcoming self.new.clock) }
        // TooLong comes exactly where it has no room.
        ensures room { FindsRoomAt self.old.mark (group_size records) result }
        ensures cause { HasStorageCause (S.sees.fault_count self.old.shelf)
            (S.sees.fault_count self.new.shelf) result }
    {
        let group = Group { records };
        let size = size_of(self.alloc, &group)?;
        if lacks_room(&self.chain, size) {
            return Err(StorageFault::TooLong { bytes: size });
        }
        let time = turn_time(&mut self.clock, &self.chain, &self.owed);
        self.write(group.records, files, time, tail)
    }

    /// Rewrites a file: its kept texts go into a new one, where there are some.
    pub(crate) fn rewrite_file(
        &mut self,
        file: u32,
        new: u32,
        rows: FileRows,
        files: Files,
    ) -> Result<(), StorageFault>
        requires { IsRewriteOf self.old.chain.live.mailbox file new rows files }
        ensures value { (from : ℕ) (known : Option Folder) →
            IsNextGone self.old.chain.live.mailbox from file →
            FitsKnown known self.old.chain.live.mailbox file →
            TakesFile known from file self.old self.new result }
        ensures gives { S.sees.tells → (messages : Messages) (bytes : List ℕ) →
            IsAtRest S.sees messages Nothing self.old →
            WritesKept messages self.old.chain.live.mailbox file new bytes files →
            PurgesQuietly S.sees messages Nothing self.old self.new result
            × OnOk result (IsTakenAway file (S.sees.files self.old.shelf)
            (S.sees.files self.new.shelf) self.old.chain.live.mailbox
            self.new.chain.live.mailbox) }
        ensures settled { S.sees.tells → StaysSettled S.sees self.old.shelf self.new.shelf }
        ensures clock { C.sees.tells →
            TakesSome (C.sees.upcoming self.old.clock) (C.sees.upcoming self.new.clock) }
        ensures cause { HasStorageCause (S.sees.fault_count self.old.shelf)
            (S.sees.fault_count self.new.shelf) result }
    {
        self.has_valid_map();
        is_number(new);
        rewrites_are();
        rewrites_are_written();
        rewrites_lose_nothing();
        thinnings_are();
        let records = self.file_records(&rows, new)?;
        let tail = self.tail_behind(file, new, &rows);
        self.put_group(records, files, tail)?;
        self.clear_files(&[file])
    }
}
