//! The write of a group.

ghost use Rattle.std.specs.Prelude.{◌≡◌, ◌≤◌, ◌+◌, ◌++◌, All, IfErr, IsSome, false, true, is_some, length, Some, flat_map, ℕ};
ghost use Rattle.dv_model.specs.declared.types.Mailbox.{Mailbox};
ghost use Rattle.dv_model.specs.Effects.{applied};
ghost use Rattle.dv_model.specs.Mailboxes.{IsValid};
ghost use Rattle.dv_model.specs.Sessions.{is_log_full};
ghost use Rattle.dv_model.specs.Spelling.{IsRecord, written};
ghost use Rattle.dv_logfile.specs.Settling.{StaysSettled};
ghost use Rattle.dv_shelf.specs.Clocks.{behind};
ghost use Rattle.dv_chain.specs.Rest.{Owed};
ghost use Rattle.dv_plans.specs.Begins.{count_of, turns};
ghost use Rattle.dv_files.specs.Texts.{place_of};
ghost use Rattle.dv_filing.specs.Files.{HasRoom};
ghost use Rattle.dv_filing.specs.Standing.{Fits, Stands};
ghost use Rattle.dv_filing.specs.Writes.{KeepsThrough};
ghost use Rattle.dv_maps.specs.Texts.{Messages};
ghost use Rattle.dv_mdbox.specs.Answers.{HasStorageCause, IsFailure};
ghost use Rattle.dv_mdbox.specs.Readying.{IsGroupFor};
ghost use Rattle.dv_mdbox.specs.Tails.{KeepsEndBehind};
ghost use Rattle.dv_mdbox.specs.Writes.{KeepsBeside, WritesBeside, WritesGroup};

use crate::fault::disk;
use crate::readying::{Ready, make_ready};
use crate::tails::Tail;
use crate::{Storage, StorageFault};
use dv_apply::Live;
use dv_chain::Chain;
use dv_files::Turn;
use dv_filing::{Files, carry_out};
use dv_model::{Entry, Group, List, Record};
use dv_shelf::{Clock, Shelf};
use dv_writing::is_due;

/// Who writes the groups of a storage.
const AUTHOR: u32 = 1;

/// Whether a rotation comes before the group: the log is long, and none is owed.
fn is_turn_due(chain: &Chain, owed: &Option<Turn>) -> bool
    ensures { result ≡ turns owed.now chain.now }
{
    owed.is_none() && is_due(chain)
}

/// A reading for a new log file, where one is due.
pub(crate) fn turn_time<C: Clock>(clock: &mut C, chain: &Chain, owed: &Option<Turn>) -> Option<u32>
    ensures turn { is_some result ≡ turns owed.now chain.now }
    ensures clock { C.sees.tells → C.sees.upcoming clock.new
        ≡ behind (C.sees.upcoming clock.old) (count_of (turns owed.now chain.now)) }
{
    if !is_turn_due(chain, owed) {
        return None;
    }
    Some(clock.now())
}

/// Whether a group of so many bytes has no room behind a chain's log, and no file can follow.
pub(crate) fn is_full(chain: &Chain, size: u32) -> bool
    requires { size ≤ 67108864 }
    ensures { result ≡ is_log_full true (place_of chain.now) size }
{
    chain.log.file_seq == u32::MAX && u64::from(chain.log.end) + u64::from(size) > 1_073_741_820
}

/// The map of a live mailbox is valid, as its type has it. Nothing is computed.
pub(crate) fn is_valid(live: &Live)
    ensures { IsValid live.now.mailbox }
{
    let _next = live.next_uid();
}

impl<S: Shelf, C> Storage<S, C> {
    /// Writes a group of these records, which take so many bytes, behind this file, and keeps it.
    /// What is owed is repaired first, and the log rotated where a time was read for that. Behind Ok
    /// the end of the last file is this one, where it is known.
    pub(crate) fn write(
        &mut self,
        records: List<Record>,
        files: Files,
        time: Option<u32>,
        tail: Option<Tail>,
    ) -> Result<(), StorageFault>
        requires group { IsGroupFor self.old.chain records }
        requires time { is_some time ≡ turns self.old.owed self.old.chain }
        requires room { HasRoom files }
        requires tail { KeepsEndBehind self.old.chain.live.mailbox records tail }
        // The map, the entries and the mark, over any shelf.
        ensures value { WritesGroup records self.old self.new result }
        ensures beside { KeepsBeside S.sees tail self.old self.new result }
        // What the folder gives, at any moment and afterwards; from rest to rest.
        ensures gives { S.sees.tells → (messages next : Messages) (debt : Owed) (after : Mailbox) →
            Fits self.old.owed self.old.chain.live.mailbox debt →
            Stands S.sees messages debt self.old.chain self.old.shelf →
            applied self.old.chain.live.mailbox records ≡ Some after →
            KeepsThrough messages next self.old.chain.live.mailbox after files →
            WritesBeside S.sees messages next debt after (length (flat_map written records)) files
            self.old self.new result }
        ensures settled { S.sees.tells → StaysSettled S.sees self.old.shelf self.new.shelf }
        // Memory ran out, or the disk failed, which has its cause.
        ensures err { IfErr result IsFailure }
        ensures cause { HasStorageCause (S.sees.fault_count self.old.shelf)
            (S.sees.fault_count self.new.shelf) result }
    {
        let group = Group { records };
        let Ready { text, steps } = make_ready(
            self.alloc,
            &mut self.chain,
            &mut self.shelf,
            &self.owed,
            &group,
            files,
            time,
        )?;
        self.entries.reserve(1)?;
        match carry_out(
            &mut self.chain,
            &mut self.shelf,
            &mut self.owed,
            &text,
            steps,
        ) {
            Ok(committed) => {
                self.mark = committed.mark;
                self.tail = tail;
                self.entries.push_reserved(Entry {
                    author: AUTHOR,
                    group,
                });
                Ok(())
            }
            Err(_) => Err(disk(&self.shelf)),
        }
    }
}
