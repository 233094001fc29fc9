ghost use Rattle.std.specs.Prelude.{◌≡◌, ◌⊎◌, ◌+◌, ◌≤◌, IfOk, length};
ghost use Rattle.dv_chain.specs.Openings.{OnlyLooks};
ghost use Rattle.dv_logfile.specs.Settling.{StaysSettled};
ghost use Rattle.dv_model.specs.Counts.{RoseBy};
ghost use Rattle.dv_plans.specs.Faults.{HasStoreCause};
ghost use Rattle.dv_shelf.specs.Crashes.{LeavesOnly};
ghost use Rattle.dv_shelf.specs.Folders.{Folder};
ghost use Rattle.dv_tries.specs.Durable.{IsDurable};
ghost use Rattle.dv_tries.specs.Tries.{GivesLast};
ghost use Rattle.dv_shared.specs.Committing.{CommitsKept, counted_behind, given, with_outcome};
ghost use Rattle.dv_shared.specs.Holding.{Holds, KeepsSettled};
ghost use Rattle.dv_shared.specs.Kept.{notes_in};
ghost use Rattle.dv_shared.specs.Owing.{MovesDebt, OwesSome};
ghost use Rattle.dv_shared.specs.Writing.{HasOutcome, MayWrite, WroteNothing, refused_behind};

use crate::journal::Journal;
use crate::written::Written;
use dv_apply::Live;
use dv_member::Session;
use dv_model::Command;
use dv_naming::{Keeping, Tally};
use dv_plans::StoreFault;
use dv_shelf::{Clock, Shelf};
use std::alloc::Global;
use std::marker::Model;
use std::sync::ledger::{Book, Share};

/// What lies under the lock of a keeper. Contracts see the store, the notes that were published in
/// their generations, the writes that the disk failed, and how many commands a failure of the disk
/// answered.
#[derive(Drop)]
pub struct Shared<S: Shelf, C: Clock, K: Keeping, L: Tally, M: Tally> {
    pub(crate) alloc: Global,
    pub(crate) journal: Journal<S, C, K>,
    pub(crate) writes: Book<L>,
    pub(crate) refusals: Book<M>,
    // Shares of no part, of which others are made.
    pub(crate) no_writes: Share<L>,
    pub(crate) no_refusals: Share<M>,
}

impl<S: Shelf, C: Clock, K: Keeping, L: Tally, M: Tally> Model for Shared<S, C, K, L, M> {
    ghost use Rattle.std.specs.Coded.{coded_list, coded_option};
    ghost use Rattle.dv_model.specs.contracts.types.Command as command_type;
    ghost use Rattle.dv_model.specs.contracts.types.Mark as mark_type;
    ghost use Rattle.dv_view.specs.contracts.view.View as view_type;
    ghost use Rattle.dv_chain.specs.contracts.chain.Chain as chain_type;
    ghost use Rattle.dv_files.specs.contracts.texts.Turn as turn_type;
    ghost use Rattle.dv_lookups.specs.contracts.cache_file.CacheFile as file_type;
    ghost use Rattle.dv_front.specs.contracts.notes.Note as note_type;
    ghost use Rattle.dv_store.specs.States.{state_code};
    ghost use Rattle.dv_shared.specs.Codes.{feed_code, kept_code, locked_code, try_code};
    ghost use Rattle.dv_shared.specs.Kept.{Locked};

    ghost Value = { Locked S C };

    ghost coded = { locked_code (kept_code
        (state_code S.code C.code chain_type.the_row.coded
        (coded_option turn_type.the_row.coded) file_type.the_row.coded mark_type.the_row.coded)
        (feed_code note_type.the_row.coded)
        (coded_list (try_code command_type.the_row.coded view_type.the_row.coded))) };

    ghost use Rattle.dv_shared.specs.Holding.{Balances, Holds, KeepsSettled};
    ghost use Rattle.dv_shared.specs.Journals.{kept_of};

    ghost view = { λ s. record { kept = kept_of s.journal; refused = s.refusals.total } };

    ghost invariant = { λ s.
        Holds S.sees C.sees.tells K.start K.moment K.past K.honest (kept_of s.journal)
        × Balances S.sees K.count s.writes.total
        (record { kept = kept_of s.journal; refused = s.refusals.total })
        × KeepsSettled S.sees K.count K.honest (kept_of s.journal) };
}

// Counts what came of a session's write, behind so many entries.
fn count_outcome<K: Keeping, L: Tally, M: Tally>(
    s: &mut Session<K, L, M>,
    writes: &mut Book<L>,
    refusals: &mut Book<M>,
    before: u64,
    came: &Result<Written, StoreFault>,
)
    requires { IfOk came.now (λ w. (w.number ≡ before) ⊎ (w.number ≡ before + 1)) }
    ensures session { s.new ≡ with_outcome before came.now s.old }
    ensures writes { writes.new.total ≡ counted_behind before writes.old.total came.now }
    ensures refusals { refusals.new.total ≡ refused_behind refusals.old.total came.now }
{
    match came {
        Ok(written) => {
            if written.number > before {
                s.count_write(writes);
            }
        }
        Err(StoreFault::Disk(_)) => s.count_refusal(refusals),
        Err(_) => {}
    }
}

impl<S: Shelf, C: Clock, K: Keeping, L: Tally, M: Tally> Shared<S, C, K, L, M> {
    /// Writes what a command of a session changes, as one group or not at all, publishes that as
    /// one entry more, with the message that it appends, and counts it: the one change under the
    /// lock. `UidsUsedUp` and `TooLong` come exactly where the command meets that limit first (RFC
    /// 5530, LIMIT), `NoMemory` before anything is written, and `Disk` only where the shelf's count
    /// of faults rose, with a try of the command. After an error no entry is published.
    pub fn commit(&mut self, s: &mut Session<K, L, M>, c: &Command) -> Result<Written, StoreFault>
        requires { MayWrite s.old c.now }
        // The notes, the tries, what stays and what is told, over any shelf.
        ensures value { CommitsKept K.honest C.sees.tells K.start
            (given s.old.number c.now s.old.follower.state.view self.old.kept
            (C.sees.upcoming self.old.kept.store.clock)) self.old.kept self.new.kept result }
        // Which answer it is, by the session rules.
        ensures outcome { K.honest → HasOutcome K.start s.old.number s.old.follower.state c.now
            self.old.kept.store.chain.live.mailbox (notes_in self.old.kept)
            (notes_in self.new.kept) result }
        // The folder where nothing was written, and at any moment.
        ensures looks { S.sees.tells →
            WroteNothing (notes_in self.old.kept) (notes_in self.new.kept) result →
            OnlyLooks S.sees self.old.kept.store.shelf self.new.kept.store.shelf }
        ensures since { K.honest →
            LeavesOnly S.sees self.old.kept.store.shelf self.new.kept.store.shelf (λ folder.
            GivesLast C.sees.tells K.start (notes_in self.old.kept) self.old.kept.tries folder
            ⊎ GivesLast C.sees.tells K.start (notes_in self.new.kept) self.new.kept.tries
            folder) }
        // Which write's group the store owes, and a later image may have: behind an entry more
        // none, where the disk failed it perhaps its own, and else that which it owed.
        ensures owes { K.honest → MovesDebt S.sees C.sees.tells K.start
            (given s.old.number c.now s.old.follower.state.view self.old.kept
            (C.sees.upcoming self.old.kept.store.clock)) self.old.kept self.new.kept result }
        // What was settled is so again, where no failure was counted.
        ensures settled { S.sees.tells →
            StaysSettled S.sees self.old.kept.store.shelf self.new.kept.store.shelf }
        // The session counts it, and so does the lock.
        ensures session { s.new ≡ with_outcome (length (notes_in self.old.kept)) result s.old }
        ensures refused { self.new.refused ≡ refused_behind self.old.refused result }
        ensures cause { HasStoreCause (S.sees.fault_count self.old.kept.store.shelf)
            (S.sees.fault_count self.new.kept.store.shelf) result }
    {
        let journal = &mut self.journal;
        let before = journal.count;
        let result = journal.commit(self.alloc, s.number(), c, s.view());
        count_outcome(s, &mut self.writes, &mut self.refusals, before, &result);
        result
    }

    /// What holds whenever the lock is free: the store stands behind the notes, and whatever a
    /// crash leaves now opens to a log that begins with all of them, each with its message and GUID
    /// while that lives, and with the messages of the start. The store owes the group of one of the
    /// writes that were tried, or of none. Where the shelf has counted no failure since the run
    /// began it is settled. Nothing is computed.
    pub fn knows(&self)
        ensures holds { Holds S.sees C.sees.tells K.start K.moment K.past K.honest
            self.now.kept }
        ensures few { RoseBy self.now.refused K.count
            (S.sees.fault_count self.now.kept.store.shelf) }
        ensures tries { length self.now.kept.tries ≤ self.now.refused }
        ensures settled { KeepsSettled S.sees K.count K.honest self.now.kept }
        ensures owes { K.honest → OwesSome S.sees C.sees.tells K.start self.now.kept }
        ensures durable { K.honest → (folder : Folder)
            → S.sees.may_leave self.now.kept.store.shelf folder
            → IsDurable K.start (notes_in self.now.kept) folder }
    {
        let _ = &self.alloc;
    }

    /// The mailbox at the end of the log.
    pub fn live(&self) -> &Live
        ensures { result.now ≡ self.now.kept.store.chain.live }
    {
        self.journal.store.live()
    }

    /// How many entries the log has.
    pub fn count(&self) -> u64
        ensures { result ≡ length (notes_in self.now.kept) }
    {
        self.journal.count
    }
}
