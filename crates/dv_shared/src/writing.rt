ghost use Rattle.std.specs.Prelude.{◌≡◌, ◌⊎◌, length};
ghost use Rattle.dv_chain.specs.Openings.{OnlyLooks};
ghost use Rattle.dv_generations.specs.Feeds.{journal};
ghost use Rattle.dv_logfile.specs.Settling.{StaysSettled};
ghost use Rattle.dv_plans.specs.Faults.{HasStoreCause};
ghost use Rattle.dv_shelf.specs.Crashes.{LeavesOnly};
ghost use Rattle.dv_tries.specs.Commits.{selected_with, try_of};
ghost use Rattle.dv_tries.specs.Tries.{GivesLast};
ghost use Rattle.dv_shared.specs.Committing.{CommitsKept, given};
ghost use Rattle.dv_shared.specs.Holding.{Holds};
ghost use Rattle.dv_shared.specs.Journals.{kept_of};
ghost use Rattle.dv_shared.specs.Owing.{MovesDebt};
ghost use Rattle.dv_shared.specs.Writing.{HasOutcome, MayServe, WroteNothing, with_fault};

use crate::journal::Journal;
use crate::noting::{bounds, note_receipt};
use crate::room::make_room;
use crate::tries::Tries;
use crate::written::Written;
use dv_model::Command;
use dv_naming::Keeping;
use dv_plans::StoreFault;
use dv_shelf::{Clock, Shelf};
use dv_store::Store;
use dv_view::View;
use std::alloc::Global;
use std::snapshot::Snapshot;

// Remembers a write where the disk failed it.
fn note_fault<S, C: Clock>(
    tries: &mut Tries<S, C>,
    place: u64,
    author: u32,
    c: &Command,
    view: &View,
    before: Snapshot<Store<S, C>>,
    fault: &StoreFault,
)
    ensures { tries.new ≡ with_fault tries.old (try_of place author c.now view.now before.value
        (C.sees.upcoming before.value.clock)) fault.now }
{
    if let StoreFault::Disk(_) = fault {
        tries.add(place, author, c, view, before);
    }
}

impl<S: Shelf, C: Clock, K: Keeping> Journal<S, C, K> {
    /// Writes what a command changes, from the view of its session, as one group or not at all, and
    /// publishes that as one note. All memory is taken before anything is written; publishing takes
    /// none, and is one store of a word. After an error no note is published.
    pub(crate) fn commit(
        &mut self,
        alloc: Global,
        author: u32,
        c: &Command,
        view: &View,
    ) -> Result<Written, StoreFault>
        requires holds { Holds S.sees C.sees.tells K.start K.moment K.past K.honest
            (kept_of self.old) }
        requires may { MayServe author c.now view.now }
        ensures holds { Holds S.sees C.sees.tells K.start K.moment K.past K.honest
            (kept_of self.new) }
        // The notes, the tries, what stays and what is told, over any shelf.
        ensures value { CommitsKept K.honest C.sees.tells K.start
            (given author c.now view.now (kept_of self.old)
            (C.sees.upcoming self.old.store.clock))
            (kept_of self.old) (kept_of self.new) result }
        // Which answer it is, by the session rules.
        ensures outcome { K.honest → HasOutcome K.start author (selected_with view.now) c.now
            self.old.store.chain.live.mailbox (journal self.old.feed) (journal self.new.feed)
            result }
        // The folder where nothing was written, and at any moment.
        ensures looks { S.sees.tells →
            WroteNothing (journal self.old.feed) (journal self.new.feed) result →
            OnlyLooks S.sees self.old.store.shelf self.new.store.shelf }
        ensures since { K.honest → LeavesOnly S.sees self.old.store.shelf self.new.store.shelf
            (λ folder.
            GivesLast C.sees.tells K.start (journal self.old.feed) self.old.tries folder
            ⊎ GivesLast C.sees.tells K.start (journal self.new.feed) self.new.tries folder) }
        // Which write's group the store owes.
        ensures owes { K.honest → MovesDebt S.sees C.sees.tells K.start
            (given author c.now view.now (kept_of self.old)
            (C.sees.upcoming self.old.store.clock))
            (kept_of self.old) (kept_of self.new) result }
        ensures settled { S.sees.tells →
            StaysSettled S.sees self.old.store.shelf self.new.store.shelf }
        ensures cause { HasStoreCause (S.sees.fault_count self.old.store.shelf)
            (S.sees.fault_count self.new.store.shelf) result }
    {
        if self.count == u64::MAX {
            return Err(StoreFault::NoMemory);
        }
        let next = make_room(alloc, &self.store, &mut self.feed, c, view)?;
        let before = Snapshot::of(&self.store);
        match self.store.commit_command(c, view) {
            Ok(receipt) => {
                bounds(&receipt);
                Ok(note_receipt(
                    &mut self.feed,
                    &mut self.count,
                    next,
                    author,
                    c,
                    &before,
                    &receipt,
                ))
            }
            Err(fault) => {
                note_fault(&mut self.tries, self.count, author, c, view, before, &fault);
                Err(fault)
            }
        }
    }
}
