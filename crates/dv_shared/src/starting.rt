//! What lies under the lock when a run begins, and the sessions that it makes.

ghost use Rattle.std.specs.Prelude.{◌≡◌, ◌+◌, ◌∷◌, [], ◌≤◌, IfErr, IfOk, None, OnOk};
ghost use Rattle.dv_front.specs.Rolls.{new_listing};
ghost use Rattle.dv_generations.specs.Feeds.{new_feed};
ghost use Rattle.dv_member.specs.Calls.{new_member};
ghost use Rattle.dv_member.specs.Members.{notes_of};
ghost use Rattle.dv_shared.specs.Beginning.{Begins, first_locked, table_words};
ghost use Rattle.dv_shared.specs.Owing.{Owes};

use crate::journal::Journal;
use crate::shared::Shared;
use crate::tries::Tries;
use dv_apply::Live;
use dv_front::Roll;
use dv_generations::Generations;
use dv_member::Session;
use dv_model::{Mark, NoMemory};
use dv_naming::{Keeping, Names, Tally};
use dv_shelf::{Clock, Shelf};
use dv_store::Store;
use std::alloc::Global;
use std::sync::ledger::Share;

/// The number of words of a table, where no group needs more.
const TABLE_WORDS: u32 = 32_768;

// The first generation behind a mailbox.
fn first_feed<K: Keeping>(
    alloc: Global,
    roll: Roll,
    live: &Live,
    mark: Mark,
    start_count: u64,
) -> Result<Generations<K>, NoMemory>
    requires roll { (roll.table ≡ K.roll) × (roll.items ≡ []) }
    requires start { (live.now.mailbox ≡ K.start.start) × (mark ≡ K.start.start_mark) }
    requires count { start_count ≡ K.count }
    ensures { IfOk result (λ g. g ≡ new_feed table_words) }
{
    let mailbox = live.mailbox(alloc)?;
    Generations::new(alloc, roll, TABLE_WORDS, &mailbox, mark, start_count)
}

/// A new value with what counts its sessions: all parts of both ledgers.
type Made<S, C, K, L, M> = (Shared<S, C, K, L, M>, Share<L>, Share<M>);

impl<S: Shelf, C: Clock, K: Keeping, L: Tally, M: Tally> Shared<S, C, K, L, M> {
    /// The store of a run that begins, of which no note is published, and all parts of both
    /// ledgers. The count is that of the shelf's failures when the run began. The store is handed
    /// back with `NoMemory`, which is the only error.
    pub fn new(
        alloc: Global,
        names: Names,
        store: Store<S, C>,
        start_count: u64,
    ) -> Result<Made<S, C, K, L, M>, (Store<S, C>, NoMemory)>
        requires roll { (names.roll.table ≡ K.roll) × (names.roll.items ≡ []) }
        requires writes { (names.writes.name ≡ L.name) × (names.writes.parts ≡ L.parts) }
        requires refusals { (names.refusals.name ≡ M.name)
            × (names.refusals.parts ≡ M.parts) }
        requires begins { Begins S.sees K.start K.moment K.past K.honest store }
        requires count { (start_count ≡ K.count)
            × (K.count ≤ S.sees.fault_count store.shelf) }
        ensures ok { IfOk result (λ made. made.0 ≡ first_locked store) }
        // Nothing is owed.
        ensures owes { K.honest → Owes S.sees C.sees.tells K.start [] None store }
        ensures writes { IfOk result (λ made.
            (made.1.parts ≡ L.parts) × (made.1.amount ≡ 0)) }
        ensures refusals { IfOk result (λ made.
            (made.2.parts ≡ M.parts) × (made.2.amount ≡ 0)) }
        ensures err { IfErr result (λ e. e.0 ≡ store) }
    {
        let Names {
            roll,
            writes,
            refusals,
        } = names;
        let feed = match first_feed(alloc, roll, store.live(), store.mark(), start_count) {
            Ok(feed) => feed,
            Err(e) => return Err((store, e)),
        };
        let (writes, mut wrote) = writes.open::<L>();
        let (refusals, mut refused) = refusals.open::<M>();
        let journal = Journal {
            store,
            feed,
            count: 0,
            tries: Tries::new(),
        };
        let shared = Shared {
            alloc,
            journal,
            writes,
            refusals,
            no_writes: wrote.empty(),
            no_refusals: refused.empty(),
        };
        Ok((shared, wrote, refused))
    }

    /// A session of this number, which has seen nothing, and hasn't selected the mailbox. It takes
    /// a part of each ledger. `NoMemory` is the only error.
    pub fn session(
        &mut self,
        number: u32,
        writes: &mut Share<L>,
        refusals: &mut Share<M>,
    ) -> Result<Session<K, L, M>, NoMemory>
        requires first { self.old.kept.feed.parts ≡ [] ∷ [] }
        requires writes { (1 ≤ writes.old.parts) × (writes.old.amount ≡ 0) }
        requires refusals { (1 ≤ refusals.old.parts) × (refusals.old.amount ≡ 0) }
        ensures new { IfOk result (λ s. s ≡ new_member number s.front s.tables K.start.start) }
        ensures nothing { IfOk result (λ s. notes_of s ≡ []) }
        ensures writes { OnOk result
            ((writes.new.parts + 1 ≡ writes.old.parts) × (writes.new.amount ≡ 0)) }
        ensures refusals { OnOk result
            ((refusals.new.parts + 1 ≡ refusals.old.parts) × (refusals.new.amount ≡ 0)) }
        ensures same { self.new ≡ self.old }
    {
        let alloc = self.alloc;
        let journal = &mut self.journal;
        let live = journal.store.live().copy(alloc)?;
        let mark = journal.store.mark();
        let wrote = writes.split_off(1, 0);
        let refused = refusals.split_off(1, 0);
        Session::new(alloc, number, &mut journal.feed, live, mark, wrote, refused)
    }
}
