ghost use Rattle.std.specs.Prelude.{◌≡◌, ◌∷◌, [], ◌≤◌, ◌<◌, ◌^◌, IfErr, IfOk, vec_len};
ghost use Rattle.dv_keeper.specs.Sessions.{AreNewSessions};
ghost use Rattle.dv_shared.specs.Beginning.{Begins};

use crate::keeper::Keeper;
use dv_member::Session;
use dv_model::NoMemory;
use dv_naming::{Keeping, Names, Tally};
use dv_shared::Shared;
use dv_shelf::{Clock, Shelf};
use dv_store::Store;
use std::alloc::Global;
use std::sync::Mutex;
use std::sync::ledger::Share;

// Sessions of the numbers from 1 on.
fn make_sessions<S: Shelf, C: Clock, K: Keeping, L: Tally, M: Tally>(
    alloc: Global,
    shared: &mut Shared<S, C, K, L, M>,
    count: u32,
    writes: &mut Share<L>,
    refusals: &mut Share<M>,
) -> Result<Vec<Session<K, L, M>>, NoMemory>
    requires first { shared.old.kept.feed.parts ≡ [] ∷ [] }
    requires writes { (writes.old.parts ≡ count) × (writes.old.amount ≡ 0) }
    requires refusals { (refusals.old.parts ≡ count) × (refusals.old.amount ≡ 0) }
    ensures count { IfOk result (λ made. vec_len made ≡ count) }
    ensures new { IfOk result (λ made. AreNewSessions K.start 1 made.items) }
    ensures same { shared.new ≡ shared.old }
{
    let mut sessions = Vec::new(alloc);
    for before in 0..count {
        sessions.push(shared.session(before + 1, writes, refusals)?)?;
    }
    Ok(sessions)
}

/// A keeper with its sessions.
type Made<S, C, K, L, M> = (Keeper<S, C, K, L, M>, Vec<Session<K, L, M>>);

impl<S: Shelf, C: Clock, K: Keeping, L: Tally, M: Tally> Keeper<S, C, K, L, M> {
    /// A keeper of a store, under names that whoever begins the run picks, with its sessions of the
    /// numbers from 1 on, which have seen nothing and haven't selected the mailbox. The count is
    /// that of the shelf's failures when the run began. The store is handed back with `NoMemory`,
    /// which is the only error. It takes no lock.
    pub fn new(
        alloc: Global,
        names: Names,
        store: Store<S, C>,
        start_count: u64,
        sessions: u32,
    ) -> Result<Made<S, C, K, L, M>, (Store<S, C>, NoMemory)>
        requires sessions { (1 ≤ sessions) × (sessions ≤ 64) }
        requires roll { (names.roll.table ≡ K.roll) × (names.roll.items ≡ []) }
        requires writes { (names.writes.name ≡ L.name) × (names.writes.parts ≡ L.parts)
            × (L.parts ≡ sessions) }
        requires refusals { (names.refusals.name ≡ M.name)
            × (names.refusals.parts ≡ M.parts) × (M.parts ≡ sessions) }
        requires begins { Begins S.sees K.start K.moment K.past K.honest store }
        requires count { (start_count ≡ K.count)
            × (K.count ≤ S.sees.fault_count store.shelf) }
        ensures count { IfOk result (λ made. vec_len made.1 ≡ sessions) }
        ensures new { IfOk result (λ made. AreNewSessions K.start 1 made.1.items) }
        ensures err { IfErr result (λ e. e.0 ≡ store) }
    {
        let (mut shared, mut writes, mut refusals) = Shared::<S, C, K, L, M>::new(
            alloc,
            names,
            store,
            start_count,
        )?;
        match make_sessions(alloc, &mut shared, sessions, &mut writes, &mut refusals) {
            Ok(made) => {
                let keeper = Keeper {
                    shared: Mutex::new(shared),
                    alloc,
                };
                Ok((keeper, made))
            }
            Err(e) => {
                let (store, _) = shared.into_parts();
                Err((store, e))
            }
        }
    }
}
