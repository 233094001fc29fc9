ghost use Rattle.std.specs.Prelude.{◌≡◌, ◌+◌, All, length};
ghost use Rattle.std.specs.List.{sum_by};
ghost use mathlib.Core.List.{IsPrefix};
ghost use Rattle.dv_keeper.specs.Closing.{Settles};
ghost use Rattle.dv_member.specs.Members.{Member, notes_of};
ghost use Rattle.dv_shared.specs.Holding.{Holds, KeepsSettled};
ghost use Rattle.dv_shared.specs.Kept.{Kept, notes_in};
ghost use Rattle.dv_shelf.specs.Folders.{Folder};
ghost use Rattle.dv_tries.specs.Durable.{IsDurable};

use crate::keeper::Keeper;
use dv_member::Session;
use dv_naming::{Keeping, Tally};
use dv_shared::Shared;
use dv_shelf::{Clock, Shelf};
use dv_store::Store;
use std::sync::ledger::Share;

// All sessions hand their shares in.
fn settle_all<S: Shelf, C: Clock, K: Keeping, L: Tally, M: Tally>(
    shared: &mut Shared<S, C, K, L, M>,
    mut sessions: Vec<Session<K, L, M>>,
    writes: &mut Share<L>,
    refusals: &mut Share<M>,
)
    requires writes { (writes.old.parts ≡ 0) × (writes.old.amount ≡ 0) }
    requires refusals { (refusals.old.parts ≡ 0) × (refusals.old.amount ≡ 0) }
    ensures begins { All (λ (s : Member). IsPrefix (notes_of s) (notes_in shared.old.kept))
        sessions.items }
    ensures writes { (writes.new.parts ≡ length sessions.items)
        × (writes.new.amount ≡ sum_by (λ (s : Member). s.wrote) sessions.items) }
    ensures refusals { (refusals.new.parts ≡ length sessions.items)
        × (refusals.new.amount ≡ sum_by (λ (s : Member). s.refused) sessions.items) }
    ensures same { shared.new ≡ shared.old }
{
    while let Some(s) = sessions.pop() {
        shared.settle(s, writes, refusals);
    }
}

impl<S: Shelf, C: Clock, K: Keeping, L: Tally, M: Tally> Keeper<S, C, K, L, M> {
    /// The store behind all calls, and how many entries its log has, with the sessions handed in.
    /// What each session has seen begins the one list of entries, which the folder gives, also
    /// after a crash now or at any moment since the run began. Where the shelf has counted no
    /// failure since then it is settled. It takes no lock and no memory.
    pub fn close(self, sessions: Vec<Session<K, L, M>>) -> (Store<S, C>, u64)
        ensures { (k : Kept S C) × (result.0 ≡ k.store) × (result.1 ≡ length (notes_in k))
            × Holds S.sees C.sees.tells K.start K.moment K.past K.honest k
            × Settles S.sees K.count L.parts M.parts sessions.items k
            × (K.honest → (folder : Folder) → S.sees.may_leave k.store.shelf folder
            → IsDurable K.start (notes_in k) folder)
            × KeepsSettled S.sees K.count K.honest k }
    {
        let Keeper { shared, .. } = self;
        let mut shared = shared.into_inner();
        let (mut writes, mut refusals) = shared.no_shares();
        settle_all(&mut shared, sessions, &mut writes, &mut refusals);
        shared.audit(&mut writes, &mut refusals);
        shared.knows();
        shared.into_parts()
    }
}
