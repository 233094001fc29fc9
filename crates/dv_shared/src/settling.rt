//! The end of a run: sessions hand their shares in, and the store is given back.

ghost use Rattle.std.specs.Prelude.{◌≡◌, ◌+◌, length};
ghost use mathlib.Core.List.{IsPrefix};
ghost use Rattle.dv_member.specs.Members.{notes_of};
ghost use Rattle.dv_shared.specs.Kept.{notes_in};

use crate::journal::Journal;
use crate::shared::Shared;
use dv_member::Session;
use dv_naming::{Keeping, Tally};
use dv_shelf::{Clock, Shelf};
use dv_store::Store;
use std::sync::ledger::Share;

impl<S: Shelf, C: Clock, K: Keeping, L: Tally, M: Tally> Shared<S, C, K, L, M> {
    /// Shares of no part, to which sessions hand in theirs. Takes no memory.
    pub fn no_shares(&mut self) -> (Share<L>, Share<M>)
        ensures writes { (result.0.parts ≡ 0) × (result.0.amount ≡ 0) }
        ensures refusals { (result.1.parts ≡ 0) × (result.1.amount ≡ 0) }
        ensures same { self.new ≡ self.old }
    {
        let writes = self.no_writes.empty();
        let refusals = self.no_refusals.empty();
        (writes, refusals)
    }

    /// A session hands its shares of the ledgers in. What it has seen begins all that was
    /// published. Takes no memory.
    pub fn settle(&mut self, s: Session<K, L, M>, writes: &mut Share<L>, refusals: &mut Share<M>)
        ensures begins { IsPrefix (notes_of s) (notes_in self.old.kept) }
        ensures writes { (writes.new.parts ≡ writes.old.parts + 1)
            × (writes.new.amount ≡ writes.old.amount + s.wrote) }
        ensures refusals { (refusals.new.parts ≡ refusals.old.parts + 1)
            × (refusals.new.amount ≡ refusals.old.amount + s.refused) }
        ensures same { self.new ≡ self.old }
    {
        let journal = &mut self.journal;
        s.settle(&mut journal.feed, writes, refusals)
    }

    /// Where the shares have all parts, the sessions together wrote all entries, and they count
    /// each command that a failure of the disk answered. Nothing is computed.
    pub fn audit(&mut self, writes: &mut Share<L>, refusals: &mut Share<M>)
        ensures writes { writes.old.parts ≡ L.parts →
            writes.old.amount ≡ length (notes_in self.old.kept) }
        ensures refusals { refusals.old.parts ≡ M.parts →
            refusals.old.amount ≡ self.old.refused }
        ensures shares { (writes.new.amount ≡ writes.old.amount)
            × (refusals.new.amount ≡ refusals.old.amount) }
        ensures same { self.new ≡ self.old }
    {
        self.writes.audit(writes);
        self.refusals.audit(refusals);
    }

    /// The store, and how many entries the log has. Takes no memory.
    pub fn into_parts(self) -> (Store<S, C>, u64)
        ensures store { result.0 ≡ self.kept.store }
        ensures count { result.1 ≡ length (notes_in self.kept) }
    {
        let Shared { journal, .. } = self;
        let Journal { store, count, .. } = journal;
        (store, count)
    }
}
