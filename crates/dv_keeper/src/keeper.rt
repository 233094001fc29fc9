ghost use Rattle.std.specs.Prelude.{◌≡◌, OnErr, OnOk, false, true};
ghost use mathlib.Core.List.{IsPrefix};
ghost use Rattle.dv_member.specs.Calls.{IsAsBefore};
ghost use Rattle.dv_member.specs.Members.{notes_of};
ghost use Rattle.dv_keeper.specs.Sessions.{HasJoined, HasRejoined};

use dv_member::Session;
use dv_model::NoMemory;
use dv_naming::{Keeping, Tally};
use dv_shared::Shared;
use dv_shelf::{Clock, Shelf};
use std::alloc::Global;
use std::sync::{Mutex, Wait};

/// A mailbox store behind one lock, and what its sessions share.
#[derive(Drop)]
pub struct Keeper<S: Shelf, C: Clock, K: Keeping, L: Tally, M: Tally> {
    pub(crate) shared: Mutex<Shared<S, C, K, L, M>>,
    pub(crate) alloc: Global,
}

impl<S: Shelf, C: Clock, K: Keeping, L: Tally, M: Tally> Keeper<S, C, K, L, M> {
    /// A session that knows its table to be sealed sees all that was published, in the newest one.
    /// After `NoMemory`, which is the only error, it is as before but for what it knows of the
    /// words.
    pub fn rejoin<R: Wait>(&self, rt: &R, s: &mut Session<K, L, M>) -> Result<(), NoMemory>
        requires fresh { s.old.spent ≡ false }
        requires knows { s.old.knows_seal ≡ true }
        ensures begins { IsPrefix (notes_of s.old) (notes_of s.new) }
        ensures ok { OnOk result (HasRejoined s.old s.new) }
        ensures err { OnErr result (IsAsBefore s.old s.new) }
    {
        let mut shared = self.shared.lock(rt);
        let held = &mut *shared;
        held.catch_up(s)
    }

    /// Two sessions see all that was published, in one hold of the lock, so that both have seen the
    /// same. After `NoMemory`, which is the only error, both are as before but for what they know
    /// of the words.
    pub fn gather<R: Wait>(
        &self,
        rt: &R,
        a: &mut Session<K, L, M>,
        b: &mut Session<K, L, M>,
    ) -> Result<(), NoMemory>
        requires fresh { (a.old.spent ≡ false) × (b.old.spent ≡ false) }
        ensures begins { IsPrefix (notes_of a.old) (notes_of a.new)
            × IsPrefix (notes_of b.old) (notes_of b.new) }
        ensures one { OnOk result (notes_of a.new ≡ notes_of b.new) }
        ensures ok { OnOk result (HasJoined a.old a.new × HasJoined b.old b.new) }
        ensures err { OnErr result (IsAsBefore a.old a.new × IsAsBefore b.old b.new) }
    {
        let mut shared = self.shared.lock(rt);
        let held = &mut *shared;
        held.gather(a, b)?;
        a.count_hold();
        b.count_hold();
        Ok(())
    }
}
