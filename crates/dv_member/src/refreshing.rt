ghost use Rattle.std.specs.Prelude.{◌≡◌, ◌≤◌, [], false, IfOk, IsOk, OnErr, OnOk, length};
ghost use mathlib.Core.List.{IsPrefix};
ghost use Rattle.dv_feed.specs.Taking.{told_by};
ghost use Rattle.dv_front.specs.Notes.{text_of};
ghost use Rattle.dv_member.specs.Calls.{IsLoaded, refreshed};
ghost use Rattle.dv_member.specs.Inside.{IsMember, all_of};
ghost use Rattle.dv_member.specs.Members.{known_in, notes_of};

use crate::batch::{Batch, add_words, make_ready, show};
use crate::mirror::Mirror;
use crate::reader::Reader;
use crate::session::Session;
use dv_feed::{Taken, take};
use dv_model::{List, NoMemory};
use dv_naming::{Keeping, Tally};
use std::alloc::Global;

/// A batch of no entries behind what was seen.
pub(crate) fn new_batch(alloc: Global, m: &Mirror) -> Batch
    ensures { (result.records.items ≡ []) × (result.mark ≡ m.now.mark)
        × (result.seen ≡ m.now.seen) }
{
    Batch {
        records: Vec::new(alloc),
        mark: m.mark,
        seen: m.seen,
    }
}

// Sees the entries of the words that were taken. After `NoMemory`, which is the only error, all is
// as before. Where there are none no memory is taken.
fn see_words<K: Keeping>(alloc: Global, r: &mut Reader, m: &mut Mirror) -> Result<(), NoMemory>
    requires member { IsMember K.roll K.start K.count r.old m.old false }
    requires all { r.old.pass.taken ≡ length (text_of r.old.pass.notes) }
    ensures member { IsMember K.roll K.start K.count r.new m.new false }
    ensures seen { OnOk result (m.new.seen ≡ length (all_of r.old.pass)) }
    ensures reader { r.new ≡ record r.old { words = r.new.words } }
    ensures state { (m.new.session.state ≡ m.old.session.state)
        × (m.old.seen ≤ m.new.seen) }
    ensures err { OnErr result ((m.new ≡ record m.old { live = m.new.live })
        × (m.new.live.mailbox ≡ m.old.live.mailbox)) }
    ensures memory { r.old.words ≡ [] → IsOk result }
{
    if r.words.is_empty() {
        return Ok(());
    }
    let mut batch = new_batch(alloc, m);
    add_words(alloc, &mut batch, &r.words)?;
    let ready = make_ready(m, batch)?;
    show(m, ready);
    r.words = List::new(alloc);
    Ok(())
}

impl<K: Keeping, L: Tally, M: Tally> Session<K, L, M> {
    /// Sees all that was published in its generation, as of one load of the number of words, and
    /// tells whether there may be more. After `NoMemory`, which is the only error, it is as before
    /// but for what it knows of the words. Where it has seen all of them no memory is taken, and
    /// nothing is decoded. It takes no lock.
    pub fn refresh(&mut self) -> Result<Taken, NoMemory>
        requires fresh { self.old.spent ≡ false }
        ensures loads { IsLoaded self.old.front self.new.front }
        ensures begins { IsPrefix (notes_of self.old) (notes_of self.new) }
        ensures seen { OnOk result (notes_of self.new ≡ known_in self.new.front) }
        ensures told { IfOk result (λ taken. taken ≡ told_by self.new.front.sealed) }
        ensures ok { IfOk result (λ taken. self.new ≡ refreshed taken self.old self.new) }
        ensures err { OnErr result (self.new ≡ record self.old { front = self.new.front }) }
        ensures memory { notes_of self.old ≡ known_in self.new.front → IsOk result }
    {
        let taken = take(self.alloc, &mut self.reader.pass, &mut self.reader.words)?;
        see_words::<K>(self.alloc, &mut self.reader, &mut self.mirror)?;
        self.knows_seal = taken == Taken::Rotated;
        self.caught_up = self.caught_up || taken == Taken::Fresh;
        Ok(taken)
    }
}
