ghost use Rattle.std.specs.Prelude.{◌≡◌, ◌+◌, false};
ghost use Rattle.dv_member.specs.Calls.{counted};

use crate::session::Session;
use dv_naming::{Keeping, Tally};
use std::sync::ledger::Book;

/// A turn ends: the session has to catch up before its next.
pub(crate) fn end_turn(caught_up: &mut bool, turns: &mut u64)
    ensures { (caught_up.new ≡ false) × (turns.new ≡ counted turns.old) }
{
    *caught_up = false;
    *turns = turns.saturating_add(1);
}

impl<K: Keeping, L: Tally, M: Tally> Session<K, L, M> {
    /// Counts that it catches up under the lock.
    pub fn count_hold(&mut self)
        ensures { self.new ≡ record self.old { holds = counted self.old.holds } }
    {
        self.holds = self.holds.saturating_add(1);
    }

    /// Counts an entry that it wrote.
    pub fn count_write(&mut self, book: &mut Book<L>)
        ensures session { self.new ≡ record self.old { wrote = self.old.wrote + 1 } }
        ensures total { book.new.total ≡ book.old.total + 1 }
    {
        book.add(&mut self.writes, 1);
    }

    /// Counts a command that a failure of the disk answers.
    pub fn count_refusal(&mut self, book: &mut Book<M>)
        ensures session { self.new ≡ record self.old { refused = self.old.refused + 1 } }
        ensures total { book.new.total ≡ book.old.total + 1 }
    {
        book.add(&mut self.refusals, 1);
    }
}
