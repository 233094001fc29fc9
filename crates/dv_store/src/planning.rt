//! What a command would write.

ghost use Rattle.std.specs.Prelude.{◌≡◌, ◌-◌, ◌^◌, IfOk, List as Listed, length, min, ℕ};
ghost use Rattle.dv_model.specs.Sessions.{IsCommand};
ghost use Rattle.dv_model.specs.Spelling.{group_text};
ghost use Rattle.dv_groups.specs.Changes.{expunged_uids};
ghost use Rattle.dv_groups.specs.Groups.{HasFewKeywords, HasSizes};
ghost use Rattle.dv_files.specs.Reading.{guid_at};
ghost use Rattle.dv_plans.specs.Counts.{CountsMails};
ghost use Rattle.dv_plans.specs.Faults.{HasStoreCause};
ghost use Rattle.dv_plans.specs.Groups.{IsGroupOf};
ghost use Rattle.dv_plans.specs.Limits.{MeetsLimit};
ghost use Rattle.dv_plans.specs.Overs.{group_over, limit_over};
ghost use Rattle.dv_store.specs.Rest.{IsLookedAt, OnlyReads};

use crate::Store;
use dv_groups::need;
use dv_model::{Command, Group, NoMemory};
use dv_plans::{StoreFault, plan_group};
use dv_shelf::Shelf;
use dv_view::View;

impl<S: Shelf, C> Store<S, C> {
    /// The group that a command would write now, from the view of its session. The GUIDs of the
    /// messages that it removes are those of their message files, sixteen zero bytes where one is
    /// damaged or has none. Reads each of these files once, by rising UID, and writes nothing.
    /// `UidsUsedUp` and `TooLong` come exactly where the command meets that limit first (RFC 5530,
    /// LIMIT).
    pub fn plan(&mut self, c: &Command, view: &View) -> Result<Group, StoreFault>
        requires command { IsCommand c.now }
        requires few { HasFewKeywords c.now }
        // The limit that is met.
        ensures limit { (guid : ℕ → Listed ℕ) → HasSizes guid →
            MeetsLimit (limit_over c.now view.now self.old.chain guid) result }
        // The command's group, over any shelf with some GUIDs.
        ensures group { IfOk result (IsGroupOf c.now view.now self.old.chain.live.mailbox) }
        ensures read { S.sees.tells → IfOk result (λ group. group
            ≡ group_over c.now view.now self.old.chain (guid_at (S.sees.files self.old.shelf))) }
        // Nothing is changed.
        ensures stays { IsLookedAt self.old self.new × (self.new.cache ≡ self.old.cache) }
        ensures reads { S.sees.tells →
            OnlyReads S.sees self.old self.new }
        // Each of these message files is read once; a fault of the disk has its cause.
        ensures mail_reads { CountsMails
            (length (expunged_uids c.now view.now self.old.chain.live.mailbox))
            (S.sees.mail_reads self.old.shelf) (S.sees.mail_reads self.new.shelf) result }
        ensures cause { HasStoreCause (S.sees.fault_count self.old.shelf)
            (S.sees.fault_count self.new.shelf) result }
    {
        plan_group(self.alloc, c, view, &self.chain, &mut self.shelf)
    }

    /// The length of the text of the group that a command would write now, from the view of its
    /// session, in bytes; 2^64 - 1 stands for any larger number. `NoMemory` is the only error. The
    /// GUIDs don't count, so neither shelf nor clock is called.
    pub fn need(&self, c: &Command, view: &View) -> Result<u64, NoMemory>
        requires { IsCommand c.now }
        ensures { (guid : ℕ → Listed ℕ) → HasSizes guid → IfOk result (λ n. n
            ≡ min (length (group_text (group_over c.now view.now self.now.chain guid)))
            (2 ^ 64 - 1)) }
    {
        need(self.alloc, c, view, &self.chain.live)
    }
}
