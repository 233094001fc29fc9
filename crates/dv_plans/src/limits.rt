//! The limits that a command meets, and whether it writes anything, before a file is read.

ghost use Rattle.std.specs.Prelude.{◌≡◌, ◌↔◌, [], IsTrue, List as Listed, length, option_map, true, ℕ};
ghost use Rattle.dv_model.specs.Mailboxes.{IsValid};
ghost use Rattle.dv_model.specs.Sessions.{IsCommand, group_of, limit_of};
ghost use Rattle.dv_model.specs.Spelling.{group_text};
ghost use Rattle.dv_model.specs.Views.{View as Shown};
ghost use Rattle.dv_view.specs.Orders.{IsOrdered};
ghost use Rattle.dv_groups.specs.Changes.{changed_uids};
ghost use Rattle.dv_groups.specs.Groups.{HasFewKeywords, HasSizes};
ghost use Rattle.dv_groups.specs.Limits.{reply_of};

use dv_apply::Live;
use dv_groups::{Limit, group_length, groups_are_short, limit_of};
use dv_model::{Command, Mark};

/// How many bytes the text of a command's group has, where the messages that the command changes
/// were found before.
fn size_of(c: &Command, live: &Live, uids: &[u32]) -> u64
    requires command { IsCommand c.now }
    requires few { HasFewKeywords c.now }
    ensures { (view : Shown) (guid : ℕ → Listed ℕ) → IsOrdered view → HasSizes guid
        → IsValid live.now.mailbox → uids.now ≡ changed_uids c.now view live.now.mailbox
        → result ≡ length (group_text (group_of c.now view live.now.mailbox guid)) }
{
    groups_are_short();
    group_length(c, live, uids)
}

/// The limit that a command meets first, where the messages that it changes were found before, the
/// log ends at this mark, and a long log is rotated. Takes no memory.
pub fn limit_met(c: &Command, live: &Live, uids: &[u32], mark: Mark) -> Option<Limit>
    requires command { IsCommand c.now }
    requires few { HasFewKeywords c.now }
    ensures { (view : Shown) (guid : ℕ → Listed ℕ) → IsOrdered view → HasSizes guid
        → IsValid live.now.mailbox → uids.now ≡ changed_uids c.now view live.now.mailbox
        → option_map reply_of result ≡ limit_of c.now live.now.mailbox true mark
        (group_of c.now view live.now.mailbox guid) }
{
    limit_of(c, live, true, mark, size_of(c, live, uids))
}

/// Whether a command's group has no record, where the messages that it changes were found before.
/// Takes no memory.
pub fn is_empty(c: &Command, live: &Live, uids: &[u32]) -> bool
    requires command { IsCommand c.now }
    requires few { HasFewKeywords c.now }
    ensures { (view : Shown) (guid : ℕ → Listed ℕ) → IsOrdered view → HasSizes guid
        → IsValid live.now.mailbox → uids.now ≡ changed_uids c.now view live.now.mailbox
        → IsTrue result ↔ ((group_of c.now view live.now.mailbox guid).records ≡ []) }
{
    size_of(c, live, uids) == 0
}
