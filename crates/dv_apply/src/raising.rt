ghost use Rattle.std.specs.Prelude.{◌≡◌, ◌≤◌, max};
ghost use Rattle.dv_model.specs.Mailboxes.{last_modseq};
ghost use Rattle.dv_apply.specs.States.{IsKept, mailbox_of};

use crate::state::State;

/// Raises the highest modification sequence to a number, where it is lower.
pub fn raise(state: &mut State, n: u64)
    requires kept { IsKept state.old }
    requires small { n ≤ last_modseq }
    ensures is { mailbox_of state.new
        ≡ record (mailbox_of state.old) { highest = max (mailbox_of state.old).highest n } }
    ensures kept { IsKept state.new }
    ensures spare { state.new.spare ≡ state.old.spare }
{
    state.highest = state.highest.max(n);
}
