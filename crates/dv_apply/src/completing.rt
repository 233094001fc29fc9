ghost use Rattle.std.specs.Prelude.{◌≡◌, ◌↔◌, ℕ, Contains, ◌-◌, ◌≤◌, [], if◌then◌else◌};
ghost use Rattle.dv_model.specs.declared.types.Mailbox.{Mailbox};
ghost use Rattle.dv_model.specs.Fresh.{IsTouched};
ghost use Rattle.dv_apply.specs.Preparing.{IsPrepared, Makes, PutsShare, appended_by, part_of};
ghost use Rattle.dv_ext.specs.Sizes.{have_sizes};
ghost use Rattle.dv_apply.specs.States.{IsKept, held_of, mailbox_of};

use crate::light::apply_light;
use crate::share::{Light, Made, Way};
use crate::state::State;
use dv_ext::have_sizes;
use dv_model::{Bytes, List};
use dv_touched::Touched;

// The spare rows that are left, and their zero bytes where these are the same.
fn left(blanks: &mut Vec<List<Bytes>>, spare: u32, appended: u32, same: bool) -> u32
    requires { appended ≤ spare }
    ensures spare { result ≡ (if same then spare - appended else 0) }
    ensures blanks { blanks.new.items ≡ (if same then blanks.old.items else []) }
{
    if same {
        return spare - appended;
    }
    blanks.clear();
    0
}

// Puts a share in the place of the rows that it was made of.
fn put_share(state: &mut State, made: Made) -> Touched
    requires kept { IsKept state.old }
    requires prepared { (after : Mailbox) × PutsShare (held_of state.old) (part_of made) after }
    ensures kept { IsKept state.new }
    ensures is { (after : Mailbox) → PutsShare (held_of state.old) (part_of made) after →
        mailbox_of state.new ≡ after }
    ensures touched { (uid : ℕ) →
        Contains result uid ↔ IsTouched (mailbox_of state.old) (mailbox_of state.new) uid }
    ensures spare { state.new.spare
        ≡ (if have_sizes state.old.extensions.extensions state.new.extensions.extensions
        then state.old.spare - made.appended else 0) }
{
    let Made {
        uids,
        share,
        appended,
        touched,
    } = made;
    let same = have_sizes(
        state.extensions.list().as_slice(),
        share.extensions.list().as_slice(),
    );
    state.rows.put_part(&uids, state.next_uid, share.rows);
    state.names.show(share.names);
    state.extensions = share.extensions;
    state.uid_validity = share.uid_validity;
    state.next_uid = share.next_uid;
    state.highest = share.highest;
    state.spare = left(&mut state.blanks, state.spare, appended, same);
    touched
}

/// Shows what is made ready, without memory.
pub fn complete(state: &mut State, way: Way) -> Touched
    requires kept { IsKept state.old }
    requires prepared { IsPrepared (held_of state.old) way }
    ensures kept { IsKept state.new }
    ensures is { (after : Mailbox) → Makes (held_of state.old) way after →
        mailbox_of state.new ≡ after }
    ensures touched { (uid : ℕ) →
        Contains result uid ↔ IsTouched (mailbox_of state.old) (mailbox_of state.new) uid }
    ensures spare { state.new.spare
        ≡ (if have_sizes state.old.extensions.extensions state.new.extensions.extensions
        then state.old.spare - appended_by way else 0) }
{
    match way {
        Way::Share(made) => put_share(state, made),
        Way::Records(light) => {
            let Light { records, touched } = light;
            apply_light(state, records.as_slice());
            touched
        }
    }
}
