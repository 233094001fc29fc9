ghost use Rattle.std.specs.Prelude.{◌≡◌, ◌≤◌, ◌++◌, All, IfOk, Some, length, take};
ghost use Rattle.std.specs.List.Sorted.{IsStrictlyIncreasing};
ghost use Rattle.dv_model.specs.Effects.{applied};
ghost use Rattle.dv_model.specs.Spelling.{IsRecord};
ghost use Rattle.dv_portion.specs.Portions.{portion};
ghost use Rattle.dv_rows.specs.Parted.{is_parted};
ghost use Rattle.dv_validity.specs.Laws.{IsInRange};
ghost use Rattle.dv_apply.specs.Answers.{OnBadAppend};
ghost use Rattle.dv_apply.specs.Preparing.{IsRefused, alone};
ghost use Rattle.dv_apply.specs.States.{IsKept, kept_of, mailbox_of};

use crate::each::apply_each;
use crate::fault::ApplyFault;
use crate::share::Share;
use crate::state::State;
use dv_keywords::Table;
use dv_model::{Duplicate, Record};
use std::mem;

/// Applies records to copies of the rows with these UIDs. The mailbox stays as it is; the memory of
/// new keyword names is kept in its table.
pub fn apply_apart(state: &mut State, uids: &[u32], records: &[Record]) -> Result<Share, ApplyFault>
    requires kept { IsKept state.old }
    requires rising { IsStrictlyIncreasing uids.now }
    requires records { All IsRecord records.now }
    ensures is { kept_of state.new ≡ kept_of state.old }
    ensures kept { IsKept state.new }
    ensures names { IfOk result (λ share. share.names ≤ length state.new.names.kept) }
    ensures ok { IfOk result (λ share.
        applied
        (portion (is_parted uids.now state.old.next_uid) (mailbox_of state.old)) records.now
        ≡ Some
        (alone (state.new.names.names ++ take share.names state.new.names.kept) share)) }
    ensures range { IfOk result (λ share. All (λ r. IsInRange r.body) records.now) }
    ensures bad { OnBadAppend result (IsRefused
        (portion (is_parted uids.now state.old.next_uid) (mailbox_of state.old)) records.now) }
{
    let rows = state.rows.part(state.alloc, uids)?;
    let extensions = state.extensions.duplicate(state.alloc)?;
    let count = state.names.count();
    let mut apart = State {
        alloc: state.alloc,
        uid_validity: state.uid_validity,
        next_uid: state.next_uid,
        rows,
        names: mem::replace(&mut state.names, Table::empty(state.alloc)),
        extensions,
        highest: state.highest,
        blanks: Vec::new(state.alloc),
        spare: 0,
    };
    let done = apply_each(&mut apart, records);
    let State {
        rows,
        names,
        extensions,
        uid_validity,
        next_uid,
        highest,
        ..
    } = apart;
    state.names = names;
    let added = state.names.count() - count;
    state.names.hide(count);
    match done {
        Ok(()) => Ok(Share {
            rows,
            names: added,
            extensions,
            uid_validity,
            next_uid,
            highest,
        }),
        Err(e) => Err(e),
    }
}
