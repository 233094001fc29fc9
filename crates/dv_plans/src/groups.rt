//! The group of a write, its text, and the mailbox with it.

ghost use Rattle.std.specs.Prelude.{◌≡◌, All, IfOk, IsSome, IsSomeAnd, List as Listed, ℕ};
ghost use Rattle.dv_model.specs.Effects.{applied};
ghost use Rattle.dv_model.specs.Sessions.{group_of};
ghost use Rattle.dv_model.specs.Spelling.{IsRecord};
ghost use Rattle.dv_model.specs.Views.{View as Shown};
ghost use Rattle.dv_apply.specs.Preparing.{Makes};
ghost use Rattle.dv_groups.specs.Changes.{changed_uids, expunged_uids, guid_rows};
ghost use Rattle.dv_plans.specs.Groups.{AreFound, IsGroupReady};

use dv_apply::{ApplyFault, Live, Prepared};
use dv_groups::group_from;
use dv_logfile::group_text;
use dv_model::{Bytes, Command, Group, GuidRow, NoMemory};
use std::alloc::Global;

/// A group that is ready to be written.
#[derive(Drop)]
pub struct Written {
    pub group: Group,
    /// The text of its records, and four zero bytes.
    pub text: Bytes,
    /// The mailbox with it.
    pub prepared: Prepared,
}

/// The mailbox with the records of a group. `NoMemory` is the only error, since they apply to it.
fn prepare(live: &mut Live, group: &Group) -> Result<Prepared, NoMemory>
    requires records { All IsRecord group.now.records }
    requires applies { IsSome (applied live.old.mailbox group.now.records) }
    ensures mailbox { live.new.mailbox ≡ live.old.mailbox }
    ensures ok { IfOk result (λ prepared.
        IsSomeAnd (applied live.new.mailbox group.now.records) (Makes live.new prepared)) }
{
    match live.prepare(group.records.as_slice()) {
        Ok(prepared) => Ok(prepared),
        Err(ApplyFault::NoMemory) => Err(NoMemory),
        Err(ApplyFault::BadAppend { .. }) => unreachable!(),
    }
}

/// The group of a command that writes something and meets no limit, where the messages that it
/// changes were found before, and for those that it removes their GUIDs. Takes all memory that the
/// records need; the mailbox stays as it is. `NoMemory` is the only error.
pub fn write_group(
    alloc: Global,
    c: &Command,
    live: &mut Live,
    uids: &[u32],
    guids: &[GuidRow],
) -> Result<Written, NoMemory>
    requires { AreFound c.now live.old.mailbox uids.now guids.now }
    ensures mailbox { live.new.mailbox ≡ live.old.mailbox }
    ensures group { (view : Shown) (guid : ℕ → Listed ℕ)
        → uids.now ≡ changed_uids c.now view live.old.mailbox
        → guids.now ≡ guid_rows guid (expunged_uids c.now view live.old.mailbox)
        → IfOk result (λ written. written.group ≡ group_of c.now view live.old.mailbox guid) }
    ensures ready { IfOk result (IsGroupReady live.new) }
{
    let group = group_from(alloc, c, live, uids, guids)?;
    let prepared = prepare(live, &group)?;
    let text = group_text(alloc, &group)?;
    Ok(Written {
        group,
        text,
        prepared,
    })
}
