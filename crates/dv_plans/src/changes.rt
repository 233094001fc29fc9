//! What a command changes, and whether it writes anything.

ghost use Rattle.std.specs.Prelude.{◌≡◌, IfOk, IfSome, List as Listed, length, ℕ};
ghost use Rattle.dv_model.specs.Sessions.{IsCommand};
ghost use Rattle.dv_chain.specs.Openings.{OnlyLooks};
ghost use Rattle.dv_groups.specs.Changes.{changed_uids, expunged_uids};
ghost use Rattle.dv_groups.specs.Groups.{HasFewKeywords, HasSizes};
ghost use Rattle.dv_files.specs.Reading.{guid_at};
ghost use Rattle.dv_plans.specs.Counts.{CountsMails};
ghost use Rattle.dv_plans.specs.Faults.{HasStoreCause, OnDisk};
ghost use Rattle.dv_plans.specs.Groups.{IsGroupOf};
ghost use Rattle.dv_plans.specs.Limits.{MeetsLimit};
ghost use Rattle.dv_plans.specs.Overs.{DecidesOver, group_over, limit_over};

use crate::StoreFault;
use crate::bounds::have_bounds;
use crate::fault::{chain_fault, limit_fault};
use crate::guids::removed_guids;
use crate::limits::{is_empty, limit_met};
use crate::places::place_of;
use dv_chain::Chain;
use dv_groups::{changed_uids, group_from};
use dv_model::{Command, Group, List};
use dv_shelf::Shelf;
use dv_view::View;
use std::alloc::Global;

/// The messages that a command changes or removes, by rising UID; `None` where it writes nothing.
/// A limit that the command meets comes first. No file is read.
pub fn find_changes(
    alloc: Global,
    c: &Command,
    view: &View,
    chain: &Chain,
) -> Result<Option<List<u32>>, StoreFault>
    requires command { IsCommand c.now }
    requires few { HasFewKeywords c.now }
    ensures uids { IfOk result (λ found. IfSome found
        (λ uids. uids ≡ changed_uids c.now view.now chain.now.live.mailbox)) }
    ensures decides { DecidesOver c.now view.now chain.now result }
    ensures disk { OnDisk result (λ _. ⊥) }
{
    let live = &chain.live;
    have_bounds(view, live);
    let uids = changed_uids(alloc, c, view, live)?;
    if let Some(limit) = limit_met(c, live, uids.as_slice(), place_of(chain)) {
        return Err(limit_fault(limit));
    }
    if is_empty(c, live, uids.as_slice()) {
        return Ok(None);
    }
    Ok(Some(uids))
}

/// The group that a command writes over a chain's mailbox, from the view of its session. The GUIDs
/// of the messages that it removes are those of their message files, sixteen zero bytes where one
/// is damaged or has none. Reads each of these files once, by rising UID, and writes nothing. A
/// limit that the command meets comes first.
pub fn plan_group<S: Shelf>(
    alloc: Global,
    c: &Command,
    view: &View,
    chain: &Chain,
    shelf: &mut S,
) -> Result<Group, StoreFault>
    requires command { IsCommand c.now }
    requires few { HasFewKeywords c.now }
    // The limit that is met.
    ensures limit { (guid : ℕ → Listed ℕ) → HasSizes guid →
        MeetsLimit (limit_over c.now view.now chain.now guid) result }
    // The group, over any shelf with some GUIDs.
    ensures group { IfOk result (IsGroupOf c.now view.now chain.now.live.mailbox) }
    ensures read { S.sees.tells → IfOk result (λ group. group
        ≡ group_over c.now view.now chain.now (guid_at (S.sees.files shelf.old))) }
    // Nothing is changed.
    ensures looks { S.sees.tells →
        OnlyLooks S.sees shelf.old shelf.new }
    // Each of these message files is read once; a fault of the disk has its cause.
    ensures mail_reads { CountsMails
        (length (expunged_uids c.now view.now chain.now.live.mailbox))
        (S.sees.mail_reads shelf.old) (S.sees.mail_reads shelf.new) result }
    ensures cause { HasStoreCause (S.sees.fault_count shelf.old) (S.sees.fault_count shelf.new)
        result }
{
    let live = &chain.live;
    have_bounds(view, live);
    let uids = changed_uids(alloc, c, view, live)?;
    if let Some(limit) = limit_met(c, live, uids.as_slice(), place_of(chain)) {
        return Err(limit_fault(limit));
    }
    let rows = match removed_guids(alloc, c, uids.as_slice(), shelf) {
        Ok(rows) => rows,
        Err(fault) => return Err(chain_fault(fault)),
    };
    let group = group_from(alloc, c, live, uids.as_slice(), rows.as_slice())?;
    Ok(group)
}
