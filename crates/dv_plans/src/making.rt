//! What a command writes is made ready over a store's chain.

ghost use Rattle.std.specs.Prelude.{◌≡◌};
ghost use Rattle.dv_model.specs.Sessions.{IsCommand};
ghost use Rattle.dv_chain.specs.Openings.{OnlyLooks};
ghost use Rattle.dv_writing.specs.Opening.{AreEqual};
ghost use Rattle.dv_groups.specs.Changes.{changed_uids};
ghost use Rattle.dv_groups.specs.Groups.{HasFewKeywords};
ghost use Rattle.dv_writing.specs.Repairing.{IsOwing};
ghost use Rattle.dv_plans.specs.Befores.{ReadsFor};
ghost use Rattle.dv_plans.specs.Begins.{AtReading, TakesReadings, readings_of, received_at, turns};
ghost use Rattle.dv_plans.specs.Counts.{CountsPlanned};
ghost use Rattle.dv_plans.specs.Faults.{HasStoreCause};
ghost use Rattle.dv_plans.specs.Limits.{WhereDecided};
ghost use Rattle.dv_plans.specs.Overs.{DecidesOver};
ghost use Rattle.dv_plans.specs.Plans.{IsPlanOf, OnPlan, PlansAt, TurnsAt};

use crate::StoreFault;
use crate::changes::find_changes;
use crate::fault::chain_fault;
use crate::plan::{Plan, make_plan};
use dv_chain::Chain;
use dv_files::Turn;
use dv_model::Command;
use dv_shelf::{Clock, Shelf};
use dv_view::View;
use std::alloc::Global;

/// The plan of what a command writes over a chain that owes at most this turn, from the view of its
/// session; `None` where the command's group has no record. `UidsUsedUp` and `TooLong` come exactly
/// where the command meets that limit first (RFC 5530, LIMIT), `Disk` only where a read or the
/// listing failed. The clock is read once where the log is rotated, and then once for the message
/// of an APPEND. Message files are read by rising UID: of messages that are removed, for their
/// GUIDs, and for a CHECK of the rows that the cache file lacks; then the log, where it is rotated;
/// then a CHECK lists the folder. All memory that the write needs is taken here, and nothing is
/// written.
pub fn make_ready<S: Shelf, C: Clock>(
    alloc: Global,
    c: &Command,
    view: &View,
    chain: &mut Chain,
    owed: &Option<Turn>,
    shelf: &mut S,
    clock: &mut C,
) -> Result<Option<Plan>, StoreFault>
    requires command { IsCommand c.now }
    requires few { HasFewKeywords c.now }
    requires owing { IsOwing chain.old owed.now }
    // The chain stays, but for spare rows.
    ensures chain { AreEqual chain.new chain.old }
    // The limit that is met, and whether there is a group; where a limit is met or there is none,
    // neither shelf nor clock is called.
    ensures decides { DecidesOver c.now view.now chain.old result }
    ensures untouched { WhereDecided result
        ((shelf.new ≡ shelf.old) × (clock.new ≡ clock.old)) }
    // The group, its text and the steps, over any shelf; what they are by the folder and the time.
    ensures steps { OnPlan result (IsPlanOf c.now view.now owed.now chain.new) }
    ensures write { S.sees.tells → OnPlan result (λ plan. AtReading C.sees.tells
        (received_at (turns owed.now chain.old) (C.sees.upcoming clock.old))
        (PlansAt c.now view.now owed.now chain.old chain.new (S.sees.files shelf.old)
        (S.sees.files shelf.new) plan)) }
    // Nothing is changed.
    ensures looks { S.sees.tells →
        OnlyLooks S.sees shelf.old shelf.new }
    // The readings of the clock, of which the first is that of a rotation; each of these message
    // files is read once, by a CHECK at most those that the cache file lacks; a fault has its
    // cause.
    ensures clock { C.sees.tells → TakesReadings (readings_of c.now owed.now chain.old)
        (C.sees.upcoming clock.old) (C.sees.upcoming clock.new) result
        × OnPlan result (TurnsAt chain.old (C.sees.upcoming clock.old 0)) }
    ensures mail_reads { ReadsFor S.sees c.now chain.old
        (changed_uids c.now view.now chain.old.live.mailbox) shelf.old shelf.new
        (λ n before now. CountsPlanned n before now result) }
    ensures cause { HasStoreCause (S.sees.fault_count shelf.old) (S.sees.fault_count shelf.new)
        result }
{
    let found = find_changes(alloc, c, view, chain)?;
    let uids = match found {
        Some(uids) => uids,
        None => return Ok(None),
    };
    match make_plan(alloc, c, view, uids.as_slice(), chain, owed, shelf, clock) {
        Ok(plan) => Ok(Some(plan)),
        Err(fault) => Err(chain_fault(fault)),
    }
}
