//! The plan of a write: all of it, before anything is written.

ghost use Rattle.std.specs.Prelude.{◌≡◌, IfOk};
ghost use Rattle.dv_model.specs.Sessions.{IsCommand};
ghost use Rattle.dv_shelf.specs.Clocks.{behind};
ghost use Rattle.dv_chain.specs.Openings.{OnlyLooks};
ghost use Rattle.dv_writing.specs.Opening.{AreEqual};
ghost use Rattle.dv_groups.specs.Changes.{changed_uids};
ghost use Rattle.dv_writing.specs.Repairing.{IsOwing};
ghost use Rattle.dv_files.specs.Leavings.{HasFaultCause};
ghost use Rattle.dv_plans.specs.Befores.{ReadsFor};
ghost use Rattle.dv_plans.specs.Begins.{AtReading, readings_of, received_at, turns};
ghost use Rattle.dv_plans.specs.Counts.{CountsMails};
ghost use Rattle.dv_plans.specs.Overs.{IsWrittenOver};
ghost use Rattle.dv_plans.specs.Plans.{IsPlanOf, PlansAt, TurnsAt};

use crate::before::read_before;
use crate::bounds::have_bounds;
use crate::groups::write_group;
use crate::times::{is_turn_due, read_times};
use dv_chain::Chain;
use dv_files::{ChainFault, Turn};
use dv_model::{Bytes, Command, Group};
use dv_responses::is_append;
use dv_shelf::{Clock, Shelf};
use dv_view::View;
use dv_writing::Steps;
use std::alloc::Global;

/// What a command writes, made ready.
#[derive(Drop)]
pub struct Plan {
    /// The records.
    pub group: Group,
    /// Their text, and four zero bytes, as a commit takes it.
    pub text: Bytes,
    /// What is done behind what is owed.
    pub steps: Steps,
    /// When the message came, where one is appended, in seconds since 1970; else 0.
    pub received: u32,
}

/// The plan of a command that writes something and meets no limit, where the messages that it
/// changes were found before. Reads the clock, then the files, and takes all memory.
pub fn make_plan<S: Shelf, C: Clock>(
    alloc: Global,
    c: &Command,
    view: &View,
    uids: &[u32],
    chain: &mut Chain,
    owed: &Option<Turn>,
    shelf: &mut S,
    clock: &mut C,
) -> Result<Plan, ChainFault>
    requires command { IsCommand c.now }
    requires owing { IsOwing chain.old owed.now }
    requires found { uids.now ≡ changed_uids c.now view.now chain.old.live.mailbox }
    requires written { IsWrittenOver c.now view.now chain.old }
    // The chain stays, but for spare rows.
    ensures chain { AreEqual chain.new chain.old }
    // The group, its text and the steps, over any shelf; what they are by the folder and the time.
    ensures steps { IfOk result (IsPlanOf c.now view.now owed.now chain.new) }
    ensures write { S.sees.tells → IfOk result (λ plan. AtReading C.sees.tells
        (received_at (turns owed.now chain.old) (C.sees.upcoming clock.old))
        (PlansAt c.now view.now owed.now chain.old chain.new (S.sees.files shelf.old)
        (S.sees.files shelf.new) plan)) }
    // Nothing is changed.
    ensures looks { S.sees.tells →
        OnlyLooks S.sees shelf.old shelf.new }
    // The readings of the clock, of which the first is that of a rotation; each of these message
    // files is read once, by a CHECK at most those that the cache file lacks; a fault has its
    // cause.
    ensures clock { C.sees.tells → (C.sees.upcoming clock.new
        ≡ behind (C.sees.upcoming clock.old) (readings_of c.now owed.now chain.old))
        × IfOk result (TurnsAt chain.old (C.sees.upcoming clock.old 0)) }
    ensures mail_reads { ReadsFor S.sees c.now chain.old uids.now shelf.old shelf.new
        (λ n before now. CountsMails n before now result) }
    ensures cause { HasFaultCause (S.sees.fault_count shelf.old) (S.sees.fault_count shelf.new)
        result }
{
    have_bounds(view, &chain.live);
    let times = read_times(clock, is_turn_due(chain, owed), is_append(c));
    let before = read_before(alloc, c, uids, chain, owed, times, shelf)?;
    let written = write_group(alloc, c, &mut chain.live, uids, before.guids.as_slice())?;
    Ok(Plan {
        group: written.group,
        text: written.text,
        steps: Steps {
            turn: before.turn,
            files: before.files,
            prepared: written.prepared,
        },
        received: times.received,
    })
}
