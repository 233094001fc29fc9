ghost use Rattle.std.specs.Prelude.{◌≡◌, IfOk, OnErr, OnOk, None, map, option_map};
ghost use Rattle.dv_model.specs.declared.types.Mailbox.{Mailbox};
ghost use Rattle.dv_model.specs.Sessions.{answer};
ghost use Rattle.dv_responses.specs.Depth.{IsShallow};
ghost use Rattle.dv_responses.specs.Met.{met_of};
ghost use Rattle.dv_answer.specs.Following.{IsAbreast};
ghost use Rattle.dv_answer.specs.Refusing.{own_refusal};
ghost use Rattle.dv_interleavings.specs.Worlds.{happens, mail_of};
ghost use Rattle.dv_interleavings.specs.Worlds as happening;
ghost use Rattle.dv_world.specs.Keeping.{IsKept};
ghost use Rattle.dv_world.specs.Shapes.{kept_world, plain_of, seated, session_of, state_of, stored_of};
ghost use Rattle.dv_world.specs.Telling.{answered, own_stopped, taken_by};

use crate::facts::facts_for;
use crate::kept::{Kept, Pending, Seat, Stored};
use crate::marks::mark_of;
use crate::same::same_write;
use crate::seats::place_of;
use dv_model::{Command, Duplicate, List, Mark, NoMemory};
use dv_responses::{Met, is_write, meet};
use std::alloc::Global;

// What the command took from the mailbox that it met, where it may be answered now.
fn taken_by(alloc: Global, seat: &Seat, c: &Command) -> Result<Option<Met>, NoMemory>
    ensures { IfOk result (λ taken. taken ≡ taken_by seat.now c.now) }
{
    match &seat.wrote {
        Some(wrote) => {
            if !same_write(&wrote.command, c) || wrote.place > seat.seen {
                return Ok(None);
            }
            Ok(Some(Met {
                appended: wrote.taken.appended,
                modified: wrote.taken.modified.duplicate(alloc)?,
            }))
        }
        None => {
            if is_write(c) {
                return Ok(None);
            }
            Ok(Some(meet(alloc, c, seat.session.view(), &seat.live)?))
        }
    }
}

// The session is answered at what it has seen, which ends at this mark.
fn answer(
    alloc: Global,
    seat: &mut Seat,
    c: &Command,
    taken: Met,
    mark: Mark,
    stored: &[Stored],
) -> Result<(), NoMemory>
    requires shallow { IsShallow c.now }
    requires allowed { own_refusal seat.old.session.state c.now ≡ None }
    requires abreast { IsAbreast seat.old.live.mailbox seat.old.session }
    ensures ok { (met : Mailbox) → taken ≡ met_of c.now seat.old.session.state.view met
        → OnOk result (seated seat.new ≡ (
          seat.old.number,
          answered (session_of seat.old) c.now
              (answer (mail_of (map stored_of stored.now)) (state_of seat.old) c.now met
              seat.old.seen seat.old.live.mailbox mark),
        )) }
    ensures live { seat.new.live ≡ seat.old.live }
    ensures abreast { IsAbreast seat.new.live.mailbox seat.new.session }
    ensures wrote { OnOk result (seat.new.wrote ≡ None) }
    ensures err { OnErr result ((seated seat.new ≡ seated seat.old)
        × (seat.new.session ≡ seat.old.session) × (seat.new.wrote ≡ seat.old.wrote)) }
{
    let facts = facts_for(alloc, c, seat.session.view(), &seat.live, stored)?;
    let command = c.copy(alloc)?;
    seat.answers.reserve(1)?;
    let told = seat.seen as u64;
    let mut replies = List::new(alloc);
    seat.session
        .answer(c, &seat.live, &facts, taken, mark, told, &mut replies)?;
    seat.answers.push((command, replies))?;
    seat.told = seat.seen;
    seat.wrote = None;
    Ok(())
}

// A pending entry of the session no longer runs.
fn stop_own(pending: &mut Option<Pending>, number: u32)
    ensures { pending.new ≡ option_map (own_stopped number) pending.old }
{
    if let Some(p) = pending {
        if p.author == number {
            p.running = false;
        }
    }
}

/// A session is answered, where it may be. After `NoMemory`, which is the only error, all is as
/// before.
pub fn tell(kept: &mut Kept, number: u32, c: &Command) -> Result<(), NoMemory>
    requires kept { IsKept kept.old }
    requires shallow { IsShallow c.now }
    ensures ok { OnOk result (kept_world kept.new ≡ happens (kept_world kept.old)
        (happening.Tell number c.now)) }
    ensures kept { IsKept kept.new }
    ensures err { OnErr result (plain_of kept.new ≡ plain_of kept.old) }
{
    let Some(at) = place_of(&kept.seats, number) else {
        return Ok(());
    };
    let seat = &kept.seats[at];
    if seat.session.refuse(c).is_some() {
        return Ok(());
    }
    let Some(taken) = taken_by(kept.alloc, seat, c)? else {
        return Ok(());
    };
    let seen = seat.seen;
    let mark = mark_of(kept, seen);
    let seat = &mut kept.seats[at];
    answer(kept.alloc, seat, c, taken, mark, &kept.stored)?;
    stop_own(&mut kept.pending, number);
    Ok(())
}
