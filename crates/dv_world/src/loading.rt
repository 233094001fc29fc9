ghost use Rattle.std.specs.Prelude.{◌≡◌, ◌+◌, OnErr, OnOk, Some, length, option_map};
ghost use Rattle.dv_model.specs.Journals.{IsSound, Log, at};
ghost use Rattle.dv_answer.specs.Following.{IsAbreast};
ghost use Rattle.dv_interleavings.specs.Worlds.{happens, loaded_number};
ghost use Rattle.dv_interleavings.specs.Worlds as happening;
ghost use Rattle.dv_world.specs.Keeping.{AreLogged, IsKept, IsSeat};
ghost use Rattle.dv_world.specs.Shapes.{kept_world, plain_of, seated, wrote_of};

use crate::between::{ready, records_of, touched_by};
use crate::kept::{Kept, Logged, Seat};
use crate::seats::place_of;
use dv_model::NoMemory;
use std::alloc::Global;

// The session sees these entries too, of which its mailbox hasn't heard.
fn see(alloc: Global, seat: &mut Seat, logged: &[Logged]) -> Result<(), NoMemory>
    requires { (log : Log) × IsSound log × IsSeat log seat.old
        × AreLogged log seat.old.seen logged.now }
    ensures live { (log : Log) → IsSound log → IsSeat log seat.old
        → AreLogged log seat.old.seen logged.now
        → OnOk result (at log (seat.old.seen + length logged.now) ≡ Some seat.new.live.mailbox
        × IsAbreast seat.new.live.mailbox seat.new.session) }
    ensures same { seated seat.new ≡ seated seat.old }
    ensures wrote { seat.new.wrote ≡ seat.old.wrote }
    ensures err { OnErr result (seat.new.live.mailbox ≡ seat.old.live.mailbox
        × seat.new.session ≡ seat.old.session) }
{
    let records = records_of(alloc, logged)?;
    let touched = touched_by(alloc, logged)?;
    let prepared = ready(&mut seat.live, &records)?;
    seat.session.touch(&touched)?;
    seat.live.complete(prepared);
    Ok(())
}

// How many entries the session may see: all that are published, but not past its own write.
fn number_of(seat: &Seat, published: usize) -> usize
    ensures { result ≡ loaded_number published (option_map wrote_of seat.now.wrote) }
{
    match &seat.wrote {
        Some(wrote) => published.min(wrote.place),
        None => published,
    }
}

/// A session sees the entries that it may see. After `NoMemory`, which is the only error, all is as
/// before.
pub fn load(kept: &mut Kept, number: u32) -> Result<(), NoMemory>
    requires { IsKept kept.old }
    ensures ok { OnOk result (kept_world kept.new ≡ happens (kept_world kept.old)
        (happening.Load number)) }
    ensures kept { IsKept kept.new }
    ensures err { OnErr result (plain_of kept.new ≡ plain_of kept.old) }
{
    let Some(at) = place_of(&kept.seats, number) else {
        return Ok(());
    };
    let seen = number_of(&kept.seats[at], kept.published);
    let (first, _) = kept.logged.split_at(seen);
    let (_, between) = first.split_at(kept.seats[at].seen);
    let seat = &mut kept.seats[at];
    see(kept.alloc, seat, between)?;
    seat.seen = seen;
    Ok(())
}
