ghost use Rattle.std.specs.Prelude.{◌≡◌, OnErr, OnOk};
ghost use Rattle.dv_interleavings.specs.Worlds.{happens};
ghost use Rattle.dv_interleavings.specs.Worlds as happening;
ghost use Rattle.dv_world.specs.Keeping.{IsKept};
ghost use Rattle.dv_world.specs.Shapes.{kept_world, plain_of};

use crate::kept::{Kept, Seat};
use crate::seats::place_of;
use dv_answer::Session;
use dv_model::NoMemory;

/// A session begins where the log was published, unless there is one with its number. After
/// `NoMemory`, which is the only error, all is as before.
pub fn open(kept: &mut Kept, number: u32) -> Result<(), NoMemory>
    requires { IsKept kept.old }
    ensures ok { OnOk result (kept_world kept.new ≡ happens (kept_world kept.old)
        (happening.Open number)) }
    ensures kept { IsKept kept.new }
    ensures err { OnErr result (plain_of kept.new ≡ plain_of kept.old) }
{
    if place_of(&kept.seats, number).is_some() {
        return Ok(());
    }
    let live = kept.front.copy(kept.alloc)?;
    kept.seats.push(Seat {
        number,
        session: Session::new(kept.alloc),
        told: kept.published,
        seen: kept.published,
        live,
        wrote: None,
        answers: Vec::new(kept.alloc),
    })?;
    Ok(())
}
