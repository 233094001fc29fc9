//! The sessions, one beside another.

ghost use Rattle.std.specs.Prelude.{◌≡◌, All, IfOk, OnOk, length, replicate};
ghost use Rattle.dv_model.specs.declared.types.Mailbox.{Mailbox};
ghost use Rattle.dv_answer.specs.Following.{IsAbreast, Leads, new_follower};
ghost use Rattle.dv_serial.specs.Following.{HasStates};

use dv_answer::Session;
use dv_model::{List, NoMemory};
use dv_touched::Touched;
use std::alloc::Global;

/// So many sessions that haven't selected the mailbox. `NoMemory` is the only error.
pub fn new_seats(alloc: Global, count: u32) -> Result<List<Session>, NoMemory>
    ensures { IfOk result (λ seats. seats ≡ replicate count new_follower) }
{
    let mut seats = List::new(alloc);
    for _ in 0..count {
        seats.push(Session::new(alloc))?;
    }
    Ok(seats)
}

/// Tells every session that these UIDs were touched. After `NoMemory`, which is the only error,
/// some are told, and all have their states.
pub fn tell_all(seats: &mut [Session], touched: &Touched) -> Result<(), NoMemory>
    ensures states { HasStates seats.old seats.new }
    ensures abreast { OnOk result ((old new : Mailbox) → All (IsAbreast old) seats.old
        → Leads old new touched.now → All (IsAbreast new) seats.new) }
{
    for seat in seats.iter_mut() {
        seat.touch(touched)?;
    }
    Ok(())
}
