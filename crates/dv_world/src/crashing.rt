ghost use Rattle.std.specs.Prelude.{◌≡◌, ◌+◌, OnErr, OnOk, length};
ghost use Rattle.dv_interleavings.specs.Worlds.{happens};
ghost use Rattle.dv_interleavings.specs.Worlds as happening;
ghost use Rattle.dv_world.specs.Adding.{Leaves};
ghost use Rattle.dv_world.specs.Keeping.{IsKept};
ghost use Rattle.dv_world.specs.Shapes.{kept_world, plain_of};

use crate::between::ready;
use crate::kept::Kept;
use crate::syncing::add_entry;
use dv_apply::Live;
use dv_model::NoMemory;

// The log alone stays, all published, and this is its mailbox.
fn leave_log(kept: &mut Kept, front: Live)
    ensures { Leaves kept.old kept.new front }
{
    kept.front = front;
    kept.published = kept.logged.len();
    kept.pending = None;
    kept.seats.truncate(0);
}

// The pending entry, where there is one, is durable too.
fn crash_with_pending(kept: &mut Kept) -> Result<(), NoMemory>
    requires { IsKept kept.old }
    ensures ok { OnOk result (kept_world kept.new ≡ happens (kept_world kept.old)
        (happening.Crash (length kept.old.logged.items + 1))) }
    ensures kept { IsKept kept.new }
    ensures err { OnErr result (plain_of kept.new ≡ plain_of kept.old) }
{
    let Some(p) = &kept.pending else {
        return Ok(());
    };
    let mut front = kept.end.copy(kept.alloc)?;
    let prepared = ready(&mut front, p.group.records.as_slice())?;
    add_entry(kept)?;
    front.complete(prepared);
    leave_log(kept, front);
    Ok(())
}

/// The program ends with so many entries: all that are durable, or the pending one too. After
/// `NoMemory`, which is the only error, all is as before.
pub fn crash(kept: &mut Kept, count: u32) -> Result<(), NoMemory>
    requires { IsKept kept.old }
    ensures ok { OnOk result (kept_world kept.new ≡ happens (kept_world kept.old)
        (happening.Crash count)) }
    ensures kept { IsKept kept.new }
    ensures err { OnErr result (plain_of kept.new ≡ plain_of kept.old) }
{
    let count = count as usize;
    if count == kept.logged.len() {
        let front = kept.end.copy(kept.alloc)?;
        leave_log(kept, front);
        return Ok(());
    }
    if count == kept.logged.len() + 1 {
        return crash_with_pending(kept);
    }
    Ok(())
}
