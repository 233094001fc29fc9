ghost use Rattle.std.specs.Prelude.{◌≡◌, OnErr, OnOk};
ghost use Rattle.dv_interleavings.specs.Worlds.{happens};
ghost use Rattle.dv_interleavings.specs.Worlds as happening;
ghost use Rattle.dv_world.specs.Keeping.{IsKept};
ghost use Rattle.dv_world.specs.Shapes.{kept_world, plain_of};

use crate::between::{ready, records_of};
use crate::kept::Kept;
use dv_model::NoMemory;

/// All entries are published. After `NoMemory`, which is the only error, all is as before.
pub fn publish(kept: &mut Kept) -> Result<(), NoMemory>
    requires { IsKept kept.old }
    ensures ok { OnOk result (kept_world kept.new ≡ happens (kept_world kept.old)
        (happening.Publish)) }
    ensures kept { IsKept kept.new }
    ensures err { OnErr result (plain_of kept.new ≡ plain_of kept.old) }
{
    let (_, behind) = kept.logged.split_at(kept.published);
    let records = records_of(kept.alloc, behind)?;
    let prepared = ready(&mut kept.front, &records)?;
    kept.front.complete(prepared);
    kept.published = kept.logged.len();
    Ok(())
}
