ghost use Rattle.std.specs.Prelude.{◌≡◌};
ghost use Rattle.dv_interleavings.specs.Worlds.{happens};
ghost use Rattle.dv_interleavings.specs.Worlds as happening;
ghost use Rattle.dv_world.specs.Keeping.{IsKept};
ghost use Rattle.dv_world.specs.Shapes.{kept_world};

use crate::kept::Kept;

/// The pending entry, where there is one, is taken back.
pub fn heal(kept: &mut Kept)
    requires { IsKept kept.old }
    ensures ok { kept_world kept.new ≡ happens (kept_world kept.old) (happening.Heal) }
    ensures kept { IsKept kept.new }
{
    kept.pending = None;
}
