//! Holds of the lock are counted.

ghost use Rattle.std.specs.Prelude.{◌≡◌};
ghost use Rattle.dv_member.specs.Calls.{counted};
ghost use Rattle.dv_member.specs.Members.{IsSession};

use dv_member::Session;
use dv_naming::{Keeping, Tally};

/// Counts that a session caught up in a hold of the lock. What is so of each session is known then.
pub(crate) fn end_hold<K: Keeping, L: Tally, M: Tally>(s: &mut Session<K, L, M>)
    ensures counted { s.new ≡ record s.old { holds = counted s.old.holds } }
    ensures session { IsSession K.start K.count s.new }
{
    s.count_hold();
    s.number();
}
