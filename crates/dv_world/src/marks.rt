ghost use Rattle.std.specs.Prelude.{◌≡◌, ◌≤◌, length};
ghost use Rattle.dv_model.specs.Journals.{mark_of};
ghost use Rattle.dv_world.specs.Keeping.{IsKept, kept_log};

use crate::kept::Kept;
use dv_model::Mark;

/// The place behind the first entries.
pub fn mark_of(kept: &Kept, count: usize) -> Mark
    requires kept { IsKept kept.now }
    requires there { count ≤ length kept.now.logged.items }
    ensures { result ≡ mark_of (kept_log kept.now) count }
{
    if count == 0 {
        return kept.start_mark;
    }
    kept.logged[count - 1].behind
}
