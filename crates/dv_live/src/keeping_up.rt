ghost use Rattle.std.specs.Prelude.{◌≡◌, OnErr, OnOk};
ghost use Rattle.dv_live.specs.Laws.{Became, IsOf};

use crate::Saved;
use dv_answer::fresh_of;
use dv_model::NoMemory;
use dv_touched::Touched;
use dv_view::Live;
use std::alloc::Global;

/// Follows the mailbox by the UIDs that were touched since the search was kept of it: the rows of
/// these alone are looked up. After `NoMemory`, which is the only error, all is as before.
pub fn keep_up(
    alloc: Global,
    saved: &mut Saved,
    live: &Live,
    touched: &Touched,
) -> Result<(), NoMemory>
    requires { Became saved.old live.now.mailbox touched.now }
    ensures key { saved.new.key ≡ saved.old.key }
    // It is kept of the mailbox as that is now.
    ensures kept { OnOk result (IsOf saved.new live.now.mailbox) }
    ensures err { OnErr result (saved.new ≡ saved.old) }
{
    let fresh = fresh_of(alloc, live, touched.uids())?;
    saved.follow(&fresh, live.names())
}
