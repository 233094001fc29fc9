ghost use Rattle.std.specs.Prelude.{◌≡◌, IfOk};
ghost use Rattle.dv_model.specs.Fresh.{shown_of};
ghost use Rattle.dv_answer.specs.Following.{fresh_of, is_untold, untold};

use dv_model::{Fresh, List, NoMemory, Shown};
use dv_view::{Live, View, shown};
use std::alloc::Global;

// What is shown of the row of a UID, found by halves.
fn shown_of(alloc: Global, live: &Live, uid: u32) -> Result<Option<Shown>, NoMemory>
    ensures { IfOk result (λ row. row ≡ shown_of live.now.mailbox uid) }
{
    match live.position(uid) {
        Some(k) => Ok(Some(shown(alloc, live.row(k))?)),
        None => Ok(None),
    }
}

/// What the mailbox has of these UIDs now. `NoMemory` is the only error. The time is that of the
/// UIDs, each found by halves.
pub fn fresh_of(alloc: Global, live: &Live, uids: &[u32]) -> Result<List<Fresh>, NoMemory>
    ensures { IfOk result (λ fresh. fresh ≡ fresh_of live.now.mailbox uids.now) }
{
    let mut fresh = List::from_vec(Vec::with_capacity(alloc, uids.len())?);
    for uid in uids {
        let uid = *uid;
        let row = shown_of(alloc, live, uid)?;
        fresh.push(Fresh { uid, row })?;
    }
    Ok(fresh)
}

// Whether the view shows the row of a UID that the mailbox lacks.
fn is_untold(view: &View, live: &Live, uid: u32) -> bool
    ensures { result ≡ is_untold live.now.mailbox view.now uid }
{
    view.position(uid).is_some() && live.position(uid).is_none()
}

/// Leaves of the UIDs those that the view shows and the mailbox lacks.
pub fn retain_untold(uids: &mut Vec<u32>, view: &View, live: &Live)
    ensures { uids.new.items ≡ untold live.now.mailbox view.now uids.old.items }
{
    uids.retain(|uid| is_untold(view, live, *uid));
}
