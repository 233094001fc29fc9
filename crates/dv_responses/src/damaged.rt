ghost use Rattle.std.specs.Prelude.{◌≡◌, ◌&&◌, ℕ, IfOk, filter, is_none};
ghost use Rattle.dv_model.specs.Journals.{Mail as Message};
ghost use Rattle.dv_model.specs.Sessions.{has_uid, uids_looked_at};
ghost use Rattle.dv_model.specs.Views.{View as ShownRows};
ghost use Rattle.dv_search.specs.Facts.{facts_of};
ghost use Rattle.dv_responses.specs.Damaged.{damaged_uids};
ghost use Rattle.dv_responses.specs.Depth.{IsShallow};
ghost use Rattle.dv_responses.specs.Supplied.{AreSupplied};

use crate::kinds::reads_mail;
use crate::meeting::has_uid;
use dv_model::{Command, List, NoMemory};
use dv_search::Mail;
use dv_view::Live;
use std::alloc::Global;

// Whether the mailbox has a row of this UID and no facts are known of it.
fn is_unknown(live: &Live, facts: &Mail, uid: u32) -> bool
    ensures { result ≡ (has_uid live.now.mailbox uid && is_none (facts_of facts.now uid)) }
{
    has_uid(live, uid) && facts.of(uid).is_none()
}

// Those of the UIDs that the mailbox has and no facts are known of.
fn unknown_of(alloc: Global, uids: &[u32], live: &Live, facts: &Mail) -> Result<List<u32>, NoMemory>
    ensures { IfOk result (λ unknown. unknown ≡ filter
        (λ uid. has_uid live.now.mailbox uid && is_none (facts_of facts.now uid)) uids.now) }
{
    let mut unknown = List::new(alloc);
    for uid in uids {
        if is_unknown(live, facts, *uid) {
            unknown.push(*uid)?;
        }
    }
    Ok(unknown)
}

/// The UIDs of the damaged messages that the command reads, of those that it looks at: the mailbox
/// has them and no facts are known of them. `NoMemory` is the only error. The time is that of the
/// UIDs, each found by halves.
pub fn damaged_among(
    alloc: Global,
    c: &Command,
    looked_at: &[u32],
    live: &Live,
    facts: &Mail,
) -> Result<List<u32>, NoMemory>
    requires { IsShallow c.now }
    // So it is for all messages that have these facts, and where those without facts aren't there.
    ensures { (mail : ℕ → Message) (view : ShownRows)
        → looked_at.now ≡ uids_looked_at c.now view
        → AreSupplied mail c.now view live.now.mailbox facts.now
        → IfOk result (λ damaged. damaged ≡ damaged_uids mail c.now view live.now.mailbox) }
{
    if !reads_mail(c) {
        return Ok(List::new(alloc));
    }
    unknown_of(alloc, looked_at, live, facts)
}
