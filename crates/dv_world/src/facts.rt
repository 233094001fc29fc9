ghost use Rattle.std.specs.Prelude.{◌≡◌, IfOk, map};
ghost use Rattle.std.specs.Option.{option_copied};
ghost use Rattle.dv_model.specs.Sessions.{has_uid, message_in};
ghost use Rattle.dv_interleavings.specs.Worlds.{mail_of};
ghost use Rattle.dv_responses.specs.Depth.{IsShallow};
ghost use Rattle.dv_responses.specs.Supplied.{AreSupplied};
ghost use Rattle.dv_world.specs.Shapes.{stored_of};

use crate::kept::Stored;
use crate::messages::message_of;
use dv_apply::Live;
use dv_model::{Bytes, Command, Duplicate, NoMemory};
use dv_responses::{asked_by, facts_from, reads_mail, uids_looked_at};
use dv_search::Mail;
use dv_view::View;
use std::alloc::Global;

// Whether the mailbox has a row of this UID.
fn has_uid(live: &Live, uid: u32) -> bool
    ensures { result ≡ has_uid live.now.mailbox uid }
{
    live.position(uid).is_some()
}

// The message of a UID, where the mailbox has its row and the message is whole.
fn message_in<'a>(stored: &'a [Stored], live: &Live, uid: u32) -> Option<&'a Bytes>
    ensures { option_copied result
        ≡ message_in (mail_of (map stored_of stored.now)) live.now.mailbox uid }
{
    if has_uid(live, uid) {
        message_of(stored, uid)
    } else {
        None
    }
}

/// What the command asks of the messages that it reads. `NoMemory` is the only error.
pub fn facts_for(
    alloc: Global,
    c: &Command,
    view: &View,
    live: &Live,
    stored: &[Stored],
) -> Result<Mail, NoMemory>
    requires { IsShallow c.now }
    ensures { IfOk result (AreSupplied (mail_of (map stored_of stored.now)) c.now view.now
        live.now.mailbox) }
{
    let mut mail = Mail::new(alloc);
    if !reads_mail(c) {
        return Ok(mail);
    }
    // The rows of a view rise.
    let _rows = view.rows();
    let asked = asked_by(alloc, c)?;
    let uids = uids_looked_at(alloc, c, view)?;
    for uid in uids.as_slice() {
        if let Some(message) = message_in(stored, live, *uid) {
            let message = message.duplicate(alloc)?;
            mail.push(facts_from(alloc, &asked, *uid, message)?)?;
        }
    }
    Ok(mail)
}
