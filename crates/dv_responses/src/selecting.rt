ghost use Rattle.std.specs.Prelude.{◌≡◌, OnErr, OnOk};
ghost use Rattle.dv_model.specs.declared.types.Command.TheVariants as command;
ghost use Rattle.dv_model.specs.Sessions.{told_of};
ghost use Rattle.dv_model.specs.Views.{empty_view};
ghost use Rattle.dv_view.specs.Taken.{HasTaken};

use dv_model::{NoMemory, Reply};
use dv_view::{Live, Replies, View, add_changes};
use std::alloc::Global;

/// Adds what SELECT says of the mailbox that the view now shows: EXISTS, UIDVALIDITY and UIDNEXT
/// (RFC 3501, section 6.3.1), and then the flags of each message. After `NoMemory`, which is the
/// only error, some of it may have been added.
pub fn add_select_lines<R: Replies>(
    alloc: Global,
    live: &Live,
    view: &View,
    lines: &mut R,
) -> Result<(), NoMemory>
    ensures ok { OnOk result (lines.new ≡ R.with lines.old
        (told_of command.Select live.now.mailbox empty_view view.now)) }
    ensures err { OnErr result (HasTaken R.with lines.old lines.new) }
{
    let rows = view.rows().as_slice();
    lines.take(Reply::Exists(rows.len() as u32))?;
    lines.take(Reply::Validity(live.uid_validity()))?;
    lines.take(Reply::NextUid(live.next_uid()))?;
    add_changes(alloc, live.names(), &[], rows, lines)?;
    Ok(())
}
