ghost use Rattle.std.specs.Prelude.{◌≡◌, IfOk, map};
ghost use Rattle.dv_model.specs.Sessions.{uids_looked_at};
ghost use Rattle.dv_model.specs.Sets.{named};
ghost use Rattle.dv_responses.specs.Depth.{IsShallow};

use crate::kinds::reads_messages;
use crate::rows::{all_uids, named, uids_at};
use dv_model::{Command, List, NoMemory, Span};
use dv_search::needs_mail;
use dv_view::View;
use std::alloc::Global;

/// The UIDs of the view's rows that a set names, by rising number (RFC 3501, section 6.4.8).
/// `NoMemory` is the only error. The time is that of the ranges, their sorting, and the rows.
pub fn named_uids(
    alloc: Global,
    by_uid: bool,
    set: &List<Span>,
    view: &View,
) -> Result<List<u32>, NoMemory>
    ensures { IfOk result (λ uids.
        uids ≡ map (λ row. row.1.uid) (named by_uid set.now view.now)) }
{
    let numbers = named(alloc, by_uid, set, view)?;
    uids_at(alloc, view.rows().as_slice(), numbers.as_slice())
}

/// The UIDs of the view's rows that a command looks at in the mailbox, by rising number: those that
/// a STORE names, and those whose messages are read. `NoMemory` is the only error. The time is that
/// of the ranges, their sorting, and the rows.
pub fn uids_looked_at(alloc: Global, c: &Command, view: &View) -> Result<List<u32>, NoMemory>
    requires { IsShallow c.now }
    ensures { IfOk result (λ uids. uids ≡ uids_looked_at c.now view.now) }
{
    match c {
        Command::Fetch { by_uid, set, items } => {
            if !reads_messages(items.as_slice()) {
                return Ok(List::new(alloc));
            }
            named_uids(alloc, *by_uid, set, view)
        }
        Command::Store { by_uid, set, .. } => named_uids(alloc, *by_uid, set, view),
        Command::Search { key, .. } => {
            if !needs_mail(key) {
                return Ok(List::new(alloc));
            }
            all_uids(alloc, view.rows().as_slice())
        }
        _ => Ok(List::new(alloc)),
    }
}
