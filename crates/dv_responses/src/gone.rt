ghost use Rattle.std.specs.Prelude.{◌≡◌, IfOk, filter, map, min, not};
ghost use Rattle.std.specs.List.{reduce};
ghost use Rattle.dv_model.specs.Sessions.{gone_uid, has_uid};
ghost use Rattle.dv_model.specs.Sets.{named};
ghost use Rattle.dv_responses.specs.Depth.{IsShallow};
ghost use Rattle.dv_responses.specs.Rows.{row_at};

use crate::kinds::reads_messages;
use crate::meeting::has_uid;
use crate::rows::{named, uid_at};
use dv_model::{Command, List, NoMemory, Shown, Span};
use dv_search::needs_mail;
use dv_view::{Live, View};
use std::alloc::Global;

// The smallest UID of these rows that the mailbox lacks.
fn first_gone(rows: &[Shown], live: &Live) -> Option<u32>
    ensures { result ≡ reduce min (filter (λ uid. not (has_uid live.now.mailbox uid))
        (map (λ row. row.uid) rows.now)) }
{
    rows.iter()
        .map(|row| row.uid)
        .filter(|uid| !has_uid(live, *uid))
        .min()
}

// The smallest UID of the rows with these numbers that the mailbox lacks.
fn first_gone_at(rows: &[Shown], numbers: &[u32], live: &Live) -> Option<u32>
    ensures { result ≡ reduce min (filter (λ uid. not (has_uid live.now.mailbox uid))
        (map (λ number. (row_at rows.now number).uid) numbers.now)) }
{
    numbers
        .iter()
        .map(|number| uid_at(rows, *number))
        .filter(|uid| !has_uid(live, *uid))
        .min()
}

// The smallest UID of the view's rows that a set names and the mailbox lacks.
fn first_gone_named(
    alloc: Global,
    by_uid: bool,
    set: &List<Span>,
    view: &View,
    live: &Live,
) -> Result<Option<u32>, NoMemory>
    ensures { IfOk result (λ gone. gone ≡ reduce min
        (filter (λ uid. not (has_uid live.now.mailbox uid))
        (map (λ row. row.1.uid) (named by_uid set.now view.now)))) }
{
    let numbers = named(alloc, by_uid, set, view)?;
    let rows = view.rows().as_slice();
    Ok(first_gone_at(rows, numbers.as_slice(), live))
}

/// The smallest UID that a command looks at and the mailbox lacks: another session has expunged it
/// (RFC 5530, EXPUNGEISSUED). `NoMemory` is the only error. The time is that of the ranges, their
/// sorting, and the rows, each found by halves.
pub fn gone_uid(
    alloc: Global,
    c: &Command,
    view: &View,
    live: &Live,
) -> Result<Option<u32>, NoMemory>
    requires { IsShallow c.now }
    ensures { IfOk result (λ gone. gone ≡ gone_uid c.now view.now live.now.mailbox) }
{
    match c {
        Command::Fetch { by_uid, set, items } => {
            if !reads_messages(items.as_slice()) {
                return Ok(None);
            }
            first_gone_named(alloc, *by_uid, set, view, live)
        }
        Command::Store { by_uid, set, .. } => first_gone_named(alloc, *by_uid, set, view, live),
        Command::Search { key, .. } => {
            if !needs_mail(key) {
                return Ok(None);
            }
            Ok(first_gone(view.rows().as_slice(), live))
        }
        _ => Ok(None),
    }
}
