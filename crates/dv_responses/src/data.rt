ghost use Rattle.std.specs.Prelude.{◌≡◌, ℕ, OnErr, OnOk};
ghost use Rattle.dv_model.specs.Journals.{Mail as Message};
ghost use Rattle.dv_model.specs.Sessions.{data_of};
ghost use Rattle.dv_responses.specs.Depth.{IsShallow};
ghost use Rattle.dv_responses.specs.Supplied.{AreSupplied};
ghost use Rattle.dv_view.specs.Taken.{HasTaken};

use crate::Responses;
use crate::fetching::add_fetch_lines;
use crate::searching::search_line;
use dv_model::{Command, NoMemory};
use dv_search::Mail;
use dv_view::{Live, View};
use std::alloc::Global;

/// Adds the data that a command asked, over the view before it moves on (RFC 3501, sections 6.4.4
/// and 6.4.5), from the facts of the messages that it reads. Names of keywords are those of the
/// mailbox. After `NoMemory`, which is the only error, some may have been added. The time of a
/// FETCH is that of its set and of what it prints, that of a SEARCH is `eval`'s.
pub fn add_data_lines<R: Responses>(
    alloc: Global,
    c: &Command,
    view: &View,
    live: &Live,
    facts: &Mail,
    lines: &mut R,
) -> Result<(), NoMemory>
    requires { IsShallow c.now }
    // So it is for all messages that have these facts, and where those without facts aren't there.
    ensures ok { (mail : ℕ → Message) → AreSupplied mail c.now view.now live.now.mailbox facts.now
        → OnOk result
        (lines.new ≡ R.with lines.old (data_of mail c.now view.now live.now.mailbox)) }
    ensures err { (mail : ℕ → Message) → AreSupplied mail c.now view.now live.now.mailbox facts.now
        → OnErr result (HasTaken R.with lines.old lines.new) }
{
    match c {
        Command::Fetch { by_uid, set, items } => {
            add_fetch_lines(alloc, *by_uid, set, items, view, live, facts, lines)
        }
        Command::Search { by_uid, key } => {
            let line = search_line(alloc, *by_uid, key, view, live, facts)?;
            lines.take(line)
        }
        _ => Ok(()),
    }
}
