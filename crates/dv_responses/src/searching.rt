ghost use Rattle.std.specs.Prelude.{◌≡◌, ◌≤◌, ◌∷◌, [], ℕ, IfOk};
ghost use Rattle.dv_model.specs.declared.types.Command.TheVariants as command;
ghost use Rattle.dv_model.specs.Journals.{Mail as Message};
ghost use Rattle.dv_model.specs.Sessions.{data_of};
ghost use Rattle.dv_search.specs.Nesting.{levels_of, most_levels};
ghost use Rattle.dv_responses.specs.Supplied.{AreSupplied};

use crate::rows::uids_at;
use dv_model::{Key, List, NoMemory, Reply};
use dv_search::{Mail, eval};
use dv_view::{Live, View};
use std::alloc::Global;

/// The SEARCH line: the numbers of the rows that are found, or their UIDs (RFC 3501, section
/// 7.2.5).
pub fn search_line(
    alloc: Global,
    by_uid: bool,
    key: &Key,
    view: &View,
    live: &Live,
    facts: &Mail,
) -> Result<Reply, NoMemory>
    requires { levels_of key.now ≤ most_levels }
    ensures { (mail : ℕ → Message) → AreSupplied mail (command.Search by_uid key.now)
        view.now live.now.mailbox facts.now
        → IfOk result (λ line. line ∷ []
        ≡ data_of mail (command.Search by_uid key.now) view.now live.now.mailbox) }
{
    let numbers = eval(alloc, key, view, live, facts)?;
    if !by_uid {
        return Ok(Reply::Search(numbers));
    }
    let uids = uids_at(alloc, view.rows().as_slice(), numbers.as_slice())?;
    Ok(Reply::Search(uids))
}
