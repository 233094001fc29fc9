ghost use Rattle.std.specs.Prelude.{◌≡◌, ◌-◌, ◌/◌, ◌^◌, IfOk, List as Listed, OnErr, length, min, true, ℕ};
ghost use Rattle.dv_generations.specs.Feeds.{Fits, turned};
ghost use Rattle.dv_groups.specs.Groups.{HasSizes};
ghost use Rattle.dv_model.specs.Sessions.{IsCommand};
ghost use Rattle.dv_model.specs.Spelling.{group_text};
ghost use Rattle.dv_plans.specs.Overs.{group_over};
ghost use Rattle.dv_shared.specs.Committing.{KeepsWords};

use dv_generations::{Generations, Next};
use dv_model::{Command, NoMemory};
use dv_naming::Keeping;
use dv_shelf::Shelf;
use dv_store::Store;
use dv_view::View;
use std::alloc::Global;

/// Takes all memory that publishing the group of a command asks for: a next table, where the group
/// doesn't fit into the newest, and a pass for who publishes.
pub(crate) fn make_room<S: Shelf, C, K: Keeping>(
    alloc: Global,
    store: &Store<S, C>,
    feed: &mut Generations<K>,
    c: &Command,
    view: &View,
) -> Result<Option<Next<K>>, NoMemory>
    requires { IsCommand c.now }
    ensures fits { (guid : ℕ → Listed ℕ) → HasSizes guid → IfOk result (λ next. Fits
        (min (length (group_text (group_over c.now view.now store.now.chain guid)))
        (2 ^ 64 - 1) / 4) feed.new next) }
    ensures pass { IfOk result (λ next. (turned feed.new next).pass ≡ true) }
    ensures words { KeepsWords feed.old feed.new }
    ensures err { OnErr result (feed.new ≡ feed.old) }
{
    let need = store.need(c, view)?;
    feed.ready(alloc, need / 4)
}
