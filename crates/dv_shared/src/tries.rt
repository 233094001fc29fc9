ghost use Rattle.std.specs.Prelude.{◌≡◌, ◌++◌, ◌∷◌, []};
ghost use Rattle.dv_tries.specs.Commits.{try_of};

use dv_model::Command;
use dv_shelf::Clock;
use dv_store::Store;
use dv_view::View;
use std::marker::Model;
use std::snapshot::Snapshot;

/// The last write that the disk failed, behind those before it. It has no bytes.
#[cycle(tries)]
#[derive(Drop)]
pub(crate) struct Attempt<S, C: Clock> {
    before: Snapshot<Tries<S, C>>,
    place: Snapshot<u64>,
    author: Snapshot<u32>,
    command: Snapshot<Command>,
    view: Snapshot<View>,
    store: Snapshot<Store<S, C>>,
}

/// The writes that the disk failed, for contracts alone.
#[cycle(tries)]
#[derive(Drop)]
pub(crate) struct Tries<S, C: Clock> {
    last: Option<Attempt<S, C>>,
}

impl<S, C: Clock> Model for Tries<S, C> {
    ghost use Rattle.std.specs.Coded.{coded_list};
    ghost use Rattle.std.specs.Prelude.{List, length};
    ghost use Rattle.std.proofs.Common.{arith, length-append};
    ghost use Rattle.dv_model.specs.contracts.types.Command as command_type;
    ghost use Rattle.dv_view.specs.contracts.view.View as view_type;
    ghost use Rattle.dv_tries.specs.Tries.{Try};
    ghost use Rattle.dv_shared.specs.Codes.{try_code};

    ghost Value = { List Try };

    ghost coded = { coded_list
        (try_code command_type.the_row.coded view_type.the_row.coded) };

    ghost use Rattle.dv_shared.specs.Attempts.{tries_of};

    ghost view = { λ t. tries_of C.sees t.last };

    ghost size = { length };

    ghost size_decreases = { λ a h. Prim.grind (arith, length-append) };
}

impl<S, C: Clock> Tries<S, C> {
    /// No write was tried.
    pub(crate) fn new() -> Tries<S, C>
        ensures { result ≡ [] }
    {
        Tries { last: None }
    }

    /// One more, by a session of this number, over the store as it was before.
    pub(crate) fn add(
        &mut self,
        place: u64,
        author: u32,
        command: &Command,
        view: &View,
        store: Snapshot<Store<S, C>>,
    )
        ensures { self.new ≡ self.old ++ try_of place author command.now view.now store.value
            (C.sees.upcoming store.value.clock) ∷ [] }
    {
        let before = Snapshot::of(&*self);
        self.last = Some(Attempt {
            before,
            place: Snapshot::of(&place),
            author: Snapshot::of(&author),
            command: Snapshot::of(command),
            view: Snapshot::of(view),
            store,
        });
    }
}
