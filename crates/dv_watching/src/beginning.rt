//! How lines beside a kept search begin.

ghost use Rattle.std.specs.Prelude.{◌≡◌, ◌≤◌, IfErr, IfOk, replicate, true};
ghost use Rattle.dv_answer.specs.Following.{new_follower};
ghost use Rattle.dv_search.specs.Nesting.{levels_of, most_levels};
ghost use Rattle.dv_serial.specs.Servings.{serving_over};
ghost use Rattle.dv_live.specs.Steadiness.{steady};
ghost use Rattle.dv_watching.specs.Watching.{IsBeside};

use dv_live::Saved;
use dv_model::Key;
use dv_serial::{Serial, new_seats};
use dv_store::Store;
use std::alloc::Global;

/// So many new sessions over a mailbox that was opened, and beside them a search that is kept of
/// it. Where memory runs out, which is the only error, the folder and the clock are handed back.
pub fn begin<S, C>(
    alloc: Global,
    store: Store<S, C>,
    sessions: u32,
    key: Key,
) -> Result<(Serial<S, C>, Saved), (S, C)>
    requires steady { steady key ≡ true }
    requires shallow { levels_of key ≤ most_levels }
    ensures sessions { IfOk result (λ begun.
        begun.0 ≡ serving_over store (replicate sessions new_follower)) }
    ensures beside { IfOk result (λ begun. IsBeside key begun.0 begun.1) }
    ensures err { IfErr result (λ left. left ≡ (store.shelf, store.clock)) }
{
    let Ok(seats) = new_seats(alloc, sessions) else {
        return Err(store.parts());
    };
    let serial = Serial::new(alloc, store, seats);
    match Saved::new(alloc, key, serial.live()) {
        Ok(saved) => Ok((serial, saved)),
        Err(_) => Err(serial.parts()),
    }
}
