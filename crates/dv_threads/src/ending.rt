//! How a script that sessions in threads serve ends.

ghost use Rattle.std.specs.Prelude.{◌≡◌};
ghost use Rattle.dv_threads.specs.Jobs.{end_of};

use dv_model::Mark;
use dv_shelf::{Clock, Shelf, Sink};
use dv_store::Store;

/// How the serving of a script ends, behind the joining of all threads.
#[derive(Clone, Copy, PartialEq, Eq, Debug)]
pub enum ThreadsEnd {
    /// Every command was answered: the place behind the log, and how many groups were written.
    Answered { mark: Mark, groups: u64 },
    /// Memory ran out: before the first command, or at a command of some session, and the others
    /// went on. The replies so far are written.
    NoMemory,
    /// The output failed, with its count of failures. It is told also where memory ran out.
    Sink(u64),
}

/// How it ends, with the folder and the clock.
pub struct Served<S, C> {
    pub end: ThreadsEnd,
    pub shelf: S,
    pub clock: C,
}

/// The folder and the clock, where no command was served.
pub(crate) fn unserved<S, C>(store: Store<S, C>, end: ThreadsEnd) -> Served<S, C>
    ensures { result ≡ record { end = end; shelf = store.shelf; clock = store.clock } }
{
    let (shelf, clock) = store.parts();
    Served { end, shelf, clock }
}

/// The end by whether all commands were answered, and whether the output failed.
pub(crate) fn conclude<S: Shelf, C: Clock, O: Sink>(
    store: Store<S, C>,
    groups: u64,
    whole: bool,
    failed: bool,
    out: &O,
) -> Served<S, C>
    ensures end { result.end ≡ end_of whole failed store.mark groups (O.sees.fault_count out.now) }
    ensures shelf { result.shelf ≡ store.shelf }
    ensures clock { result.clock ≡ store.clock }
{
    let mark = store.mark();
    let end = if failed {
        ThreadsEnd::Sink(out.faults())
    } else if whole {
        ThreadsEnd::Answered { mark, groups }
    } else {
        ThreadsEnd::NoMemory
    };
    unserved(store, end)
}
