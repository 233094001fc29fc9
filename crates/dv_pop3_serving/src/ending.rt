//! How a POP3 session over an opened mailbox ends.

ghost use Rattle.std.specs.Prelude.{◌≡◌};
ghost use Rattle.dv_pop3_serving.specs.Ends.{end_of};

use dv_model::Mark;
use dv_pop3::{LinesEnd, PopFault};
use dv_shelf::{Clock, Shelf};
use dv_store::Store;

/// How the serving of a session ends.
#[derive(Clone, Copy, PartialEq, Eq, Debug)]
pub enum PopEnd {
    /// Each line was answered, up to the first QUIT: the place behind the log, and how many groups
    /// were written.
    Answered { mark: Mark, groups: u64 },
    /// Memory ran out: before the greeting, or at a line.
    NoMemory,
    /// The output failed, with its count of failures.
    Sink(u64),
    /// The disk failed before the greeting, with the folder's count of failures.
    Disk(u64),
}

/// How it ends, with the folder and the clock.
pub struct Served<S, C> {
    pub end: PopEnd,
    pub shelf: S,
    pub clock: C,
}

/// The folder and the clock, with an end.
pub(crate) fn ended<S, C>(store: Store<S, C>, end: PopEnd) -> Served<S, C>
    ensures { result ≡ record { end = end; shelf = store.shelf; clock = store.clock } }
{
    let (shelf, clock) = store.parts();
    Served { end, shelf, clock }
}

/// The end of a session by what came of it.
pub(crate) fn conclude<S: Shelf, C: Clock>(
    store: Store<S, C>,
    groups: u64,
    came: Result<LinesEnd, PopFault>,
) -> Served<S, C>
    ensures { result ≡ record {
      end = end_of came store.mark groups;
      shelf = store.shelf;
      clock = store.clock;
    } }
{
    let mark = store.mark();
    let end = match came {
        Ok(LinesEnd::Answered) => PopEnd::Answered { mark, groups },
        Ok(LinesEnd::Sink(faults)) => PopEnd::Sink(faults),
        Err(PopFault::Disk(faults)) => PopEnd::Disk(faults),
        Ok(LinesEnd::NoMemory) | Err(PopFault::NoMemory) => PopEnd::NoMemory,
    };
    ended(store, end)
}
