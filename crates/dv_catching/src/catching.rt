//! A client with an older state is answered from a folder.

ghost use Rattle.std.specs.Prelude.{◌≡◌, ◌≤◌, ℕ, IfOk};
ghost use Rattle.dv_model.specs.Counts.{Rose};
ghost use Rattle.dv_shelf.specs.Crashes.{IsSettled};
ghost use Rattle.dv_beginning.specs.Begins.{IsBegun};
ghost use Rattle.dv_beginning.specs.Causes.{TakesForOpening, TellsOpening};
ghost use Rattle.dv_qresync.specs.Answers.{resynced};
ghost use Rattle.dv_qresync.specs.Texts.{answers_text};
ghost use Rattle.dv_serving.specs.NextRuns.{IsTrueFolder};
ghost use Rattle.dv_serving.specs.Outputs.{output_of};
ghost use Rattle.dv_serving.specs.Readings.{AtReadings};
ghost use Rattle.dv_catching.specs.Catching.{Catches, CatchesOver, EndsBehind, HasCatchCause, opened};
ghost use Rattle.dv_catching.specs.Texts.{WritesText, joined};
ghost use Rattle.dv_catching.specs.declared.catching.CatchEnd.TheVariants as end;

use crate::pieces::{answer_pieces, write_pieces};
use dv_apply::Live;
use dv_beginning::open_folder;
use dv_model::{Bytes, Mark, NoMemory, OpenFault};
use dv_qresync::{Old, resync};
use dv_shelf::{Clock, Shelf, Sink};
use dv_store::Store;
use std::alloc::Global;

/// How a client that catches up was answered.
#[derive(Clone, Copy)]
pub enum CatchEnd {
    /// All was written; the end of the mailbox's log.
    Answered(Mark),
    /// The folder isn't opened or made.
    Unopened(OpenFault),
    NoMemory,
    /// The output failed.
    Sink,
}

/// How a client was answered, with the folder and the clock.
pub struct Caught<S, C> {
    pub end: CatchEnd,
    pub shelf: S,
    pub clock: C,
}

/// The text of what a client with an older state of the mailbox hears, in pieces.
fn text_for(alloc: Global, live: &Live, client: &Old) -> Result<Vec<Bytes>, NoMemory>
    ensures { IfOk result (λ pieces.
        joined pieces.items ≡ answers_text (resynced live.now.mailbox client.now)) }
{
    let answers = resync(alloc, live, client)?;
    answer_pieces(alloc, answers.as_slice())
}

/// Writes what a client with an older state of the mailbox hears, of which nothing is written where
/// memory lacks.
fn tell<O: Sink>(alloc: Global, live: &Live, place: Mark, client: &Old, out: &mut O) -> CatchEnd
    ensures text { O.sees.tells →
        WritesText result (answers_text (resynced live.now.mailbox client.now))
        (O.sees.taken out.old) (O.sees.taken out.new) }
    ensures ends { EndsBehind place result }
    ensures later { O.sees.fault_count out.old ≤ O.sees.fault_count out.new }
    ensures cause { result ≡ end.Sink →
        Rose (O.sees.fault_count out.old) (O.sees.fault_count out.new) }
{
    let Ok(pieces) = text_for(alloc, live, client) else {
        return CatchEnd::NoMemory;
    };
    match write_pieces(pieces.as_slice(), out) {
        Ok(()) => CatchEnd::Answered(place),
        Err(_) => CatchEnd::Sink,
    }
}

/// Answers a client from a mailbox that was opened.
fn answer<S: Shelf, C: Clock, O: Sink>(
    alloc: Global,
    store: Store<S, C>,
    client: &Old,
    out: &mut O,
) -> Caught<S, C>
    // Where the store is one from which a run begins: what is written and left.
    ensures catches { S.sees.tells → (clock : ℕ → ℕ) (old : S) →
        IsBegun S.sees C.sees clock old store → Catches S.sees clock client.now result.end
        (output_of O.sees out.old out.new) old result.shelf }
    ensures ends { opened result.end ≡ Ok tt }
    ensures same { (result.shelf ≡ store.shelf) × (result.clock ≡ store.clock) }
    ensures cause { HasCatchCause (S.sees.fault_count store.shelf)
        (S.sees.fault_count result.shelf) (O.sees.fault_count out.old)
        (O.sees.fault_count out.new) result.end }
{
    let end = tell(alloc, store.live(), store.place(), client, out);
    let (shelf, clock) = store.parts();
    Caught { end, shelf, clock }
}

/// Answers a client with an older state from a folder, whose mailbox is opened, or made where there
/// is none. Nothing else is written to it.
pub fn catch_client<S: Shelf, C: Clock, O: Sink>(
    alloc: Global,
    client: &Old,
    shelf: S,
    clock: C,
    out: &mut O,
) -> Caught<S, C>
    // Of a settled folder with a true cache: what is written and left, at any moment too.
    ensures catches { S.sees.tells → IsSettled S.sees shelf → IsTrueFolder (S.sees.files shelf) →
        AtReadings C.sees.tells (C.sees.upcoming clock) (λ readings.
        CatchesOver S.sees readings client.now result.end (output_of O.sees out.old out.new)
        shelf result.shelf) }
    // Of any folder: a fault that is found is told, and only where there is none it is opened.
    ensures found { S.sees.tells → TellsOpening (S.sees.files shelf) (opened result.end) }
    // Each end has its cause, and the clock is read once at most, where a mailbox is made.
    ensures cause { HasCatchCause (S.sees.fault_count shelf) (S.sees.fault_count result.shelf)
        (O.sees.fault_count out.old) (O.sees.fault_count out.new) result.end }
    ensures readings { C.sees.tells → TakesForOpening (C.sees.upcoming clock)
        (C.sees.upcoming result.clock) (opened result.end) }
{
    match open_folder(alloc, shelf, clock) {
        Ok(store) => answer(alloc, store, client, out),
        Err((shelf, clock, fault)) => Caught {
            end: CatchEnd::Unopened(fault),
            shelf,
            clock,
        },
    }
}
