//! A run that answers the calls on a storage.

ghost use Rattle.std.specs.Prelude.{◌≡◌, Some};
ghost use Rattle.dv_shelf.specs.Crashes.{IsSettled};
ghost use Rattle.dv_mdbox_lines.specs.Views.{calls_left};
ghost use Rattle.dv_serving.specs.Faults.{faults_of};
ghost use Rattle.dv_serving.specs.Outputs.{output_of};
ghost use Rattle.dv_cli.specs.Causes.{EndCause, TakesForCalls, TellsFaults};
ghost use Rattle.dv_cli.specs.Storing.{AnswersCalls, stored_end};
ghost use Rattle.dv_notices.specs.declared.telling.Told.TheVariants as telling;

use crate::ending::End;
use crate::running::Outcome;
use dv_mdbox_lines::Calls;
use dv_mdbox_serving::{Ran, StorageEnd, run_storage};
use dv_notices::Told;
use dv_shelf::{Clock, Shelf, Sink};
use std::alloc::Global;

/// How a run ends that answered calls.
fn stored_end(end: StorageEnd) -> End
    ensures { result ≡ stored_end end }
{
    match end {
        StorageEnd::Answered { mark, groups } => End::Answered {
            mark,
            groups,
            loaded: None,
        },
        StorageEnd::Unopened(fault) => End::Unopened(fault),
        StorageEnd::NoMemory => End::NoMemory,
        StorageEnd::Sink => End::Sink,
    }
}

/// Answers the calls of a script in the storage of a folder.
pub fn run_calls<S: Shelf, C: Clock, O: Sink>(
    alloc: Global,
    calls: Calls<'_>,
    shelf: S,
    clock: C,
    out: &mut O,
) -> Outcome<S, C>
    // Of a settled folder: what is answered and left, at any moment too.
    ensures answers { S.sees.tells → IsSettled S.sees shelf →
        AnswersCalls S.sees (faults_of S.sees shelf result.shelf) (calls_left calls.entry)
        result.end
        (output_of O.sees out.old out.new) shelf result.shelf }
    // A fault that is found is told, and only where there is none the calls are answered; nothing
    // is told beside it.
    ensures found { S.sees.tells → TellsFaults (S.sees.files shelf) result.end }
    ensures quiet { result.told ≡ telling.Nothing }
    // Each end has its cause, and the clock isn't read where a fault is found.
    ensures cause { EndCause (S.sees.fault_count shelf) (S.sees.fault_count result.shelf)
        (O.sees.fault_count out.old) (O.sees.fault_count out.new) result.end }
    ensures readings { C.sees.tells → TakesForCalls (C.sees.upcoming clock)
        (C.sees.upcoming result.clock) result.end }
{
    let Ran { end, shelf, clock } = run_storage(alloc, calls, shelf, clock, out);
    Outcome {
        end: stored_end(end),
        told: Told::Nothing,
        shelf,
        clock,
    }
}
