//! A run that answers a client with an older state.

ghost use Rattle.std.specs.Prelude.{◌≡◌, Some};
ghost use Rattle.dv_shelf.specs.Crashes.{IsSettled};
ghost use Rattle.dv_serving.specs.NextRuns.{IsTrueFolder};
ghost use Rattle.dv_serving.specs.Outputs.{output_of};
ghost use Rattle.dv_serving.specs.Readings.{AtReadings};
ghost use Rattle.dv_cli.specs.Causes.{EndCause, TakesForRun, TellsFaults};
ghost use Rattle.dv_cli.specs.Resyncing.{AnswersClient, caught_end};
ghost use Rattle.dv_cli.specs.Spans.{times_from};
ghost use Rattle.dv_cli.specs.Tasks.{EndsBy};
ghost use Rattle.dv_notices.specs.declared.telling.Told.TheVariants as telling;
ghost use Rattle.dv_cli.specs.declared.words.Task.TheVariants as task;

use crate::ending::End;
use crate::running::Outcome;
use dv_catching::{CatchEnd, Caught, catch_client};
use dv_notices::Told;
use dv_qresync::Old;
use dv_shelf::{Clock, Shelf, Sink};
use std::alloc::Global;

/// How a run ends that answered a client: it wrote no group.
fn caught_end(end: CatchEnd) -> End
    ensures { result ≡ caught_end end }
{
    match end {
        CatchEnd::Answered(mark) => End::Answered {
            mark,
            groups: 0,
            loaded: None,
        },
        CatchEnd::Unopened(fault) => End::Unopened(fault),
        CatchEnd::NoMemory => End::NoMemory,
        CatchEnd::Sink => End::Sink,
    }
}

/// Answers a client with an older state from the folder.
pub fn run_resync<S: Shelf, C: Clock, O: Sink>(
    alloc: Global,
    client: &Old,
    shelf: S,
    clock: C,
    out: &mut O,
) -> Outcome<S, C>
    // Of a settled folder with a true cache: what is answered and left, at any moment too.
    ensures answers { S.sees.tells → IsSettled S.sees shelf → IsTrueFolder (S.sees.files shelf) →
        AtReadings C.sees.tells (C.sees.upcoming clock) (λ readings. AnswersClient S.sees
        (times_from C.sees readings result.clock) client.now result.end
        (output_of O.sees out.old out.new) shelf result.shelf) }
    // A fault that is found is told, and only where there is none the client is answered.
    ensures found { S.sees.tells → TellsFaults (S.sees.files shelf) result.end }
    // Each end is of such a run and has its cause, and the clock is read once at most.
    ensures ends { EndsBy (Some (task.Resync client.now)) result.end }
    ensures quiet { result.told ≡ telling.Nothing }
    ensures cause { EndCause (S.sees.fault_count shelf) (S.sees.fault_count result.shelf)
        (O.sees.fault_count out.old) (O.sees.fault_count out.new) result.end }
    ensures readings { C.sees.tells → TakesForRun 0 (C.sees.upcoming clock)
        (C.sees.upcoming result.clock) result.end }
{
    let Caught { end, shelf, clock } = catch_client(alloc, client, shelf, clock, out);
    Outcome {
        end: caught_end(end),
        told: Told::Nothing,
        shelf,
        clock,
    }
}
