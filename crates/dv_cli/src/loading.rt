//! A generated load is answered over a mailbox folder.

ghost use Rattle.std.specs.Prelude.{◌≡◌, [], Some, length};
ghost use Rattle.dv_shelf.specs.Crashes.{IsSettled};
ghost use Rattle.dv_serving.specs.NextRuns.{IsTrueFolder};
ghost use Rattle.dv_serving.specs.Outputs.{output_with};
ghost use Rattle.dv_serving.specs.Readings.{AtReadings};
ghost use Rattle.dv_cli.specs.Causes.{EndCause, TakesForRun, TellsFaults};
ghost use Rattle.dv_cli.specs.Runs.{RunsOver};
ghost use Rattle.dv_cli.specs.Spans.{times_from};
ghost use Rattle.dv_serving.specs.Faults.{faults_of};
ghost use Rattle.dv_cli.specs.Tasks.{EndsBy, generated_by};
ghost use Rattle.dv_cli.specs.Words.{IsLoad};
ghost use Rattle.dv_notices.specs.declared.telling.Told.TheVariants as telling;
ghost use Rattle.dv_cli.specs.declared.words.Task.TheVariants as task;

use crate::beside::{Beside, run_folder};
use crate::running::Outcome;
use crate::words::Load;
use dv_gen::generated_lines;
use dv_serial::NullSink;
use dv_serving::generated_are_servable;
use dv_shelf::{Clock, Gate, Shelf};
use std::alloc::Global;

/// Answers the script of a load in the folder. No reply is written.
pub fn run_load<S: Shelf, C: Clock, G: Gate>(
    alloc: Global,
    load: Load,
    shelf: S,
    clock: C,
    gate: &G,
) -> Outcome<S, C>
    requires few { IsLoad load }
    // Of a settled folder with a true cache: what is answered and left, at any moment too.
    ensures runs { S.sees.tells → IsSettled S.sees shelf → IsTrueFolder (S.sees.files shelf) →
        AtReadings C.sees.tells (C.sees.upcoming clock) (λ readings.
        RunsOver S.sees (times_from C.sees readings result.clock)
        (faults_of S.sees shelf result.shelf) (Some load) (generated_by load) result.end
        (output_with ⊥ [] []) shelf result.shelf) }
    // A fault that is found is told, and only where there is none all lines are answered.
    ensures found { S.sees.tells → TellsFaults (S.sees.files shelf) result.end }
    // Each end is of such a run and has its cause, and the clock is read so often.
    ensures ends { EndsBy (Some (task.Generate load)) result.end }
    ensures quiet { result.told ≡ telling.Nothing }
    ensures cause { EndCause (S.sees.fault_count shelf) (S.sees.fault_count result.shelf) 0 0
        result.end }
    ensures readings { C.sees.tells →
        TakesForRun (length (generated_by load)) (C.sees.upcoming clock)
        (C.sees.upcoming result.clock) result.end }
{
    let mut lines = generated_lines(alloc, load.seed, load.count, load.sessions);
    generated_are_servable();
    let mut none = NullSink;
    run_folder(
        alloc,
        Beside::Load(load),
        &mut lines,
        load.sessions,
        shelf,
        clock,
        &mut none,
        gate,
    )
}
