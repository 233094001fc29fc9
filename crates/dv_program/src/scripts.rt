//! A script that is read and served by sessions in threads.

ghost use Rattle.std.specs.Prelude.{◌≡◌, ◌<◌, ◌^◌, ℕ, Err, List, Ok, Some, take};
ghost use Rattle.dv_shelf.specs.Crashes.{IsSettled};
ghost use Rattle.dv_formats.specs.Parsing.{ScriptFault, parsed};
ghost use Rattle.dv_formats.specs.Scripts.{NamedLine};
ghost use Rattle.dv_serving.specs.Faults.{faults_of};
ghost use Rattle.dv_serving.specs.NextRuns.{IsTrueFolder};
ghost use Rattle.dv_serving.specs.Outputs.{output_of};
ghost use Rattle.dv_serving.specs.Readings.{AtReadings};
ghost use Rattle.dv_cli.specs.Causes.{EndsRefused, HasRunCause, IsUntouched, TakesByEnd, TellsFaults, TellsScript, counts_of};
ghost use Rattle.dv_cli.specs.Readings.{TakesFront, read_limit};
ghost use Rattle.dv_cli.specs.Spans.{times_from};
ghost use Rattle.dv_cli.specs.Tasks.{EndsBy};
ghost use Rattle.dv_cli.specs.Told.{IsToldAt, TellsEnd};
ghost use Rattle.dv_cli.specs.declared.words.Task.TheVariants as task;
ghost use Rattle.dv_program.specs.Serving.{RunsThreads};

use crate::serving::serve_folder;
use dv_cli::{End, Outcome, script_text, told_of, untouched};
use dv_notices::Told;
use dv_script::{Script, open_script};
use dv_serving::commands_are_servable;
use dv_shelf::{Clock, Gate, Shelf, Sink, Source};
use std::alloc::Global;
use std::sync::Wait;
use std::thread::Threads;

/// Each reading of a clock is a number of 32 bits. Nothing is computed.
pub(crate) fn readings_are_small<C: Clock>()
    ensures { (c : C) (k : ℕ) → C.sees.tells → C.sees.upcoming c k < 2 ^ 32 }
{}

/// Reads the script, and has it answered in the folder, each session in a thread of its own.
pub fn run_script<
    S: Shelf + Send,
    I: Source,
    O: Sink,
    C: Clock + Send,
    G: Gate + Sync,
    R: Threads + Wait + Sync,
>(rt: &R, alloc: Global, shelf: S, script: &mut I, out: &mut O, clock: C, gate: &G) -> Outcome<S, C>
    // A good script is answered, unless it couldn't be read.
    ensures runs { S.sees.tells → I.sees.tells → IsSettled S.sees shelf →
        IsTrueFolder (S.sees.files shelf) → (lines : List NamedLine) →
        parsed (I.sees.left script.old) ≡ Ok lines →
        AtReadings C.sees.tells (C.sees.upcoming clock) (λ readings.
        RunsThreads S.sees (times_from C.sees readings result.clock)
        (faults_of S.sees shelf result.shelf) lines result.end (output_of O.sees out.old out.new)
        shelf result.shelf) }
    // One that is refused leaves everything but its source untouched.
    ensures refused { I.sees.tells → (fault : ScriptFault) →
        parsed (I.sees.left script.old) ≡ Err fault →
        IsUntouched shelf result.shelf clock result.clock
        × EndsRefused fault result.end × (out.new ≡ out.old) }
    // What the script and the folder hold is told, and each end has its cause.
    ensures found { (S.sees.tells → TellsFaults (S.sees.files shelf) result.end)
        × (I.sees.tells → TellsScript (parsed (I.sees.left script.old)) result.end
        × TellsEnd (take read_limit (I.sees.left script.old)) result.end result.told) }
    ensures ends { EndsBy (Some task.Run) result.end × IsToldAt result.end result.told }
    ensures cause { HasRunCause
        (counts_of (S.sees.fault_count shelf) (I.sees.fault_count script.old)
        (O.sees.fault_count out.old))
        (counts_of (S.sees.fault_count result.shelf) (I.sees.fault_count script.new)
        (O.sees.fault_count out.new))
        result.end }
    ensures bound { I.sees.tells → TakesFront (I.sees.left script.old) (I.sees.left script.new) }
    ensures readings { C.sees.tells → TakesByEnd (C.sees.upcoming clock)
        (C.sees.upcoming result.clock) result.end }
{
    readings_are_small::<C>();
    let text = match script_text(alloc, script) {
        Ok(text) => text,
        Err(end) => return untouched(shelf, clock, end, Told::Nothing),
    };
    commands_are_servable();
    match open_script(alloc, text.as_slice()) {
        Ok(script) => {
            let Script {
                mut lines,
                sessions: _sessions,
            } = script;
            serve_folder(rt, alloc, &mut lines, shelf, clock, out, gate)
        }
        Err(end) => {
            let told = told_of(alloc, text.as_slice(), end);
            untouched(shelf, clock, End::Script(end), told)
        }
    }
}
