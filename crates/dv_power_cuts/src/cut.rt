ghost use Rattle.std.specs.Prelude.{◌≡◌, List, map, string_bytes};
ghost use Rattle.dv_shelf.specs.Crashes.{IsSettled};
ghost use Rattle.dv_formats.specs.Scripts.{NamedLine};
ghost use Rattle.dv_serving.specs.NextRuns.{IsTrueFolder};
ghost use Rattle.dv_serving.specs.Outputs.{output_of};
ghost use Rattle.dv_serving.specs.Readings.{AtReadings};
ghost use Rattle.dv_stopping.specs.Stops.{leavings};
ghost use Rattle.dv_cli.specs.Tasks.{Answers, parsed_for, replies_of};
ghost use Rattle.dv_cli.specs.Words.{task_of};
ghost use Rattle.dv_power_cuts.specs.Acknowledging.{Acknowledges};

use dv_cli::{Ran, run};
use dv_shelf::{Clock, Gate, Shelf, Sink, Source};
use dv_stopping::Stopping;
use std::alloc::Global;

/// A run over a folder that passes so many calls and stops in the middle of the next one, as at a
/// power cut: what that call leaves is what a crash at some moment of it may leave, and from then
/// on every call fails. Where fewer calls are made the folder doesn't stop, and what it leaves is
/// what a crash behind the run may leave.
pub fn run_until_cut<S: Shelf + Send, I: Source, O: Sink, C: Clock + Send, G: Gate + Sync>(
    alloc: Global,
    words: &[String],
    shelf: S,
    calls: u64,
    script: &mut I,
    out: &mut O,
    clock: C,
    gate: &G,
) -> Ran<Stopping<S>, C>
    // Over a settled folder whose cache file is true, with the lines of a script or generated ones.
    // Each folder that the power cut leaves opens to one log, with its messages: behind the mailbox
    // that was found, or made, it has the group of each line whose answer with a mark was written,
    // in order, once, and at most one group more. The bytes that the output has taken are the
    // answers to these lines in turn, and behind them a last line, or a front of one or of the next
    // answer. Where the folder wasn't opened no line was answered. A mailbox that is made has a
    // reading of the clock, which need not tell it.
    ensures acknowledges { S.sees.tells → IsSettled S.sees shelf →
        IsTrueFolder (S.sees.files shelf) → (lines : List NamedLine) →
        Answers (task_of (map string_bytes words.now)) I.sees.tells
        (parsed_for (task_of (map string_bytes words.now)) (I.sees.left script.old)) lines →
        AtReadings C.sees.tells (C.sees.upcoming clock) (λ readings.
        Acknowledges readings (S.sees.files shelf) 0 lines result.status
        (replies_of (task_of (map string_bytes words.now)) (output_of O.sees out.old out.new))
        (leavings S.sees result.shelf)) }
{
    let stopping = Stopping::new(shelf, calls);
    run(alloc, words, stopping, script, out, clock, gate)
}
