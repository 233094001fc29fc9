//! The lines of a script over a mailbox folder, by sessions in threads.

ghost use Rattle.std.specs.Prelude.{◌≡◌, ◌≤◌, All, length};
ghost use Rattle.dv_shelf.specs.Crashes.{IsSettled};
ghost use Rattle.dv_formats.specs.Scripts.{NamedLine, sessions_of};
ghost use Rattle.dv_serving.specs.Faults.{faults_of};
ghost use Rattle.dv_serving.specs.NextRuns.{IsTrueFolder};
ghost use Rattle.dv_serving.specs.Outputs.{output_of};
ghost use Rattle.dv_serving.specs.Readings.{AtReadings};
ghost use Rattle.dv_serving.specs.Servable.{IsServable};
ghost use Rattle.dv_notices.specs.declared.telling.Told.TheVariants as telling;
ghost use Rattle.dv_cli.specs.Causes.{EndCause, TakesByEnd, TellsFaults};
ghost use Rattle.dv_cli.specs.Spans.{times_from};
ghost use Rattle.dv_program.specs.Serving.{RunsBy, end_by};

use dv_beginning::open_folder;
use dv_cli::{End, Outcome};
use dv_notices::Told;
use dv_script::Lines;
use dv_shelf::{Clock, Gate, Shelf, Sink};
use dv_threads::{Served, ThreadsEnd, serve_threads};
use std::alloc::Global;
use std::sync::Wait;
use std::thread::Threads;

/// How a run ends, by how the serving does.
fn end_by(end: ThreadsEnd) -> End
    ensures { result ≡ end_by end }
{
    match end {
        ThreadsEnd::Answered { mark, groups } => End::Answered {
            mark,
            groups,
            loaded: None,
        },
        ThreadsEnd::NoMemory => End::NoMemory,
        ThreadsEnd::Sink(_) => End::Sink,
    }
}

/// Opens or makes the mailbox, and has the lines answered in it, those of each session in a thread
/// of its own.
pub fn serve_folder<
    S: Shelf + Send,
    C: Clock + Send,
    L: Lines,
    O: Sink,
    G: Gate + Sync,
    R: Threads + Wait + Sync,
>(rt: &R, alloc: Global, lines: &mut L, shelf: S, clock: C, out: &mut O, gate: &G) -> Outcome<S, C>
    requires servable { All (λ (line : NamedLine). IsServable line.1) (L.left lines.old) }
    requires sessions { length (sessions_of (L.left lines.old)) ≤ 64 }
    // Of a settled folder with a true cache: what is answered, written and left, at any moment too.
    ensures runs { S.sees.tells → IsSettled S.sees shelf → IsTrueFolder (S.sees.files shelf) →
        AtReadings C.sees.tells (C.sees.upcoming clock) (λ readings.
        RunsBy S.sees (times_from C.sees readings result.clock)
        (faults_of S.sees shelf result.shelf) (L.left lines.old) result.end
        (output_of O.sees out.old out.new) shelf result.shelf) }
    // A fault that is found is told, and only where there is none all lines are answered; nothing
    // is told beside it.
    ensures found { S.sees.tells → TellsFaults (S.sees.files shelf) result.end }
    ensures quiet { result.told ≡ telling.Nothing }
    // Each end has its cause; where the folder isn't opened the clock is read once at most.
    ensures cause { EndCause (S.sees.fault_count shelf) (S.sees.fault_count result.shelf)
        (O.sees.fault_count out.old) (O.sees.fault_count out.new) result.end }
    ensures readings { C.sees.tells → TakesByEnd (C.sees.upcoming clock)
        (C.sees.upcoming result.clock) result.end }
{
    let start_count = shelf.faults();
    match open_folder(alloc, shelf, clock) {
        Ok(store) => {
            let Served { end, shelf, clock } = serve_threads(
                rt,
                alloc,
                store,
                start_count,
                lines,
                gate,
                out,
            );
            Outcome {
                end: end_by(end),
                told: Told::Nothing,
                shelf,
                clock,
            }
        }
        Err((shelf, clock, fault)) => Outcome {
            end: End::Unopened(fault),
            told: Told::Nothing,
            shelf,
            clock,
        },
    }
}
