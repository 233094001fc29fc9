//! A run that rebuilds its folder.

ghost use Rattle.std.specs.Prelude.{◌≡◌, ℕ, Some};
ghost use Rattle.dv_shelf.specs.Clocks.{behind};
ghost use Rattle.dv_shelf.specs.Crashes.{IsSettled};
ghost use Rattle.dv_cli.specs.Causes.{HasRunCause, counts_of};
ghost use Rattle.dv_cli.specs.Rebuilding.{RebuildsFolder, rebuilt_end, rebuilt_told};
ghost use Rattle.dv_cli.specs.Spans.{times_of};
ghost use Rattle.dv_cli.specs.Tasks.{EndsBy};
ghost use Rattle.dv_cli.specs.Told.{IsToldAt};
ghost use Rattle.dv_cli.specs.declared.words.Task.TheVariants as task;

use crate::ending::End;
use crate::running::Outcome;
use dv_model::OpenFault;
use dv_notices::Told;
use dv_rebuild::{RebuildFault, Rebuilt, rebuild};
use dv_shelf::{Clock, Shelf};
use std::alloc::Global;

/// How a rebuild ends a run.
fn rebuilt_end(rebuilt: &Result<Rebuilt, RebuildFault>) -> End
    ensures { result ≡ rebuilt_end rebuilt.now }
{
    match rebuilt {
        Ok(rebuilt) => End::Rebuilt {
            kept: rebuilt.kept,
            skipped: rebuilt.skipped,
        },
        Err(RebuildFault::Disk(faults)) => End::Unopened(OpenFault::Disk(*faults)),
        Err(RebuildFault::NoMemory) => End::NoMemory,
    }
}

/// What is told of a rebuild.
fn rebuilt_told(rebuilt: Result<Rebuilt, RebuildFault>) -> Told
    ensures { result ≡ rebuilt_told rebuilt }
{
    match rebuilt {
        Ok(rebuilt) => Told::Rebuilt(rebuilt),
        Err(_) => Told::Nothing,
    }
}

/// Rebuilds the folder.
pub fn run_rebuild<S: Shelf, C: Clock>(alloc: Global, mut shelf: S, mut clock: C) -> Outcome<S, C>
    ensures rebuilds { S.sees.tells → IsSettled S.sees shelf →
        RebuildsFolder S.sees (times_of C.sees clock result.clock) result.end result.told shelf
        result.shelf }
    // Each end is of a rebuild and has its cause, and the clock is read once.
    ensures ends { EndsBy (Some task.Rebuild) result.end × IsToldAt result.end result.told }
    ensures cause { (source output : ℕ) → HasRunCause
        (counts_of (S.sees.fault_count shelf) source output)
        (counts_of (S.sees.fault_count result.shelf) source output) result.end }
    ensures readings { C.sees.tells → C.sees.upcoming result.clock
        ≡ behind (C.sees.upcoming clock) 1 }
{
    let rebuilt = rebuild(alloc, &mut shelf, &mut clock);
    Outcome {
        end: rebuilt_end(&rebuilt),
        told: rebuilt_told(rebuilt),
        shelf,
        clock,
    }
}
