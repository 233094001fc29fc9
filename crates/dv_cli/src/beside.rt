//! The lines of a script over a mailbox folder, by what stands beside them.

ghost use Rattle.std.specs.Prelude.{◌≡◌, ◌≤◌, ◌*◌, ◌^◌, ℕ, All, length};
ghost use Rattle.dv_shelf.specs.Crashes.{IsSettled};
ghost use Rattle.dv_formats.specs.Scripts.{NamedLine, sessions_of};
ghost use Rattle.dv_serving.specs.Faults.{faults_of};
ghost use Rattle.dv_serving.specs.NextRuns.{IsTrueFolder};
ghost use Rattle.dv_serving.specs.Outputs.{output_of};
ghost use Rattle.dv_serving.specs.Readings.{AreReadings, AtReadings, TakesUpTo};
ghost use Rattle.dv_serving.specs.Servable.{IsServable};
ghost use Rattle.dv_beginning.specs.Begins.{IsBegun};
ghost use Rattle.dv_cli.specs.Beside.{MayStand, RunsWith, ServesWith, beside_of};
ghost use Rattle.dv_cli.specs.Causes.{EndCause, EndsServing, TakesForRun, TellsFaults};
ghost use Rattle.dv_cli.specs.Spans.{times_from};
ghost use Rattle.dv_notices.specs.declared.telling.Told.TheVariants as telling;

use crate::ending::End;
use crate::running::{Outcome, serve_lines};
use crate::watching::serve_beside;
use crate::words::Load;
use dv_beginning::open_folder;
use dv_model::Key;
use dv_notices::Told;
use dv_script::Lines;
use dv_shelf::{Clock, Gate, Shelf, Sink};
use dv_store::Store;
use std::alloc::Global;

/// What stands beside the lines of a script.
#[derive(Drop)]
pub enum Beside {
    Nothing,
    /// They are generated, and the load is told at the end.
    Load(Load),
    /// What a search with this key finds is told behind each command that wrote a group.
    Search(Key),
}

/// A search with this key, or nothing.
pub fn beside_of(search: Option<Key>) -> Beside
    ensures { result ≡ beside_of search }
{
    match search {
        Some(key) => Beside::Search(key),
        None => Beside::Nothing,
    }
}

/// Answers the lines of a script in a mailbox that was opened, to as many sessions, with what
/// stands beside them.
fn serve_with<S: Shelf, C: Clock, L: Lines, O: Sink, G: Gate>(
    alloc: Global,
    store: Store<S, C>,
    beside: Beside,
    lines: &mut L,
    sessions: u32,
    out: &mut O,
    gate: &G,
) -> Outcome<S, C>
    requires stands { MayStand beside }
    requires servable { All (λ (line : NamedLine). IsServable line.1) (L.left lines.old) }
    requires few { length (L.left lines.old) ≤ 2 ^ 26 }
    requires sessions { sessions ≡ length (sessions_of (L.left lines.old)) }
    // Where the store is one from which a run begins: what is answered, written and left.
    ensures runs { S.sees.tells → (clock : ℕ → ℕ) (old : S) → AreReadings clock →
        IsBegun S.sees C.sees clock old store →
        (base : ℕ) → base ≤ S.sees.fault_count store.shelf →
        AtReadings C.sees.tells clock (λ readings.
        ServesWith beside S.sees (times_from C.sees readings result.clock)
        (record { before = base; now = S.sees.fault_count result.shelf }) (L.left lines.old)
        result.end (output_of O.sees out.old out.new) old result.shelf) }
    ensures ends { EndsServing result.end × (result.told ≡ telling.Nothing) }
    ensures cause { EndCause (S.sees.fault_count store.shelf) (S.sees.fault_count result.shelf)
        (O.sees.fault_count out.old) (O.sees.fault_count out.new) result.end }
    ensures readings { C.sees.tells →
        TakesUpTo (2 * length (L.left lines.old)) (C.sees.upcoming store.clock)
        (C.sees.upcoming result.clock) }
{
    match beside {
        Beside::Nothing => serve_lines(alloc, store, None, lines, sessions, out, gate),
        Beside::Load(load) => serve_lines(alloc, store, Some(load), lines, sessions, out, gate),
        Beside::Search(key) => serve_beside(alloc, store, key, lines, sessions, out, gate),
    }
}

/// Opens or makes the mailbox, and answers the lines in it, with what stands beside them.
pub fn run_folder<S: Shelf, C: Clock, L: Lines, O: Sink, G: Gate>(
    alloc: Global,
    beside: Beside,
    lines: &mut L,
    sessions: u32,
    shelf: S,
    clock: C,
    out: &mut O,
    gate: &G,
) -> Outcome<S, C>
    requires stands { MayStand beside }
    requires servable { All (λ (line : NamedLine). IsServable line.1) (L.left lines.old) }
    requires few { length (L.left lines.old) ≤ 2 ^ 26 }
    requires sessions { sessions ≡ length (sessions_of (L.left lines.old)) }
    // Of a settled folder with a true cache: what is answered, written and left, at any moment too.
    ensures runs { S.sees.tells → IsSettled S.sees shelf → IsTrueFolder (S.sees.files shelf) →
        AtReadings C.sees.tells (C.sees.upcoming clock) (λ readings.
        RunsWith beside S.sees (times_from C.sees readings result.clock)
        (faults_of S.sees shelf result.shelf) (L.left lines.old) result.end
        (output_of O.sees out.old out.new) shelf result.shelf) }
    // A fault that is found is told, and only where there is none all lines are answered; nothing
    // is told beside it.
    ensures found { S.sees.tells → TellsFaults (S.sees.files shelf) result.end }
    ensures quiet { result.told ≡ telling.Nothing }
    // Each end has its cause, and the clock is read so often.
    ensures cause { EndCause (S.sees.fault_count shelf) (S.sees.fault_count result.shelf)
        (O.sees.fault_count out.old) (O.sees.fault_count out.new) result.end }
    ensures readings { C.sees.tells → TakesForRun (length (L.left lines.old))
        (C.sees.upcoming clock) (C.sees.upcoming result.clock) result.end }
{
    match open_folder(alloc, shelf, clock) {
        Ok(store) => serve_with(alloc, store, beside, lines, sessions, out, gate),
        Err((shelf, clock, fault)) => Outcome {
            end: End::Unopened(fault),
            told: Told::Nothing,
            shelf,
            clock,
        },
    }
}
