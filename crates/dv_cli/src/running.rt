//! The lines of a script in a mailbox that was opened.

ghost use Rattle.std.specs.Prelude.{◌≡◌, ◌≤◌, ◌*◌, ◌^◌, ℕ, All, length};
ghost use Rattle.dv_cli.specs.declared.ending.End.TheVariants as how;
ghost use Rattle.dv_notices.specs.declared.telling.Told.TheVariants as telling;
ghost use Rattle.dv_formats.specs.Scripts.{NamedLine, sessions_of};
ghost use Rattle.dv_serving.specs.Outputs.{output_of};
ghost use Rattle.dv_serving.specs.Readings.{AreReadings, AtReadings, TakesUpTo};
ghost use Rattle.dv_serving.specs.Servable.{IsServable};
ghost use Rattle.dv_beginning.specs.Begins.{IsBegun};
ghost use Rattle.dv_cli.specs.Behind.{end_behind, loaded_by};
ghost use Rattle.dv_cli.specs.Causes.{EndCause, EndsServing};
ghost use Rattle.dv_cli.specs.Runs.{ServesLines};
ghost use Rattle.dv_cli.specs.Spans.{times_from};

use crate::ending::{End, Loaded};
use crate::words::Load;
use dv_model::Mark;
use dv_notices::Told;
use dv_script::Lines;
use dv_serial::{LineEnd, Serial, new_seats};
use dv_shelf::{Clock, Gate, Shelf, Sink};
use dv_store::Store;
use std::alloc::Global;

/// How a run ends and what it tells beside its output, with the folder and the clock.
pub struct Outcome<S, C> {
    pub end: End,
    pub told: Told,
    pub shelf: S,
    pub clock: C,
}

/// What is told of a generated load, with the mailbox as it is.
fn loaded_by<S: Shelf, C: Clock>(load: Option<Load>, serial: &Serial<S, C>) -> Option<Loaded>
    ensures { result ≡ loaded_by load serial.now.store.chain.live.mailbox }
{
    let load = load?;
    Some(Loaded {
        load,
        exists: serial.message_count(),
        next_uid: serial.next_uid(),
    })
}

/// How a run ends behind its lines.
pub fn end_behind(
    served: Result<(), LineEnd>,
    mark: Mark,
    groups: u64,
    loaded: Option<Loaded>,
) -> End
    ensures { result ≡ end_behind served mark groups loaded }
{
    match served {
        Ok(()) => End::Answered {
            mark,
            groups,
            loaded,
        },
        Err(LineEnd::NoMemory) => End::NoMemory,
        Err(LineEnd::Sink(_)) => End::Sink,
    }
}

/// The outcome where the folder isn't touched.
pub fn untouched<S, C>(shelf: S, clock: C, end: End, told: Told) -> Outcome<S, C>
    ensures end { result.end ≡ end }
    ensures told { result.told ≡ told }
    ensures shelf { result.shelf ≡ shelf }
    ensures clock { result.clock ≡ clock }
{
    Outcome {
        end,
        told,
        shelf,
        clock,
    }
}

/// The outcome where memory ran out before the first line.
fn unserved<S, C>(store: Store<S, C>) -> Outcome<S, C>
    ensures { result ≡ record {
      end = how.NoMemory;
      told = telling.Nothing;
      shelf = store.shelf;
      clock = store.clock;
    } }
{
    let (shelf, clock) = store.parts();
    Outcome {
        end: End::NoMemory,
        told: Told::Nothing,
        shelf,
        clock,
    }
}

/// Answers the lines of a script in a mailbox that was opened, to as many sessions.
/// Where they are of a generated load, it is told at the end.
pub fn serve_lines<S: Shelf, C: Clock, L: Lines, O: Sink, G: Gate>(
    alloc: Global,
    store: Store<S, C>,
    load: Option<Load>,
    lines: &mut L,
    sessions: u32,
    out: &mut O,
    gate: &G,
) -> Outcome<S, C>
    requires servable { All (λ (line : NamedLine). IsServable line.1) (L.left lines.old) }
    requires few { length (L.left lines.old) ≤ 2 ^ 26 }
    requires sessions { sessions ≡ length (sessions_of (L.left lines.old)) }
    // Where the store is one from which a run begins: what is answered, written and left.
    ensures runs { S.sees.tells → (clock : ℕ → ℕ) (old : S) → AreReadings clock →
        IsBegun S.sees C.sees clock old store →
        (base : ℕ) → base ≤ S.sees.fault_count store.shelf →
        AtReadings C.sees.tells clock (λ readings.
        ServesLines S.sees (times_from C.sees readings result.clock)
        (record { before = base; now = S.sees.fault_count result.shelf }) load (L.left lines.old)
        result.end (output_of O.sees out.old out.new) old result.shelf) }
    ensures ends { EndsServing result.end × (result.told ≡ telling.Nothing) }
    ensures cause { EndCause (S.sees.fault_count store.shelf) (S.sees.fault_count result.shelf)
        (O.sees.fault_count out.old) (O.sees.fault_count out.new) result.end }
    ensures readings { C.sees.tells →
        TakesUpTo (2 * length (L.left lines.old)) (C.sees.upcoming store.clock)
        (C.sees.upcoming result.clock) }
{
    let Ok(seats) = new_seats(alloc, sessions) else {
        return unserved(store);
    };
    let mut serial = Serial::new(alloc, store, seats);
    let served = serial.serve_lines(lines, gate, out);
    let loaded = loaded_by(load, &serial);
    let end = end_behind(served, serial.mark(), serial.count(), loaded);
    let (shelf, clock) = serial.parts();
    Outcome {
        end,
        told: Told::Nothing,
        shelf,
        clock,
    }
}
