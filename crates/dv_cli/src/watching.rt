//! The lines of a script in a mailbox that was opened, beside a search that is kept of it.

ghost use Rattle.std.specs.Prelude.{◌≡◌, ◌≤◌, ◌*◌, ◌^◌, ℕ, All, IfOk, length};
ghost use Rattle.dv_formats.specs.Scripts.{IsScript, NamedLine, sessions_of};
ghost use Rattle.dv_script.specs.Opened.{OpensAs, lines_left};
ghost use Rattle.dv_serving.specs.Outputs.{output_of};
ghost use Rattle.dv_serving.specs.Readings.{AreReadings, AtReadings, TakesUpTo};
ghost use Rattle.dv_serving.specs.Servable.{IsServable};
ghost use Rattle.dv_beginning.specs.Begins.{IsBegun};
ghost use Rattle.dv_cli.specs.Causes.{EndCause, EndsServing};
ghost use Rattle.dv_cli.specs.Spans.{times_from};
ghost use Rattle.dv_cli.specs.Tasks.{parsed_with};
ghost use Rattle.dv_cli.specs.Watching.{ServesBeside};
ghost use Rattle.dv_cli.specs.Words.{IsKept};
ghost use Rattle.dv_notices.specs.declared.telling.Told.TheVariants as telling;

use crate::ending::End;
use crate::running::{Outcome, end_behind};
use dv_model::Key;
use dv_notices::Told;
use dv_script::{Lines, Script, ScriptEnd, open_script, open_script_beside};
use dv_shelf::{Clock, Gate, Shelf, Sink};
use dv_store::Store;
use dv_watching::{begin, told_is_searched, watch_lines};
use std::alloc::Global;

/// Opens a script; where a search is to be kept beside its sessions, they are one fewer at most.
pub fn open_with<'a>(
    alloc: Global,
    beside: &Option<Key>,
    text: &'a [u8],
) -> Result<Script<'a>, ScriptEnd>
    ensures lines { OpensAs result (parsed_with beside.now text.now) }
    ensures few { IfOk result (λ script. length (lines_left script.lines) ≤ length text.now) }
    ensures sessions { IfOk result (λ script.
        script.sessions ≡ length (sessions_of (lines_left script.lines))) }
    ensures found { IfOk result (λ script. IsScript (lines_left script.lines) text.now) }
{
    match beside {
        Some(_) => open_script_beside(alloc, text),
        None => open_script(alloc, text),
    }
}

/// Answers the lines of a script in a mailbox that was opened, to as many sessions, and keeps a
/// search beside them.
pub fn serve_beside<S: Shelf, C: Clock, L: Lines, O: Sink, G: Gate>(
    alloc: Global,
    store: Store<S, C>,
    key: Key,
    lines: &mut L,
    sessions: u32,
    out: &mut O,
    gate: &G,
) -> Outcome<S, C>
    requires kept { IsKept key }
    requires servable { All (λ (line : NamedLine). IsServable line.1) (L.left lines.old) }
    requires few { length (L.left lines.old) ≤ 2 ^ 26 }
    requires sessions { sessions ≡ length (sessions_of (L.left lines.old)) }
    // Where the store is one from which a run begins: what is answered, written and left.
    ensures runs { S.sees.tells → (clock : ℕ → ℕ) (old : S) → AreReadings clock →
        IsBegun S.sees C.sees clock old store →
        (base : ℕ) → base ≤ S.sees.fault_count store.shelf →
        AtReadings C.sees.tells clock (λ readings.
        ServesBeside S.sees (times_from C.sees readings result.clock)
        (record { before = base; now = S.sees.fault_count result.shelf }) key (L.left lines.old)
        result.end (output_of O.sees out.old out.new) old result.shelf) }
    ensures ends { EndsServing result.end × (result.told ≡ telling.Nothing) }
    ensures cause { EndCause (S.sees.fault_count store.shelf) (S.sees.fault_count result.shelf)
        (O.sees.fault_count out.old) (O.sees.fault_count out.new) result.end }
    ensures readings { C.sees.tells →
        TakesUpTo (2 * length (L.left lines.old)) (C.sees.upcoming store.clock)
        (C.sees.upcoming result.clock) }
{
    told_is_searched();
    match begin(alloc, store, sessions, key) {
        Ok((mut serial, mut saved)) => {
            let served = watch_lines(alloc, &mut serial, &mut saved, lines, gate, out);
            let end = end_behind(served, serial.mark(), serial.count(), None);
            let (shelf, clock) = serial.parts();
            Outcome {
                end,
                told: Told::Nothing,
                shelf,
                clock,
            }
        }
        Err((shelf, clock)) => Outcome {
            end: End::NoMemory,
            told: Told::Nothing,
            shelf,
            clock,
        },
    }
}
