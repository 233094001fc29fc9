//! A script that was read, by who answers it.

ghost use Rattle.std.specs.Prelude.{◌≡◌, ◌≤◌, ◌^◌, ℕ, IfErr, IfOk, length};
ghost use Rattle.dv_shelf.specs.Crashes.{IsSettled};
ghost use Rattle.dv_script.specs.Sources.{ScriptFails};
ghost use Rattle.dv_serving.specs.Faults.{faults_of};
ghost use Rattle.dv_serving.specs.Outputs.{output_of};
ghost use Rattle.dv_serving.specs.Readings.{AtReadings};
ghost use Rattle.dv_cli.specs.Causes.{EndCause, TellsFaults};
ghost use Rattle.dv_cli.specs.Scripts.{AnswersOpened, MayBegin, MayRead, MayServe, SaysOf, TakesForOpened};
ghost use Rattle.dv_cli.specs.Spans.{times_from};
ghost use Rattle.dv_cli.specs.Tasks.{parsed_by};
ghost use Rattle.dv_notices.specs.declared.telling.Told.TheVariants as telling;

use crate::beside::{Beside, beside_of, run_folder};
use crate::running::Outcome;
use crate::storing::run_calls;
use crate::watching::open_with;
use dv_mdbox_lines::{Calls, open_lines};
use dv_model::Key;
use dv_script::{Script, ScriptEnd};
use dv_shelf::{Clock, Gate, Shelf, Sink};
use std::alloc::Global;

/// Who answers a script.
#[derive(Drop)]
pub enum Reader {
    /// The sessions of a mailbox; where there is a key, beside a search with it that is kept.
    Sessions(Option<Key>),
    /// A storage.
    Storage,
}

/// A script that was opened.
#[derive(Drop)]
pub enum Opened<'a> {
    /// The lines of a mailbox's sessions, with what stands beside them.
    Lines(Script<'a>, Beside),
    /// The calls on a storage.
    Calls(Calls<'a>),
}

/// Opens a script for who answers it.
pub fn open_for<'a>(alloc: Global, reader: Reader, text: &'a [u8]) -> Result<Opened<'a>, ScriptEnd>
    requires kept { MayRead reader }
    ensures opens { IfOk result (SaysOf reader text.now) }
    ensures fails { IfErr result (λ e. ScriptFails e (parsed_by reader text.now)) }
{
    match reader {
        Reader::Sessions(search) => match open_with(alloc, &search, text) {
            Ok(script) => Ok(Opened::Lines(script, beside_of(search))),
            Err(end) => Err(end),
        },
        Reader::Storage => match open_lines(text) {
            Ok(calls) => Ok(Opened::Calls(calls)),
            Err(end) => Err(end),
        },
    }
}

/// Opens or makes the mailbox or the storage of a folder, and answers a script in it.
pub fn run_opened<S: Shelf, C: Clock, O: Sink, G: Gate>(
    alloc: Global,
    opened: Opened<'_>,
    shelf: S,
    clock: C,
    out: &mut O,
    gate: &G,
) -> Outcome<S, C>
    requires serves { MayServe opened }
    // Of a settled folder from which it may begin: what is answered, written and left, at any
    // moment too.
    ensures runs { S.sees.tells → IsSettled S.sees shelf →
        MayBegin opened.entry (S.sees.files shelf) →
        AtReadings C.sees.tells (C.sees.upcoming clock) (λ readings.
        AnswersOpened opened.entry S.sees (times_from C.sees readings result.clock)
        (faults_of S.sees shelf result.shelf) result.end (output_of O.sees out.old out.new) shelf
        result.shelf) }
    // A fault that is found is told, and only where there is none the script is answered; nothing
    // is told beside it.
    ensures found { S.sees.tells → TellsFaults (S.sees.files shelf) result.end }
    ensures quiet { result.told ≡ telling.Nothing }
    // Each end has its cause, and the clock is read so often.
    ensures cause { EndCause (S.sees.fault_count shelf) (S.sees.fault_count result.shelf)
        (O.sees.fault_count out.old) (O.sees.fault_count out.new) result.end }
    ensures readings { C.sees.tells → TakesForOpened opened.entry (C.sees.upcoming clock)
        (C.sees.upcoming result.clock) result.end }
{
    match opened {
        Opened::Lines(script, beside) => {
            let Script {
                mut lines,
                sessions,
            } = script;
            run_folder(alloc, beside, &mut lines, sessions, shelf, clock, out, gate)
        }
        Opened::Calls(calls) => run_calls(alloc, calls, shelf, clock, out),
    }
}
