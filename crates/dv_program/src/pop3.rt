//! A script that a POP3 session (RFC 1939) is given in a mailbox folder.

ghost use Rattle.std.specs.Prelude.{◌≡◌, ℕ, Err, List, MatchBool, Some, take};
ghost use Rattle.dv_model.specs.Counts.{Rose};
ghost use Rattle.dv_shelf.specs.Crashes.{IsSettled};
ghost use Rattle.dv_shelf.specs.Folders.{Folder};
ghost use Rattle.dv_formats.specs.Parsing.{ScriptFault};
ghost use Rattle.dv_maildrop.specs.Scripts.{script_commands};
ghost use Rattle.dv_maildrop.specs.declared.types.PopLine.{PopLine};
ghost use Rattle.dv_serving.specs.Faults.{faults_of};
ghost use Rattle.dv_serving.specs.NextRuns.{IsTrueFolder};
ghost use Rattle.dv_serving.specs.Outputs.{output_of};
ghost use Rattle.dv_serving.specs.Readings.{AtReadings};
ghost use Rattle.dv_beginning.specs.Causes.{HasFault};
ghost use Rattle.dv_pop3_serving.specs.Ends.{IsCaused};
ghost use Rattle.dv_pop3_serving.specs.declared.ending.PopEnd.TheVariants as ending;
ghost use Rattle.dv_notices.specs.declared.telling.Told.TheVariants as telling;
ghost use Rattle.dv_cli.specs.Causes.{EndCause, EndsRefused, FolderCause, HasCauses, HasRunCause, IsByFolder, IsUntouched, TellsFaults, TellsScript, counts_of};
ghost use Rattle.dv_cli.specs.Readings.{TakesFront, read_limit};
ghost use Rattle.dv_cli.specs.Spans.{times_from};
ghost use Rattle.dv_cli.specs.Tasks.{EndsBy, Reaches};
ghost use Rattle.dv_cli.specs.Told.{IsToldBy, TellsFault};
ghost use Rattle.dv_cli.specs.Wholes.{IsRefused};
ghost use Rattle.dv_cli.specs.declared.words.Task.TheVariants as task;
ghost use Rattle.dv_program.specs.Forms.{without_commands};
ghost use Rattle.dv_program.specs.Pop3.{IsDiskCaused, IsPop3Run, RunsMaildrop, RunsPop3, pop_end};
ghost use Rattle.dv_program.specs.Readings.{TakesUnlessDisk, TakesWhereRefused};

use crate::scripts::readings_are_small;
use dv_beginning::open_folder;
use dv_cli::{End, Outcome, Ran, conclude, script_text, untouched};
use dv_maildrop::{PopLines, open_lines};
use dv_model::OpenFault;
use dv_notices::Told;
use dv_pop3_serving::{PopEnd, Served, serve_pop3};
use dv_script::ScriptEnd;
use dv_shelf::{Clock, Shelf, Sink, Source};
use std::alloc::Global;
use std::sync::Wait;

/// Whether a count of failures rose, or stands at the end of its type.
fn has_risen(before: u64, now: u64) -> bool
    ensures { MatchBool result (Rose before now) (Rose before now → ⊥) }
{
    now > before || now == u64::MAX
}

/// How a run ends whose disk failed before the greeting, by how often the folder's calls had failed
/// before the run and have failed now. A failure is told only where one was counted.
fn unlisted(before: u64, now: u64) -> End
    ensures is { Rose before now → result ≡ pop_end now (ending.Disk now) }
    ensures cause { (out out_now : ℕ) → FolderCause before now out out_now result }
    ensures found { (folder : Folder) → TellsFaults folder result }
    ensures readings { (old new : ℕ → ℕ) → TakesUnlessDisk old new result }
{
    if has_risen(before, now) {
        End::Unopened(OpenFault::Disk(now))
    } else {
        End::NoMemory
    }
}

/// How a run ends, by how the session does, and by the same counts.
fn pop_end(before: u64, now: u64, end: PopEnd) -> End
    ensures is { IsDiskCaused before now end → result ≡ pop_end now end }
    ensures cause { (out out_now : ℕ) → IsCaused out out_now end →
        FolderCause before now out out_now result }
    ensures found { (folder : Folder) → (HasFault folder → ⊥) → TellsFaults folder result }
    ensures readings { (old new : ℕ → ℕ) → TakesUnlessDisk old new result }
{
    match end {
        PopEnd::Answered { mark, groups } => End::Answered {
            mark,
            groups,
            loaded: None,
        },
        PopEnd::NoMemory => End::NoMemory,
        PopEnd::Sink(_) => End::Sink,
        PopEnd::Disk(_) => unlisted(before, now),
    }
}

/// Opens or makes the mailbox, and has the lines answered in it by a POP3 session.
fn serve_folder<S: Shelf, C: Clock, O: Sink, R: Wait>(
    rt: &R,
    alloc: Global,
    lines: PopLines<'_>,
    shelf: S,
    clock: C,
    out: &mut O,
) -> Outcome<S, C>
    // Of a settled folder with a true cache: what is answered, written and left, at any moment too.
    ensures runs { S.sees.tells → IsSettled S.sees shelf → IsTrueFolder (S.sees.files shelf) →
        AtReadings C.sees.tells (C.sees.upcoming clock) (λ readings.
        RunsMaildrop S.sees (times_from C.sees readings result.clock)
        (faults_of S.sees shelf result.shelf) lines.entry result.end
        (output_of O.sees out.old out.new) shelf result.shelf) }
    // A fault that is found is told, and only where there is none all lines are answered; nothing
    // is told beside it.
    ensures found { S.sees.tells → TellsFaults (S.sees.files shelf) result.end }
    ensures quiet { result.told ≡ telling.Nothing }
    // Each end has its cause; where a fault is found the clock isn't read.
    ensures cause { EndCause (S.sees.fault_count shelf) (S.sees.fault_count result.shelf)
        (O.sees.fault_count out.old) (O.sees.fault_count out.new) result.end }
    ensures readings { C.sees.tells → TakesUnlessDisk (C.sees.upcoming clock)
        (C.sees.upcoming result.clock) result.end }
{
    let start_count = shelf.faults();
    match open_folder(alloc, shelf, clock) {
        Ok(store) => {
            let Served { end, shelf, clock } = serve_pop3(
                rt,
                alloc,
                store,
                start_count,
                lines,
                out,
            );
            let count = shelf.faults();
            Outcome {
                end: pop_end(start_count, count, end),
                told: Told::Nothing,
                shelf,
                clock,
            }
        }
        Err((shelf, clock, fault)) => Outcome {
            end: End::Unopened(fault),
            told: Told::Nothing,
            shelf,
            clock,
        },
    }
}

/// Reads the script, and has its lines answered in the folder by a POP3 session.
fn run_lines<S: Shelf, I: Source, O: Sink, C: Clock, R: Wait>(
    rt: &R,
    alloc: Global,
    shelf: S,
    script: &mut I,
    out: &mut O,
    clock: C,
) -> Outcome<S, C>
    // A good script is answered, unless it couldn't be read.
    ensures runs { S.sees.tells → I.sees.tells → IsSettled S.sees shelf →
        IsTrueFolder (S.sees.files shelf) → (lines : List PopLine) →
        script_commands (I.sees.left script.old) ≡ Some lines →
        AtReadings C.sees.tells (C.sees.upcoming clock) (λ readings.
        RunsPop3 S.sees (times_from C.sees readings result.clock)
        (faults_of S.sees shelf result.shelf) lines result.end (output_of O.sees out.old out.new)
        shelf result.shelf) }
    // One that is too long leaves everything but its source untouched.
    ensures refused { I.sees.tells → (fault : ScriptFault) →
        without_commands (script_commands (I.sees.left script.old)) ≡ Err fault →
        IsUntouched shelf result.shelf clock result.clock
        × EndsRefused fault result.end × (out.new ≡ out.old) }
    // What the script and the folder hold is told, and each end has its cause.
    ensures found { (S.sees.tells → TellsFaults (S.sees.files shelf) result.end)
        × (I.sees.tells →
        TellsScript (without_commands (script_commands (I.sees.left script.old))) result.end) }
    ensures ends { EndsBy (Some task.Run) result.end × (result.told ≡ telling.Nothing) }
    ensures cause { HasRunCause
        (counts_of (S.sees.fault_count shelf) (I.sees.fault_count script.old)
        (O.sees.fault_count out.old))
        (counts_of (S.sees.fault_count result.shelf) (I.sees.fault_count script.new)
        (O.sees.fault_count out.new))
        result.end }
    ensures bound { I.sees.tells → TakesFront (I.sees.left script.old) (I.sees.left script.new) }
    ensures readings { C.sees.tells → TakesUnlessDisk (C.sees.upcoming clock)
        (C.sees.upcoming result.clock) result.end }
{
    readings_are_small::<C>();
    let text = match script_text(alloc, script) {
        Ok(text) => text,
        Err(end) => return untouched(shelf, clock, end, Told::Nothing),
    };
    match open_lines(text.as_slice()) {
        Some(lines) => serve_folder(rt, alloc, lines, shelf, clock, out),
        None => {
            let end = End::Script(ScriptEnd::TooLong);
            untouched(shelf, clock, end, Told::Nothing)
        }
    }
}

/// Serves a mailbox folder to a POP3 session, whose lines are the script's, and writes a last line.
pub fn run_pop3<S: Shelf, I: Source, O: Sink, C: Clock, R: Wait>(
    rt: &R,
    alloc: Global,
    shelf: S,
    script: &mut I,
    out: &mut O,
    clock: C,
) -> Ran<S, C>
    // A good script is answered by the session.
    ensures pops { S.sees.tells → I.sees.tells → IsSettled S.sees shelf →
        IsTrueFolder (S.sees.files shelf) → (lines : List PopLine) →
        script_commands (I.sees.left script.old) ≡ Some lines →
        AtReadings C.sees.tells (C.sees.upcoming clock) (λ readings.
        IsPop3Run S.sees (times_from C.sees readings result.clock)
        (counts_of (S.sees.fault_count shelf) (I.sees.fault_count script.old)
        (O.sees.fault_count out.old))
        (counts_of (S.sees.fault_count result.shelf) (I.sees.fault_count script.new)
        (O.sees.fault_count out.new))
        lines result.status (output_of O.sees out.old out.new) shelf result.shelf) }
    // One that is too long leaves folder and clock untouched.
    ensures refused { I.sees.tells → (fault : ScriptFault) →
        without_commands (script_commands (I.sees.left script.old)) ≡ Err fault →
        IsUntouched shelf result.shelf clock result.clock × IsRefused fault
        (counts_of (S.sees.fault_count shelf) (I.sees.fault_count script.old)
        (O.sees.fault_count out.old))
        (counts_of (S.sees.fault_count result.shelf) (I.sees.fault_count script.new)
        (O.sees.fault_count out.new))
        result.status (output_of O.sees out.old out.new)
        × TellsFault fault (take read_limit (I.sees.left script.old)) result.told }
    // What each status comes from, and what it says.
    ensures causes { IsToldBy (Some task.Run) result.status result.told
        × HasCauses result.status (Some task.Run)
        (counts_of (S.sees.fault_count shelf) (I.sees.fault_count script.old)
        (O.sees.fault_count out.old))
        (counts_of (S.sees.fault_count result.shelf) (I.sees.fault_count script.new)
        (O.sees.fault_count out.new))
        (S.sees.tells → HasFault (S.sees.files shelf))
        (I.sees.tells → (fault : ScriptFault)
        × (without_commands (script_commands (I.sees.left script.old)) ≡ Err fault)) }
    ensures complete { S.sees.tells → Reaches (Some task.Run) I.sees.tells
        (without_commands (script_commands (I.sees.left script.old))) →
        IsByFolder (C.sees.upcoming clock) (S.sees.files shelf) result.status
        (counts_of (S.sees.fault_count shelf) (I.sees.fault_count script.old)
        (O.sees.fault_count out.old))
        (counts_of (S.sees.fault_count result.shelf) (I.sees.fault_count script.new)
        (O.sees.fault_count out.new)) }
    // What is taken of the script, and when the clock isn't read.
    ensures bound { I.sees.tells → TakesFront (I.sees.left script.old) (I.sees.left script.new) }
    ensures readings { C.sees.tells → TakesWhereRefused result.status (C.sees.upcoming clock)
        (C.sees.upcoming result.clock) }
{
    let Outcome {
        end,
        told,
        shelf,
        clock,
    } = run_lines(rt, alloc, shelf, script, out, clock);
    let status = conclude(alloc, out, &end);
    Ran {
        status,
        told,
        shelf,
        clock,
    }
}
