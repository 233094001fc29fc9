//! The whole run.

ghost use Rattle.std.specs.Prelude.{◌≡◌, ◌≢◌, ◌⊎◌, ◌≤◌, ℕ, Err, IfErr, IfOk, List, None, Ok, Option, Result, Some, length, map, string_bytes, take};
ghost use Rattle.dv_shelf.specs.Crashes.{IsSettled};
ghost use Rattle.dv_shelf.specs.Streams.{Appends};
ghost use Rattle.dv_formats.specs.Parsing.{ScriptFault};
ghost use Rattle.dv_formats.specs.Scripts.{NamedLine};
ghost use Rattle.dv_serving.specs.NextRuns.{IsTrueFolder};
ghost use Rattle.dv_serving.specs.Outputs.{output_of};
ghost use Rattle.dv_serving.specs.Readings.{AtReadings, TakesUpTo};
ghost use Rattle.dv_cli.specs.Causes.{AnyRose, EndsRefused, HasCauses, HasRunCause, IsByFolder, IsRead, IsReadEnd, IsTimed, IsUntouched, ScriptEnds, TakesByEnd, TellsFaults, TellsScript, counts_of, most_readings};
ghost use Rattle.dv_beginning.specs.Causes.{HasFault};
ghost use Rattle.dv_cli.specs.Outputs.{IsFolderOf, IsOutputOf};
ghost use Rattle.dv_cli.specs.Readings.{TakesFront, read_limit};
ghost use Rattle.dv_cli.specs.Rebuilding.{RebuildsFolder};
ghost use Rattle.dv_cli.specs.Resyncing.{IsClientRun, RunsClient};
ghost use Rattle.dv_qresync.specs.declared.types.Old.{Old};
ghost use Rattle.dv_model.specs.declared.types.Key.{Key};
ghost use Rattle.dv_cli.specs.Spans.{times_from, times_of};
ghost use Rattle.dv_serving.specs.Faults.{faults_of};
ghost use Rattle.dv_script.specs.Beside.{parsed_beside};
ghost use Rattle.dv_cli.specs.Tasks.{Answers, EndsBy, HasScript, Reaches, parsed_by, parsed_for, parsed_with, script_task};
ghost use Rattle.dv_cli.specs.Told.{IsToldAt, IsToldBy, TellsEnd, TellsFault};
ghost use Rattle.dv_cli.specs.Wholes.{IsRebuildRun, IsRefused, IsRun, IsUnread, RunsTask};
ghost use Rattle.dv_cli.specs.Scripts.{AreAlike, MayBeginBy, MayRead, RunsScript, TakesForScript};
ghost use Rattle.dv_cli.specs.Storing.{IsStorageRun};
ghost use Rattle.dv_cli.specs.declared.scripts.Reader.{Reader};
ghost use Rattle.dv_mdbox_lines.specs.Scripts as storage;
ghost use Rattle.dv_mdbox_lines.specs.Scripts.{Call};
ghost use Rattle.dv_cli.specs.Watching.{IsWatchRun};
ghost use Rattle.dv_cli.specs.Words.{task_of};
ghost use Rattle.dv_cli.specs.WrongWords.{EndsUsage, IsUsageStatus, PrintsUsage};
ghost use Rattle.dv_cli.specs.declared.ending.End.TheVariants as how;
ghost use Rattle.dv_cli.specs.declared.words.Task.TheVariants as task;

use crate::ending::{End, conclude};
use crate::loading::run_load;
use crate::reading::{ReadEnd, read_script};
use crate::rebuilding::run_rebuild;
use crate::resyncing::run_resync;
use crate::running::{Outcome, untouched};
use crate::scripts::{Reader, open_for, run_opened};
use crate::words::{Task, task_of};
use dv_model::Bytes;
use dv_notices::{Told, told_line};
use dv_script::ScriptEnd;
use dv_serving::commands_are_servable;
use dv_shelf::{Clock, Gate, Shelf, Sink, Source};
use std::alloc::Global;

/// What a run leaves: its exit status, what it tells beside its output, the folder and the clock.
pub struct Ran<S, C> {
    pub status: u8,
    pub told: Told,
    pub shelf: S,
    pub clock: C,
}

/// The script's text, or how a run without it ends.
pub fn script_text<I: Source>(alloc: Global, script: &mut I) -> Result<Bytes, End>
    ensures text { I.sees.tells → IfOk result (λ text. AreAlike text (I.sees.left script.old)) }
    ensures front { I.sees.tells →
        IfOk result (λ text. text ≡ take read_limit (I.sees.left script.old)) }
    ensures unread { IfErr result (λ e. (read : Result (List NamedLine) ScriptFault) →
        ScriptEnds e read) }
    ensures bound { I.sees.tells → TakesFront (I.sees.left script.old) (I.sees.left script.new) }
    ensures later { I.sees.fault_count script.old ≤ I.sees.fault_count script.new }
    ensures cause { IfErr result (λ e.
        IsReadEnd e (I.sees.fault_count script.old) (I.sees.fault_count script.new)) }
{
    match read_script(alloc, script) {
        Ok(text) => Ok(text),
        Err(ReadEnd::Source(faults)) => Err(End::Source(faults)),
        Err(ReadEnd::NoMemory) => Err(End::NoMemory),
    }
}

/// What is told of a script that is refused: its first bad line, where there is memory for it.
pub fn told_of(alloc: Global, text: &[u8], end: ScriptEnd) -> Told
    ensures line { TellsEnd text.now (how.Script end) result }
    ensures at { IsToldAt (how.Script end) result }
{
    let number = match end {
        ScriptEnd::BadLine { line } => line,
        ScriptEnd::ShortLiteral { line } => line,
        ScriptEnd::TooLong | ScriptEnd::NoMemory => return Told::Nothing,
    };
    match told_line(alloc, text, number) {
        Ok(line) => Told::BadLine(line),
        Err(_) => Told::Nothing,
    }
}

/// Reads the script, and has it answered in the folder.
fn run_script<S: Shelf, I: Source, O: Sink, C: Clock, G: Gate>(
    alloc: Global,
    reader: Reader,
    shelf: S,
    script: &mut I,
    out: &mut O,
    clock: C,
    gate: &G,
) -> Outcome<S, C>
    requires kept { MayRead reader }
    // A good script is answered, unless it couldn't be read.
    ensures runs { S.sees.tells → I.sees.tells → IsSettled S.sees shelf →
        MayBeginBy reader (S.sees.files shelf) →
        AtReadings C.sees.tells (C.sees.upcoming clock) (λ readings.
        RunsScript reader (I.sees.left script.old) S.sees (times_from C.sees readings result.clock)
        (faults_of S.sees shelf result.shelf) result.end (output_of O.sees out.old out.new) shelf
        result.shelf) }
    // One that is refused leaves everything but its source untouched.
    ensures refused { I.sees.tells → (fault : ScriptFault) →
        parsed_by reader (I.sees.left script.old) ≡ Err fault →
        IsUntouched shelf result.shelf clock result.clock
        × EndsRefused fault result.end × (out.new ≡ out.old) }
    // What the script and the folder hold is told, and each end has its cause.
    ensures found { (S.sees.tells → TellsFaults (S.sees.files shelf) result.end)
        × (I.sees.tells → TellsScript (parsed_by reader (I.sees.left script.old)) result.end
        × TellsEnd (take read_limit (I.sees.left script.old)) result.end result.told) }
    ensures ends { EndsBy (Some (script_task reader)) result.end × IsToldAt result.end result.told }
    ensures cause { HasRunCause
        (counts_of (S.sees.fault_count shelf) (I.sees.fault_count script.old)
        (O.sees.fault_count out.old))
        (counts_of (S.sees.fault_count result.shelf) (I.sees.fault_count script.new)
        (O.sees.fault_count out.new))
        result.end }
    ensures bound { I.sees.tells → TakesFront (I.sees.left script.old) (I.sees.left script.new) }
    // How often the clock is read.
    ensures readings { C.sees.tells →
        TakesByEnd (C.sees.upcoming clock) (C.sees.upcoming result.clock) result.end
        × (I.sees.tells → TakesForScript reader (I.sees.left script.old) (C.sees.upcoming clock)
        (C.sees.upcoming result.clock)) }
{
    let text = match script_text(alloc, script) {
        Ok(text) => text,
        Err(end) => return untouched(shelf, clock, end, Told::Nothing),
    };
    commands_are_servable();
    match open_for(alloc, reader, text.as_slice()) {
        Ok(opened) => run_opened(alloc, opened, shelf, clock, out, gate),
        Err(end) => {
            let told = told_of(alloc, text.as_slice(), end);
            untouched(shelf, clock, End::Script(end), told)
        }
    }
}

/// Does what the words ask for, but for the last line.
fn perform<S: Shelf, I: Source, O: Sink, C: Clock, G: Gate>(
    alloc: Global,
    words: &[String],
    shelf: S,
    script: &mut I,
    out: &mut O,
    clock: C,
    gate: &G,
) -> Outcome<S, C>
    // The lines of a script, or generated ones, are answered; a folder is rebuilt; a client with an
    // older state is answered; and a script is, beside a kept search too, or by a storage.
    ensures runs { S.sees.tells → IsSettled S.sees shelf →
        IsTrueFolder (S.sees.files shelf) → (lines : List NamedLine) →
        Answers (task_of (map string_bytes words.now)) I.sees.tells
        (parsed_for (task_of (map string_bytes words.now)) (I.sees.left script.old)) lines →
        AtReadings C.sees.tells (C.sees.upcoming clock) (λ readings.
        RunsTask S.sees (times_from C.sees readings result.clock)
        (faults_of S.sees shelf result.shelf) (task_of (map string_bytes words.now)) lines
        result.end (output_of O.sees out.old out.new) shelf result.shelf) }
    ensures rebuilds { task_of (map string_bytes words.now) ≡ Some task.Rebuild → S.sees.tells →
        IsSettled S.sees shelf → (out.new ≡ out.old)
        × RebuildsFolder S.sees (times_of C.sees clock result.clock) result.end result.told shelf
        result.shelf }
    ensures resyncs { (client : Old) →
        task_of (map string_bytes words.now) ≡ Some (task.Resync client) → S.sees.tells →
        IsSettled S.sees shelf → IsTrueFolder (S.sees.files shelf) →
        AtReadings C.sees.tells (C.sees.upcoming clock) (λ readings.
        RunsClient S.sees (times_from C.sees readings result.clock) client result.end
        (output_of O.sees out.old out.new) shelf result.shelf) }
    ensures scripts { (reader : Reader) →
        task_of (map string_bytes words.now) ≡ Some (script_task reader) → S.sees.tells →
        I.sees.tells → IsSettled S.sees shelf → MayBeginBy reader (S.sees.files shelf) →
        AtReadings C.sees.tells (C.sees.upcoming clock) (λ readings.
        RunsScript reader (I.sees.left script.old) S.sees (times_from C.sees readings result.clock)
        (faults_of S.sees shelf result.shelf) result.end (output_of O.sees out.old out.new) shelf
        result.shelf) }
    // What is left untouched where they ask for nothing, or the script is refused.
    ensures usage { task_of (map string_bytes words.now) ≡ None → (out.new ≡ out.old)
        × EndsUsage (map string_bytes words.now) result.end
        × IsUntouched shelf result.shelf clock result.clock }
    ensures refused { HasScript (task_of (map string_bytes words.now)) → I.sees.tells →
        (fault : ScriptFault) →
        parsed_for (task_of (map string_bytes words.now)) (I.sees.left script.old) ≡ Err fault →
        EndsRefused fault result.end
        × IsUntouched shelf result.shelf clock result.clock
        × (out.new ≡ out.old) }
    // What the script and the folder hold is told, and each end has its cause.
    ensures found { (S.sees.tells → TellsFaults (S.sees.files shelf) result.end)
        × (HasScript (task_of (map string_bytes words.now)) → I.sees.tells → TellsScript
        (parsed_for (task_of (map string_bytes words.now)) (I.sees.left script.old)) result.end
        × TellsEnd (take read_limit (I.sees.left script.old)) result.end result.told) }
    ensures cause { EndsBy (task_of (map string_bytes words.now)) result.end × HasRunCause
        (counts_of (S.sees.fault_count shelf) (I.sees.fault_count script.old)
        (O.sees.fault_count out.old))
        (counts_of (S.sees.fault_count result.shelf) (I.sees.fault_count script.new)
        (O.sees.fault_count out.new))
        result.end × IsToldAt result.end result.told }
    // What is taken of the script, and how often the clock is read.
    ensures bound { (I.sees.tells → TakesFront (I.sees.left script.old) (I.sees.left script.new))
        × ((HasScript (task_of (map string_bytes words.now)) → ⊥) → script.new ≡ script.old) }
    ensures readings { C.sees.tells → IsRead (task_of (map string_bytes words.now)) I.sees.tells
        (parsed_for (task_of (map string_bytes words.now)) (I.sees.left script.old)) result.end
        (C.sees.upcoming clock) (C.sees.upcoming result.clock) }
{
    let Ok(task) = task_of(alloc, words) else {
        return untouched(shelf, clock, End::NoMemory, Told::Nothing);
    };
    let Some(task) = task else {
        return untouched(shelf, clock, End::Usage, Told::Nothing);
    };
    match task {
        Task::Run => {
            let reader = Reader::Sessions(None);
            run_script(alloc, reader, shelf, script, out, clock, gate)
        }
        Task::Watch(key) => {
            let reader = Reader::Sessions(Some(key));
            run_script(alloc, reader, shelf, script, out, clock, gate)
        }
        Task::Storage => run_script(alloc, Reader::Storage, shelf, script, out, clock, gate),
        Task::Rebuild => run_rebuild(alloc, shelf, clock),
        Task::Generate(load) => run_load(alloc, load, shelf, clock, gate),
        Task::Resync(client) => run_resync(alloc, &client, shelf, clock, out),
    }
}

/// Does what the program's words behind the folder's name ask for, and writes a last line. `run`
/// serves a mailbox folder to the sessions of a script: it opens its mailbox, or makes one, answers
/// each line, and writes the replies. `gen` does so with a generated script, and writes no reply.
/// `rebuild` gives a damaged folder a new log. `resync` tells what a client with an older state of
/// the mailbox hears. `watch` serves a script as `run` does, and writes behind the replies to each
/// command that wrote a group what a search finds then. `mdbox` serves a storage folder to the
/// calls of a script: it opens its storage, or makes one, answers each call, and writes the
/// answers.
pub fn run<S: Shelf + Send, I: Source, O: Sink, C: Clock + Send, G: Gate + Sync>(
    alloc: Global,
    words: &[String],
    shelf: S,
    script: &mut I,
    out: &mut O,
    clock: C,
    gate: &G,
) -> Ran<S, C>
    // Over a settled folder whose cache file is true, with the lines of a script or generated ones.
    // Each reply is the session rules' answer over a prefix of the one log that was found, or made,
    // and that the written groups go on, line by line. The bytes written are these replies, but to
    // generated lines, and the last lines. What is left gives that log with its messages and a true
    // cache, behind all these groups, or with the group of the last write that the disk failed; and
    // so does a crash at any moment, behind a front of them. All this is so at readings, which are
    // the clock's where it tells them.
    ensures runs { S.sees.tells → IsSettled S.sees shelf →
        IsTrueFolder (S.sees.files shelf) → (lines : List NamedLine) →
        Answers (task_of (map string_bytes words.now)) I.sees.tells
        (parsed_for (task_of (map string_bytes words.now)) (I.sees.left script.old)) lines →
        AtReadings C.sees.tells (C.sees.upcoming clock) (λ readings.
        IsRun S.sees (times_from C.sees readings result.clock)
        (counts_of (S.sees.fault_count shelf) (I.sees.fault_count script.old)
        (O.sees.fault_count out.old))
        (counts_of (S.sees.fault_count result.shelf) (I.sees.fault_count script.new)
        (O.sees.fault_count out.new))
        (task_of (map string_bytes words.now)) lines result.status
        (output_of O.sees out.old out.new) shelf result.shelf) }
    // A settled folder is rebuilt at a reading, the clock's where it tells, or left as it was; so
    // does a crash at any moment.
    ensures rebuilds { task_of (map string_bytes words.now) ≡ Some task.Rebuild → S.sees.tells →
        IsSettled S.sees shelf →
        IsRebuildRun S.sees (times_of C.sees clock result.clock)
        (counts_of (S.sees.fault_count shelf) (I.sees.fault_count script.old)
        (O.sees.fault_count out.old))
        (counts_of (S.sees.fault_count result.shelf) (I.sees.fault_count script.new)
        (O.sees.fault_count out.new))
        result.status result.told (output_of O.sees out.old out.new) shelf result.shelf }

    // A client with an older state is answered from the mailbox that was found, or made, and
    // nothing else is written. The folder is left as opening leaves it, by a crash at any moment
    // too.
    ensures resyncs { (client : Old) →
        task_of (map string_bytes words.now) ≡ Some (task.Resync client) → S.sees.tells →
        IsSettled S.sees shelf → IsTrueFolder (S.sees.files shelf) →
        AtReadings C.sees.tells (C.sees.upcoming clock) (λ readings.
        IsClientRun S.sees (times_from C.sees readings result.clock)
        (counts_of (S.sees.fault_count shelf) (I.sees.fault_count script.old)
        (O.sees.fault_count out.old))
        (counts_of (S.sees.fault_count result.shelf) (I.sees.fault_count script.new)
        (O.sees.fault_count out.new))
        client result.status (output_of O.sees out.old out.new) shelf result.shelf) }

    // Beside a kept search the lines are answered in the same way. Behind the replies to each line
    // that wrote an entry stands one line with what the key finds then, which is the answer of a
    // UID SEARCH in the mailbox of the log so far; behind no other line there is one. Where memory
    // or the output ends the run a front of this text was written.
    ensures watches { (key : Key) → task_of (map string_bytes words.now) ≡ Some (task.Watch key) →
        S.sees.tells → I.sees.tells → IsSettled S.sees shelf → IsTrueFolder (S.sees.files shelf) →
        (lines : List NamedLine) → parsed_beside (I.sees.left script.old) ≡ Ok lines →
        AtReadings C.sees.tells (C.sees.upcoming clock) (λ readings.
        IsWatchRun S.sees (times_from C.sees readings result.clock)
        (counts_of (S.sees.fault_count shelf) (I.sees.fault_count script.old)
        (O.sees.fault_count out.old))
        (counts_of (S.sees.fault_count result.shelf) (I.sees.fault_count script.new)
        (O.sees.fault_count out.new))
        key lines result.status (output_of O.sees out.old out.new) shelf result.shelf) }

    // The calls of a script are answered by the storage that was found, or made. Each answer is one
    // that may come of its call behind those before, and the answers are written, and nothing else.
    // What is left gives the storage behind them, and a crash at any moment the one before a call
    // or behind it, with each message that has a reference.
    ensures stores { task_of (map string_bytes words.now) ≡ Some task.Storage → S.sees.tells →
        I.sees.tells → IsSettled S.sees shelf → (calls : List Call) →
        storage.parsed (I.sees.left script.old) ≡ Ok calls → IsStorageRun S.sees
        (counts_of (S.sees.fault_count shelf) (I.sees.fault_count script.old)
        (O.sees.fault_count out.old))
        (counts_of (S.sees.fault_count result.shelf) (I.sees.fault_count script.new)
        (O.sees.fault_count out.new))
        calls result.status (output_of O.sees out.old out.new) shelf result.shelf }

    // Words that ask for nothing leave everything untouched, and a script that is refused leaves
    // folder and clock so; what is written then. Of such a script its first bad line is told. Of
    // what may be a key it may be that memory runs out before it is seen to be none.
    ensures usage { task_of (map string_bytes words.now) ≡ None →
        IsUntouched shelf result.shelf clock result.clock
        × IsUsageStatus (map string_bytes words.now) result.status
        × (O.sees.tells → PrintsUsage (map string_bytes words.now) result.status
        (O.sees.taken out.old) (O.sees.taken out.new)) }
    ensures refused { HasScript (task_of (map string_bytes words.now)) → I.sees.tells →
        (fault : ScriptFault) →
        parsed_for (task_of (map string_bytes words.now)) (I.sees.left script.old) ≡ Err fault →
        IsUntouched shelf result.shelf clock result.clock × IsRefused fault
        (counts_of (S.sees.fault_count shelf) (I.sees.fault_count script.old)
        (O.sees.fault_count out.old))
        (counts_of (S.sees.fault_count result.shelf) (I.sees.fault_count script.new)
        (O.sees.fault_count out.new))
        result.status (output_of O.sees out.old out.new)
        × TellsFault fault (take read_limit (I.sees.left script.old)) result.told }

    // What each status comes from, and what is told beside the output; where a fault is found in
    // the folder the status is 3, and else 0, unless memory runs out or something outside fails.
    ensures causes { IsToldBy (task_of (map string_bytes words.now)) result.status result.told
        × HasCauses result.status (task_of (map string_bytes words.now))
        (counts_of (S.sees.fault_count shelf) (I.sees.fault_count script.old)
        (O.sees.fault_count out.old))
        (counts_of (S.sees.fault_count result.shelf) (I.sees.fault_count script.new)
        (O.sees.fault_count out.new))
        (S.sees.tells → HasFault (S.sees.files shelf))
        (I.sees.tells → (fault : ScriptFault) × (parsed_for
        (task_of (map string_bytes words.now)) (I.sees.left script.old) ≡ Err fault)) }
    ensures complete { S.sees.tells → Reaches (task_of (map string_bytes words.now)) I.sees.tells
        (parsed_for (task_of (map string_bytes words.now)) (I.sees.left script.old)) →
        IsByFolder (C.sees.upcoming clock) (S.sees.files shelf) result.status
        (counts_of (S.sees.fault_count shelf) (I.sees.fault_count script.old)
        (O.sees.fault_count out.old))
        (counts_of (S.sees.fault_count result.shelf) (I.sees.fault_count script.new)
        (O.sees.fault_count out.new)) }

    // Without want of memory and with nothing failed the output is a function of the words, the
    // folder, the script and the clock; of a storage it is the answers by its rules.
    ensures output { S.sees.tells → C.sees.tells → I.sees.tells → O.sees.tells →
        IsSettled S.sees shelf → IsTrueFolder (S.sees.files shelf) →
        IsFolderOf (task_of (map string_bytes words.now)) (S.sees.files shelf) →
        result.status ≢ 4 → (AnyRose
        (counts_of (S.sees.fault_count shelf) (I.sees.fault_count script.old)
        (O.sees.fault_count out.old))
        (counts_of (S.sees.fault_count result.shelf) (I.sees.fault_count script.new)
        (O.sees.fault_count out.new))
        → ⊥) → (text : List ℕ) × Appends (O.sees.taken out.old) (O.sees.taken out.new) text
        × IsOutputOf (task_of (map string_bytes words.now)) (I.sees.left script.old)
        (C.sees.upcoming clock) (S.sees.files shelf) text }

    // The script is read for `run`, `watch` and `mdbox` alone, and at most one byte more than the
    // longest script is. The clock is read once at most for a mailbox that is made, and twice at
    // most for each line; not at all where the words, the script or the folder are refused, and
    // once at most where the disk fails before the first line.
    ensures bound { (I.sees.tells → TakesFront (I.sees.left script.old) (I.sees.left script.new))
        × ((HasScript (task_of (map string_bytes words.now)) → ⊥) → script.new ≡ script.old) }
    ensures readings { C.sees.tells → IsTimed (task_of (map string_bytes words.now)) I.sees.tells
        (parsed_for (task_of (map string_bytes words.now)) (I.sees.left script.old)) result.status
        (C.sees.upcoming clock) (C.sees.upcoming result.clock) }
{
    let Outcome {
        end,
        told,
        shelf,
        clock,
    } = perform(alloc, words, shelf, script, out, clock, gate);
    let status = conclude(alloc, out, &end);
    Ran {
        status,
        told,
        shelf,
        clock,
    }
}
