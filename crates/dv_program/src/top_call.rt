//! The whole run.

ghost use Rattle.std.specs.Prelude.{◌≡◌, Err, List, None, Ok, Some, map, string_bytes, take};
ghost use Rattle.dv_shelf.specs.Crashes.{IsSettled};
ghost use Rattle.dv_formats.specs.Parsing.{ScriptFault, parsed};
ghost use Rattle.dv_formats.specs.Scripts.{NamedLine};
ghost use Rattle.dv_maildrop.specs.Scripts.{script_commands};
ghost use Rattle.dv_maildrop.specs.declared.types.PopLine.{PopLine};
ghost use Rattle.dv_serving.specs.NextRuns.{IsTrueFolder};
ghost use Rattle.dv_serving.specs.Outputs.{output_of};
ghost use Rattle.dv_serving.specs.Readings.{AtReadings};
ghost use Rattle.dv_beginning.specs.Causes.{HasFault};
ghost use Rattle.dv_cli.specs.Causes.{HasCauses, IsByFolder, IsUntouched, TakesByStatus, counts_of};
ghost use Rattle.dv_cli.specs.Readings.{TakesFront, read_limit};
ghost use Rattle.dv_cli.specs.Spans.{times_from};
ghost use Rattle.dv_cli.specs.Tasks.{HasScript, Reaches};
ghost use Rattle.dv_cli.specs.Told.{IsToldBy, TellsFault};
ghost use Rattle.dv_cli.specs.Wholes.{IsRefused};
ghost use Rattle.dv_cli.specs.WrongWords.{IsUsageStatus, PrintsUsage};
ghost use Rattle.dv_cli.specs.declared.words.Task.TheVariants as task;
ghost use Rattle.dv_program.specs.Forms.{form_of, read_by, task_by};
ghost use Rattle.dv_program.specs.Moments.{moment_of, outside_of};
ghost use Rattle.dv_program.specs.Pop3.{IsPop3Run};
ghost use Rattle.dv_program.specs.Readings.{TakesIn};
ghost use Rattle.dv_program.specs.Serial.{RunsSerially};
ghost use Rattle.dv_program.specs.Serving.{IsThreadsRun};
ghost use Rattle.dv_program.specs.declared.form.Form.TheVariants as form;

use crate::form::{Form, form_of};
use crate::pop3::run_pop3;
use crate::scripts::run_script;
use dv_cli::{Outcome, Ran, conclude};
use dv_shelf::{Clock, Gate, Shelf, Sink, Source};
use std::alloc::Global;
use std::sync::Wait;
use std::thread::Threads;

/// Serves a mailbox folder to the sessions of a script, each in a thread of its own, and writes a
/// last line.
fn run_threads<
    S: Shelf + Send,
    I: Source,
    O: Sink,
    C: Clock + Send,
    G: Gate + Sync,
    R: Threads + Wait + Sync,
>(rt: &R, alloc: Global, shelf: S, script: &mut I, out: &mut O, clock: C, gate: &G) -> Ran<S, C>
    // A good script is answered by sessions in threads.
    ensures threads { S.sees.tells → I.sees.tells → IsSettled S.sees shelf →
        IsTrueFolder (S.sees.files shelf) → (lines : List NamedLine) →
        parsed (I.sees.left script.old) ≡ Ok lines →
        AtReadings C.sees.tells (C.sees.upcoming clock) (λ readings.
        IsThreadsRun S.sees (times_from C.sees readings result.clock)
        (counts_of (S.sees.fault_count shelf) (I.sees.fault_count script.old)
        (O.sees.fault_count out.old))
        (counts_of (S.sees.fault_count result.shelf) (I.sees.fault_count script.new)
        (O.sees.fault_count out.new))
        lines result.status (output_of O.sees out.old out.new) shelf result.shelf) }
    // One that is refused leaves folder and clock untouched.
    ensures refused { I.sees.tells → (fault : ScriptFault) →
        parsed (I.sees.left script.old) ≡ Err fault →
        IsUntouched shelf result.shelf clock result.clock × IsRefused fault
        (counts_of (S.sees.fault_count shelf) (I.sees.fault_count script.old)
        (O.sees.fault_count out.old))
        (counts_of (S.sees.fault_count result.shelf) (I.sees.fault_count script.new)
        (O.sees.fault_count out.new))
        result.status (output_of O.sees out.old out.new)
        × TellsFault fault (take read_limit (I.sees.left script.old)) result.told }
    // What each status comes from, and what it says.
    ensures causes { IsToldBy (Some task.Run) result.status result.told
        × HasCauses result.status (Some task.Run)
        (counts_of (S.sees.fault_count shelf) (I.sees.fault_count script.old)
        (O.sees.fault_count out.old))
        (counts_of (S.sees.fault_count result.shelf) (I.sees.fault_count script.new)
        (O.sees.fault_count out.new))
        (S.sees.tells → HasFault (S.sees.files shelf))
        (I.sees.tells → (fault : ScriptFault) × (parsed (I.sees.left script.old) ≡ Err fault)) }
    ensures complete { S.sees.tells →
        Reaches (Some task.Run) I.sees.tells (parsed (I.sees.left script.old)) →
        IsByFolder (C.sees.upcoming clock) (S.sees.files shelf) result.status
        (counts_of (S.sees.fault_count shelf) (I.sees.fault_count script.old)
        (O.sees.fault_count out.old))
        (counts_of (S.sees.fault_count result.shelf) (I.sees.fault_count script.new)
        (O.sees.fault_count out.new)) }
    // What is taken of the script, and when the clock isn't read.
    ensures bound { I.sees.tells → TakesFront (I.sees.left script.old) (I.sees.left script.new) }
    ensures readings { C.sees.tells → TakesByStatus result.status (C.sees.upcoming clock)
        (C.sees.upcoming result.clock) }
{
    let Outcome {
        end,
        told,
        shelf,
        clock,
    } = run_script(rt, alloc, shelf, script, out, clock, gate);
    let status = conclude(alloc, out, &end);
    Ran {
        status,
        told,
        shelf,
        clock,
    }
}

/// Does what the program's words behind the folder's name ask for, and writes a last line. By
/// `run --threads` it serves a mailbox folder to the sessions of a script, each in a thread of its
/// own, all over one log: it opens its mailbox, or makes one, has each session's commands answered,
/// and writes the replies, session by session, behind the joining of all threads. By `pop3` it
/// serves one to a POP3 session (RFC 1939), whose lines are the script's: it greets, and answers
/// them up to the first QUIT. By other words it does one thing after another, as `dv_cli::run`.
pub fn run<
    S: Shelf + Send,
    I: Source,
    O: Sink,
    C: Clock + Send,
    G: Gate + Sync,
    R: Threads + Wait + Sync,
>(
    rt: &R,
    alloc: Global,
    words: &[String],
    shelf: S,
    script: &mut I,
    out: &mut O,
    clock: C,
    gate: &G,
) -> Ran<S, C>
    // By other words than these two: lines are answered one after another, a folder is rebuilt, a
    // client is answered, a search is kept beside the lines, or calls are answered; what is left
    // then, at any moment; and the output is a function of what is given.
    ensures serial { form_of (map string_bytes words.now) ≡ form.Serial →
        RunsSerially (outside_of S.sees I.sees O.sees C.sees)
        (task_by (map string_bytes words.now))
        (moment_of shelf script.old out.old clock)
        (moment_of result.shelf script.new out.new result.clock) result.status result.told }
    // By `run --threads`, over a settled folder whose cache file is true. There is one log, which
    // goes on from what was found, or made, and has each write that was answered with a mark once.
    // Each session's replies are the session rules' answers over fronts of it, never shorter than
    // what the session had seen; two sessions at one place show equal mailboxes, and a number keeps
    // its UID; and there is an order of the sessions' steps that is an interleaving with this log.
    // The bytes written are these replies, session by session, and the last line, which at want of
    // memory stands behind the replies so far. What is left gives that log, or that with the group
    // of a last write that the disk failed; so does what a crash at any moment leaves, by a front
    // of it.
    ensures threads { form_of (map string_bytes words.now) ≡ form.Threads → S.sees.tells →
        I.sees.tells → IsSettled S.sees shelf → IsTrueFolder (S.sees.files shelf) →
        (lines : List NamedLine) → parsed (I.sees.left script.old) ≡ Ok lines →
        AtReadings C.sees.tells (C.sees.upcoming clock) (λ readings.
        IsThreadsRun S.sees (times_from C.sees readings result.clock)
        (counts_of (S.sees.fault_count shelf) (I.sees.fault_count script.old)
        (O.sees.fault_count out.old))
        (counts_of (S.sees.fault_count result.shelf) (I.sees.fault_count script.new)
        (O.sees.fault_count out.new))
        lines result.status (output_of O.sees out.old out.new) shelf result.shelf) }

    // By `pop3`, over such a folder, with a script that isn't too long, which is its one fault.
    // There is one log, which goes on from what was found, or made, by at most one entry: the group
    // of a UID REMOVE of messages that the session had listed and marked, by its QUIT. Each answer
    // is by what the session has seen of that log. The bytes written are the greeting, the answers
    // up to the first QUIT, and the last line; where the mailbox couldn't be listed, that alone.
    // What is left gives that log, or that with the group that the disk failed; so does what a
    // crash at any moment leaves, by a front of it.
    ensures pops { form_of (map string_bytes words.now) ≡ form.Pop3 → S.sees.tells →
        I.sees.tells → IsSettled S.sees shelf → IsTrueFolder (S.sees.files shelf) →
        (lines : List PopLine) → script_commands (I.sees.left script.old) ≡ Some lines →
        AtReadings C.sees.tells (C.sees.upcoming clock) (λ readings.
        IsPop3Run S.sees (times_from C.sees readings result.clock)
        (counts_of (S.sees.fault_count shelf) (I.sees.fault_count script.old)
        (O.sees.fault_count out.old))
        (counts_of (S.sees.fault_count result.shelf) (I.sees.fault_count script.new)
        (O.sees.fault_count out.new))
        lines result.status (output_of O.sees out.old out.new) shelf result.shelf) }

    // Words that ask for nothing leave everything untouched, and a script that is refused leaves
    // folder and clock so; what is written then. Of such a script its first bad line is told. Of
    // what may be a key it may be that memory runs out before it is seen to be none.
    ensures usage { task_by (map string_bytes words.now) ≡ None →
        IsUntouched shelf result.shelf clock result.clock
        × IsUsageStatus (map string_bytes words.now) result.status
        × (O.sees.tells → PrintsUsage (map string_bytes words.now) result.status
        (O.sees.taken out.old) (O.sees.taken out.new)) }
    ensures refused { HasScript (task_by (map string_bytes words.now)) → I.sees.tells →
        (fault : ScriptFault) →
        read_by (map string_bytes words.now) (I.sees.left script.old) ≡ Err fault →
        IsUntouched shelf result.shelf clock result.clock × IsRefused fault
        (counts_of (S.sees.fault_count shelf) (I.sees.fault_count script.old)
        (O.sees.fault_count out.old))
        (counts_of (S.sees.fault_count result.shelf) (I.sees.fault_count script.new)
        (O.sees.fault_count out.new))
        result.status (output_of O.sees out.old out.new)
        × TellsFault fault (take read_limit (I.sees.left script.old)) result.told }

    // What each status comes from, and what is told beside the output; where a fault is found in
    // the folder the status is 3, and else 0, unless memory runs out or something outside fails.
    ensures causes { IsToldBy (task_by (map string_bytes words.now)) result.status result.told
        × HasCauses result.status (task_by (map string_bytes words.now))
        (counts_of (S.sees.fault_count shelf) (I.sees.fault_count script.old)
        (O.sees.fault_count out.old))
        (counts_of (S.sees.fault_count result.shelf) (I.sees.fault_count script.new)
        (O.sees.fault_count out.new))
        (S.sees.tells → HasFault (S.sees.files shelf))
        (I.sees.tells → (fault : ScriptFault)
        × (read_by (map string_bytes words.now) (I.sees.left script.old) ≡ Err fault)) }
    ensures complete { S.sees.tells → Reaches (task_by (map string_bytes words.now)) I.sees.tells
        (read_by (map string_bytes words.now) (I.sees.left script.old)) →
        IsByFolder (C.sees.upcoming clock) (S.sees.files shelf) result.status
        (counts_of (S.sees.fault_count shelf) (I.sees.fault_count script.old)
        (O.sees.fault_count out.old))
        (counts_of (S.sees.fault_count result.shelf) (I.sees.fault_count script.new)
        (O.sees.fault_count out.new)) }

    // The script is read where the words ask for one alone, and at most one byte more than the
    // longest script is. The clock isn't read where the words, the script or the folder are
    // refused, and, but by `pop3`, once at most where the disk fails before the first line.
    ensures bound { (I.sees.tells → TakesFront (I.sees.left script.old) (I.sees.left script.new))
        × ((HasScript (task_by (map string_bytes words.now)) → ⊥) → script.new ≡ script.old) }
    ensures readings { C.sees.tells → TakesIn (form_of (map string_bytes words.now)) result.status
        (C.sees.upcoming clock) (C.sees.upcoming result.clock) }
{
    match form_of(words) {
        Form::Serial => dv_cli::run(alloc, words, shelf, script, out, clock, gate),
        Form::Threads => run_threads(rt, alloc, shelf, script, out, clock, gate),
        Form::Pop3 => run_pop3(rt, alloc, shelf, script, out, clock),
    }
}
