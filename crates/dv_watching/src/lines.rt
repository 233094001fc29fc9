//! The lines of a script, served beside a kept search.

ghost use Rattle.std.specs.Prelude.{◌≡◌, ◌+◌, ◌*◌, ◌^◌, ◌<◌, ◌≤◌, ℕ, All, List, OnOk, [], length, nat_lt};
ghost use Rattle.dv_formats.specs.Scripts.{NamedLine, sessions_of};
ghost use Rattle.dv_script.specs.Sources.{named};
ghost use Rattle.dv_playing.specs.Playing.{Attempt};
ghost use Rattle.dv_serving.specs.Faults.{faults_of};
ghost use Rattle.dv_serving.specs.Outputs.{output_of};
ghost use Rattle.dv_serving.specs.Readings.{AtReadings, TakesUpTo};
ghost use Rattle.dv_serving.specs.Servable.{IsServable};
ghost use Rattle.dv_serial.specs.Following.{Follows, Origin, ReadsOn, origin_of};
ghost use Rattle.dv_serial.specs.Runs.{IsCaused};
ghost use Rattle.dv_serial.specs.Serves.{IsAsked};
ghost use Rattle.dv_watching.specs.Watching.{IsBeside, Watches, WatchesLine};

use crate::telling::told_behind;
use crate::writing::write_line;
use dv_live::{Saved, touched_are_followed};
use dv_script::{Line, Lines};
use dv_serial::{LineEnd, Serial, next_turn};
use dv_shelf::{Clock, Gate, Shelf, Sink};
use dv_texts::ReplyText;
use dv_touched::Touched;
use std::alloc::Global;

/// Whether a count rose.
fn rose(before: u64, now: u64) -> bool
    ensures { result ≡ nat_lt before now }
{
    before < now
}

/// Serves one line of the script, which the session of this number gives, and writes its replies;
/// where it wrote a group, the search's result behind them.
fn watch_line<S: Shelf, C: Clock, O: Sink>(
    alloc: Global,
    serial: &mut Serial<S, C>,
    saved: &mut Saved,
    session: u32,
    line: Line,
    out: &mut O,
) -> Result<(), LineEnd>
    requires asked { IsAsked serial.old.seats session line.command }
    requires beside { IsBeside saved.old.key serial.old saved.old }
    requires room { serial.old.groups + 1 < 2 ^ 64 }
    // It is one line more of the play, and its text is written.
    ensures runs { S.sees.tells → (origin : Origin) (attempts : List Attempt) →
        Follows S.sees C.sees origin
        (S.sees.fault_count serial.old.store.shelf) attempts serial.old →
        ReadsOn C.sees.tells origin attempts (λ from. WatchesLine S.sees C.sees from
        (faults_of S.sees serial.old.store.shelf serial.new.store.shelf) attempts saved.old.key
        (record { session = session; line = named line }) result
        (output_of O.sees out.old out.new) serial.old serial.new) }
    ensures groups { serial.new.groups ≤ serial.old.groups + 1 }
    // There are as many sessions, which keep up with the mailbox, and so does the search.
    ensures seats { length serial.new.seats ≡ length serial.old.seats }
    ensures beside { OnOk result (IsBeside saved.old.key serial.new saved.new) }
    // The counts of faults never fall, and an output that failed has its cause.
    ensures later { (S.sees.fault_count serial.old.store.shelf
        ≤ S.sees.fault_count serial.new.store.shelf)
        × (O.sees.fault_count out.old ≤ O.sees.fault_count out.new) }
    ensures readings { C.sees.tells → TakesUpTo 2 (C.sees.upcoming serial.old.store.clock)
        (C.sees.upcoming serial.new.store.clock) }
    ensures cause { IsCaused (O.sees.fault_count out.old) (O.sees.fault_count out.new) result }
{
    // A UIDNEXT is known of a valid mailbox alone.
    let _next = serial.live().next_uid();
    touched_are_followed();
    let groups = serial.count();
    let mut text = ReplyText::new(alloc, line.session);
    let mut changed = Touched::empty(alloc);
    serial.serve(session, &line.command, &mut text, &mut changed)?;
    let wrote = rose(groups, serial.count());
    let told = told_behind(alloc, saved, serial.live(), wrote, &changed)?;
    write_line(&text, told.as_slice(), out)
}

/// Serves the lines of a script, one after another, until memory or the output ends the run. Behind
/// the replies to each line that wrote a group the search's result is written, as the mailbox is
/// then. The gate is called before each line, with the numbers of its session and of the command in
/// that session.
pub fn watch_lines<S: Shelf, C: Clock, L: Lines, O: Sink, G: Gate>(
    alloc: Global,
    serial: &mut Serial<S, C>,
    saved: &mut Saved,
    lines: &mut L,
    gate: &G,
    out: &mut O,
) -> Result<(), LineEnd>
    requires servable { All (λ (line : NamedLine). IsServable line.1) (L.left lines.old) }
    requires few { length (L.left lines.old) ≤ 2 ^ 26 }
    requires seats { length serial.old.seats ≡ length (sessions_of (L.left lines.old)) }
    // The search is kept of the mailbox as that is.
    requires beside { IsBeside saved.old.key serial.old saved.old }
    requires room { serial.old.groups + length (L.left lines.old) < 2 ^ 64 }
    // Each line is a step of one play with its replies, up to the one that ended the run, and what
    // is left, at any moment too, keeps the play's log. The play is one at readings, which are the
    // clock's where it tells them. Behind the replies to a line that wrote an entry is what the key
    // finds in the mailbox of the log so far, and behind no other.
    ensures runs { S.sees.tells → (origin : Origin) →
        Follows S.sees C.sees origin (S.sees.fault_count serial.old.store.shelf) [] serial.old →
        AtReadings C.sees.tells origin.clock (λ clock.
        Watches S.sees C.sees (origin_of clock origin.start origin.base)
        (S.sees.fault_count serial.new.store.shelf) saved.old.key
        (L.left lines.old) result (output_of O.sees out.old out.new) serial.old serial.new) }
    // The counts of faults never fall, and an output that failed has its cause.
    ensures later { (S.sees.fault_count serial.old.store.shelf
        ≤ S.sees.fault_count serial.new.store.shelf)
        × (O.sees.fault_count out.old ≤ O.sees.fault_count out.new) }
    ensures readings { C.sees.tells → TakesUpTo (2 * length (L.left lines.old))
        (C.sees.upcoming serial.old.store.clock) (C.sees.upcoming serial.new.store.clock) }
    ensures cause { IsCaused (O.sees.fault_count out.old) (O.sees.fault_count out.new) result }
{
    let mut seen = Vec::new(alloc);
    while let Some(line) = lines.next()? {
        let turn = next_turn(alloc, &mut seen, line.session.as_slice())?;
        gate.before(turn.session, turn.command);
        watch_line(alloc, serial, saved, turn.session, line, out)?;
    }
    Ok(())
}
