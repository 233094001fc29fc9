//! The lines of a script, served one after another.

ghost use Rattle.std.specs.Prelude.{◌≡◌, ◌+◌, ◌*◌, ◌^◌, ◌<◌, ◌≤◌, ℕ, All, List, OnOk, [], length};
ghost use Rattle.dv_model.specs.Journals.{Log};
ghost use Rattle.dv_formats.specs.Scripts.{NamedLine, sessions_of};
ghost use Rattle.dv_script.specs.Sources.{named};
ghost use Rattle.dv_playing.specs.Playing.{Attempt};
ghost use Rattle.dv_serving.specs.Faults.{faults_of};
ghost use Rattle.dv_serial.specs.Following.{Follows, Origin, ReadsOn, origin_of};
ghost use Rattle.dv_serving.specs.Outputs.{output_of};
ghost use Rattle.dv_serial.specs.Runs.{IsCaused, Runs, RunsLine};
ghost use Rattle.dv_serial.specs.Serves.{AreAbreast, IsAsked};
ghost use Rattle.dv_serving.specs.Readings.{AtReadings, TakesUpTo};
ghost use Rattle.dv_serving.specs.Servable.{IsServable};

use crate::Serial;
use crate::numbers::next_turn;
use dv_model::NoMemory;
use dv_script::{Line, Lines};
use dv_shelf::{Clock, Gate, Shelf, Sink};
use dv_texts::ReplyText;
use dv_touched::Touched;

/// Why a line of the script ends the run.
#[derive(Clone, Copy, PartialEq, Eq, Debug)]
pub enum LineEnd {
    NoMemory,
    /// The output failed; the count of its faults.
    Sink(u64),
}

impl From<NoMemory> for LineEnd {
    ghost use Rattle.std.specs.Prelude.{◌≡◌};
    ghost use Rattle.dv_serial.specs.declared.lines.LineEnd.TheVariants as line_end;

    ghost from_gives = { λ _ e. e ≡ line_end.NoMemory };

    fn from(_: NoMemory) -> LineEnd {
        LineEnd::NoMemory
    }
}

impl<S: Shelf, C: Clock> Serial<S, C> {
    /// Serves one line of the script, which the session of this number gives, and writes its
    /// replies.
    fn serve_line<O: Sink>(&mut self, session: u32, line: Line, out: &mut O) -> Result<(), LineEnd>
        requires asked { IsAsked self.old.seats session line.command }
        requires abreast { AreAbreast self.old }
        requires room { self.old.groups + 1 < 2 ^ 64 }
        // It is one line more of the play, and its text is written.
        ensures runs { S.sees.tells → (origin : Origin) (attempts : List Attempt) →
            Follows S.sees C.sees origin
            (S.sees.fault_count self.old.store.shelf) attempts self.old →
            ReadsOn C.sees.tells origin attempts (λ from. RunsLine S.sees C.sees from
            (faults_of S.sees self.old.store.shelf self.new.store.shelf) attempts
            (record { session = session; line = named line }) result
            (output_of O.sees out.old out.new) self.old self.new) }
        ensures groups { self.new.groups ≤ self.old.groups + 1 }
        // There are as many sessions, which keep up with the mailbox.
        ensures seats { length self.new.seats ≡ length self.old.seats }
        ensures abreast { OnOk result (AreAbreast self.new) }
        // The counts of faults never fall, and an output that failed has its cause.
        ensures later { (S.sees.fault_count self.old.store.shelf
            ≤ S.sees.fault_count self.new.store.shelf)
            × (O.sees.fault_count out.old ≤ O.sees.fault_count out.new) }
        ensures readings { C.sees.tells → TakesUpTo 2 (C.sees.upcoming self.old.store.clock)
            (C.sees.upcoming self.new.store.clock) }
        ensures cause { IsCaused (O.sees.fault_count out.old) (O.sees.fault_count out.new) result }
    {
        let mut text = ReplyText::new(self.alloc, line.session);
        let mut changed = Touched::empty(self.alloc);
        self.serve(session, &line.command, &mut text, &mut changed)?;
        match text.write_to(out) {
            Ok(()) => Ok(()),
            Err(_) => Err(LineEnd::Sink(out.faults())),
        }
    }

    /// Serves the lines of a script, one after another, until memory or the output ends the run.
    /// The gate is called before each, with the numbers of its session and of the command in that
    /// session; the replies of a line are written before the next one is asked for. Of the lines
    /// that were served only the names of their sessions are kept.
    pub fn serve_lines<L: Lines, O: Sink, G: Gate>(
        &mut self,
        lines: &mut L,
        gate: &G,
        out: &mut O,
    ) -> Result<(), LineEnd>
        requires servable { All (λ (line : NamedLine). IsServable line.1) (L.left lines.old) }
        requires few { length (L.left lines.old) ≤ 2 ^ 26 }
        requires seats { length self.old.seats ≡ length (sessions_of (L.left lines.old)) }
        requires abreast { AreAbreast self.old }
        requires room { self.old.groups + length (L.left lines.old) < 2 ^ 64 }
        // Each line is a step of one play with its replies, up to the one that ended the run, and
        // what is left, at any moment too, keeps the play's log. The play is one at readings, which
        // are the clock's where it tells them.
        ensures runs { S.sees.tells → (origin : Origin) →
            Follows S.sees C.sees origin (S.sees.fault_count self.old.store.shelf) [] self.old →
            AtReadings C.sees.tells origin.clock (λ clock.
            Runs S.sees C.sees (origin_of clock origin.start origin.base)
            (S.sees.fault_count self.new.store.shelf)
            (L.left lines.old) result (output_of O.sees out.old out.new) self.old self.new) }
        // The counts of faults never fall, and an output that failed has its cause.
        ensures later { (S.sees.fault_count self.old.store.shelf
            ≤ S.sees.fault_count self.new.store.shelf)
            × (O.sees.fault_count out.old ≤ O.sees.fault_count out.new) }
        ensures readings { C.sees.tells → TakesUpTo (2 * length (L.left lines.old))
            (C.sees.upcoming self.old.store.clock) (C.sees.upcoming self.new.store.clock) }
        ensures cause { IsCaused (O.sees.fault_count out.old) (O.sees.fault_count out.new) result }
    {
        let mut seen = Vec::new(self.alloc);
        while let Some(line) = lines.next()? {
            let turn = next_turn(self.alloc, &mut seen, line.session.as_slice())?;
            gate.before(turn.session, turn.command);
            self.serve_line(turn.session, line, out)?;
        }
        Ok(())
    }
}
