//! The lines of a session, one after another.

ghost use Rattle.std.specs.Prelude.{◌≡◌, ◌≤◌, [], OnOk, false};
ghost use mathlib.Core.List.{IsPrefix};
ghost use Rattle.dv_member.specs.Members.{notes_of};
ghost use Rattle.dv_serving.specs.Outputs.{output_of};
ghost use Rattle.dv_pop3.specs.Exchanges.{HasAnsweredLines, IsCaused, IsFailedBy, TakesLine};

use crate::Pop;
use dv_keeper::Keeper;
use dv_maildrop::{PopLine, PopLines};
use dv_naming::{Keeping, Tally};
use dv_shelf::{Clock, Shelf, Sink};
use std::sync::Wait;

/// How the lines of a session end.
#[derive(Clone, Copy, PartialEq, Eq, Debug)]
pub enum LinesEnd {
    /// Each line was answered, up to the first QUIT.
    Answered,
    /// Memory ran out at a line.
    NoMemory,
    /// The output failed, with its count of failures.
    Sink(u64),
}

// Answers a line, and writes the answer.
fn answer_line<S: Shelf, C: Clock, K: Keeping, L: Tally, M: Tally, O: Sink, R: Wait>(
    rt: &R,
    keeper: &Keeper<S, C, K, L, M>,
    pop: &mut Pop<K, L, M>,
    line: PopLine,
    out: &mut O,
) -> Result<(), LinesEnd>
    requires open { pop.old.maildrop.ended ≡ false }
    requires fresh { pop.old.session.spent ≡ false }
    ensures takes { K.honest → TakesLine K.start K.count line pop.old pop.new result
        (output_of O.sees out.old out.new) }
    ensures later { O.sees.fault_count out.old ≤ O.sees.fault_count out.new }
    ensures cause { IsFailedBy (O.sees.fault_count out.old) (O.sees.fault_count out.new) result }
    ensures begins { IsPrefix (notes_of pop.old.session) (notes_of pop.new.session) }
    ensures number { pop.new.session.number ≡ pop.old.session.number }
    ensures fresh { OnOk result (pop.new.session.spent ≡ false) }
{
    let text = match pop.answer(rt, keeper, &line) {
        Ok(text) => text,
        Err(_) => return Err(LinesEnd::NoMemory),
    };
    match out.write_all(text.as_slice()) {
        Ok(()) => Ok(()),
        Err(_) => Err(LinesEnd::Sink(out.faults())),
    }
}

/// Answers the lines of a session, one after another, up to the first QUIT; those behind it aren't
/// answered. Each answer is written when it is made, and only where all of it is there, so that
/// what was written ends with the last whole answer where memory runs out. Where the output fails
/// the session ends there, and nothing more is done of what it asks.
pub fn answer_lines<S: Shelf, C: Clock, K: Keeping, L: Tally, M: Tally, O: Sink, R: Wait>(
    rt: &R,
    keeper: &Keeper<S, C, K, L, M>,
    pop: &mut Pop<K, L, M>,
    lines: PopLines<'_>,
    out: &mut O,
) -> LinesEnd
    requires open { pop.old.maildrop.ended ≡ false }
    requires fresh { pop.old.session.spent ≡ false }
    ensures answers { K.honest → HasAnsweredLines K.start K.count [] pop.old pop.new
        lines.entry result (output_of O.sees out.old out.new) }
    ensures later { O.sees.fault_count out.old ≤ O.sees.fault_count out.new }
    ensures cause { IsCaused (O.sees.fault_count out.old) (O.sees.fault_count out.new) result }
    ensures begins { IsPrefix (notes_of pop.old.session) (notes_of pop.new.session) }
{
    let mut lines = lines;
    while !pop.maildrop().has_ended() {
        let Some(line) = lines.next() else {
            return LinesEnd::Answered;
        };
        match answer_line(rt, keeper, pop, line, out) {
            Ok(()) => {}
            Err(end) => return end,
        }
    }
    LinesEnd::Answered
}
