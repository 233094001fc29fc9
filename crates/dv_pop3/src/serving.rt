//! A whole session, from its greeting on.

ghost use Rattle.std.specs.Prelude.{◌≡◌, ◌≤◌, IfOk, false};
ghost use mathlib.Core.List.{IsPrefix};
ghost use Rattle.dv_maildrop.specs.Answers.{greeting};
ghost use Rattle.dv_member.specs.Members.{notes_of};
ghost use Rattle.dv_serving.specs.Outputs.{output_of};
ghost use Rattle.dv_pop3.specs.Exchanges.{IsCaused};
ghost use Rattle.dv_pop3.specs.Servings.{HasServed, HasSpoken, IsCausedBy};

use crate::Pop;
use crate::entering::{PopFault, login};
use crate::lines::{LinesEnd, answer_lines};
use dv_keeper::Keeper;
use dv_maildrop::{PopLines, put_greeting};
use dv_member::Session;
use dv_model::{Bytes, NoMemory};
use dv_naming::{Keeping, Tally};
use dv_shelf::{Clock, Shelf, Sink};
use std::alloc::Global;
use std::sync::Wait;

// Greets, and answers the lines.
fn converse<S: Shelf, C: Clock, K: Keeping, L: Tally, M: Tally, O: Sink, R: Wait>(
    rt: &R,
    keeper: &Keeper<S, C, K, L, M>,
    pop: Pop<K, L, M>,
    text: &[u8],
    lines: PopLines<'_>,
    out: &mut O,
) -> (Session<K, L, M>, LinesEnd)
    requires open { pop.maildrop.ended ≡ false }
    requires fresh { pop.session.spent ≡ false }
    requires text { text.now ≡ greeting }
    ensures spoken { K.honest → HasSpoken K.start K.count pop result.0 lines.entry
        result.1
        (output_of O.sees out.old out.new) }
    ensures later { O.sees.fault_count out.old ≤ O.sees.fault_count out.new }
    ensures cause { IsCaused (O.sees.fault_count out.old) (O.sees.fault_count out.new) result.1 }
    ensures begins { IsPrefix (notes_of pop.session) (notes_of result.0) }
{
    let mut pop = pop;
    match out.write_all(text) {
        Ok(()) => {
            let end = answer_lines(rt, keeper, &mut pop, lines, out);
            (pop.session(), end)
        }
        Err(_) => (pop.session(), LinesEnd::Sink(out.faults())),
    }
}

// The greeting (RFC 1939, section 4).
fn greeting(alloc: Global) -> Result<Bytes, NoMemory>
    ensures { IfOk result (λ text. text ≡ greeting) }
{
    let mut text = Bytes::new(alloc);
    put_greeting(&mut text)?;
    Ok(text)
}

/// Serves a whole POP3 session: it lists the mailbox, greets, and answers the lines up to the first
/// QUIT. Where the mailbox can't be listed there is no greeting. The session of the store is handed
/// back in each case.
pub fn serve<S: Shelf, C: Clock, K: Keeping, L: Tally, M: Tally, O: Sink, R: Wait>(
    alloc: Global,
    rt: &R,
    keeper: &Keeper<S, C, K, L, M>,
    session: Session<K, L, M>,
    lines: PopLines<'_>,
    out: &mut O,
) -> (Session<K, L, M>, Result<LinesEnd, PopFault>)
    requires fresh { session.spent ≡ false }
    ensures served { K.honest → HasServed K.start K.count session result.0 lines.entry
        result.1
        (output_of O.sees out.old out.new) }
    ensures later { O.sees.fault_count out.old ≤ O.sees.fault_count out.new }
    ensures cause { IsCausedBy (O.sees.fault_count out.old) (O.sees.fault_count out.new)
        result.1 }
    ensures begins { IsPrefix (notes_of session) (notes_of result.0) }
{
    let Ok(text) = greeting(alloc) else {
        return (session, Err(PopFault::NoMemory));
    };
    match login(alloc, rt, keeper, session) {
        Ok(pop) => {
            let (session, end) = converse(rt, keeper, pop, text.as_slice(), lines, out);
            (session, Ok(end))
        }
        Err((session, fault)) => (session, Err(fault)),
    }
}
