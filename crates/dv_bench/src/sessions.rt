ghost use Rattle.std.specs.Prelude.{All, IfOk, OnOk};
ghost use Rattle.dv_model.specs.declared.types.Mailbox.{Mailbox};
ghost use Rattle.dv_model.specs.Spelling.{IsRecord};
ghost use Rattle.dv_answer.specs.Following.{IsAbreast, Leads};

use crate::fault::Fault;
use crate::records::apply;
use crate::timing::Behind;
use dv_answer::Session;
use dv_apply::Live;
use dv_model::{Command, List, Mark, Record, Reply, Word};
use dv_responses::Met;
use dv_search::Mail;
use dv_touched::Touched;
use std::alloc::Global;
use std::time::Instant;

// How many sessions have selected the mailbox.
const SESSIONS: usize = 4;

// Each answer tells the same end of a log, since none is written.
const MARK: Mark = Mark {
    file_seq: 1,
    offset: 56,
};

fn selected(alloc: Global, live: &Live) -> Result<Session, Fault>
    ensures { IfOk result (IsAbreast live.now.mailbox) }
{
    let mut session = Session::new(alloc);
    let last = Reply::Done {
        word: Word::Select,
        mark: MARK,
        appended: None,
        modified: List::new(alloc),
    };
    session.select(live, 0, last, &mut List::new(alloc))?;
    Ok(session)
}

fn all_selected(alloc: Global, live: &Live) -> Result<Vec<Session>, Fault>
    ensures { IfOk result (λ sessions. All (IsAbreast live.now.mailbox) sessions.items) }
{
    let mut sessions = Vec::new(alloc);
    for _ in 0..SESSIONS {
        sessions.push(selected(alloc, live)?)?;
    }
    Ok(sessions)
}

// Gives each session notice of these UIDs.
fn touch_all(touched: &Touched, sessions: &mut [Session]) -> Result<(), Fault>
    ensures { OnOk result ((old new : Mailbox) → All (IsAbreast old) sessions.old
        → Leads old new touched.now → All (IsAbreast new) sessions.new) }
{
    for session in sessions.iter_mut() {
        session.touch(touched)?;
    }
    Ok(())
}

// The number of lines that answer a NOOP.
fn answer(alloc: Global, live: &Live, session: &mut Session) -> Result<usize, Fault>
    requires { IsAbreast live.now.mailbox session.old }
    ensures { OnOk result (IsAbreast live.now.mailbox session.new) }
{
    if let Some(_) = session.refuse(&Command::Noop) {
        return Err(Fault::NotSelected);
    }
    let facts = Mail::new(alloc);
    let met = Met {
        appended: None,
        modified: List::new(alloc),
    };
    let mut lines = List::new(alloc);
    session.answer(&Command::Noop, live, &facts, met, MARK, 0, &mut lines)?;
    Ok(lines.len())
}

// The number of lines that answer a NOOP of each session.
fn answer_all(alloc: Global, live: &Live, sessions: &mut [Session]) -> Result<usize, Fault>
    requires { All (IsAbreast live.now.mailbox) sessions.old }
    ensures { OnOk result (All (IsAbreast live.now.mailbox) sessions.new) }
{
    let mut lines: usize = 0;
    for session in sessions.iter_mut() {
        let more = answer(alloc, live, session)?;
        lines = lines.saturating_add(more);
    }
    Ok(lines)
}

// Applies them in turn, and tells all sessions of each.
fn tell_all(
    rt: HostRuntime,
    live: &mut Live,
    records: &[Record],
    sessions: &mut [Session],
) -> Result<Behind, Fault>
    requires entries { All IsRecord records.now }
    requires abreast { All (IsAbreast live.old.mailbox) sessions.old }
{
    let start = Instant::now(&rt)?;
    let mut count: usize = 0;
    for record in records {
        let touched = apply(rt.alloc(), live, record)?;
        touch_all(&touched, sessions)?;
        count = count.saturating_add(answer_all(rt.alloc(), live, sessions)?);
    }
    let micros = start.elapsed(&rt)?.as_micros();
    Ok(Behind { micros, count })
}

/// Applies them in turn, while four sessions that select the mailbox first are told of each by
/// their NOOPs, and gives how many lines they were told.
pub fn time_sessions(rt: HostRuntime, live: &mut Live, records: &[Record]) -> Result<Behind, Fault>
    requires { All IsRecord records.now }
{
    let mut sessions = all_selected(rt.alloc(), live)?;
    tell_all(rt, live, records, sessions.as_mut_slice())
}
