//! The jobs of a script's parts, and what is handed in behind them.

ghost use Rattle.std.specs.Prelude.{◌≡◌, ◌≤◌, ◌&&◌, [], All, List, length};
ghost use Rattle.std.specs.Vec.{vec_capacity};
ghost use Rattle.dv_keeper.specs.Sessions.{AreNewSessions};
ghost use Rattle.dv_parts.specs.declared.parts.Part.{Part as OnePart};
ghost use Rattle.dv_serving.specs.Outputs.{output_of};
ghost use Rattle.dv_serving.specs.Servable.{IsServable};
ghost use Rattle.dv_threads.specs.Jobs.{AreJobsOf, FailsMore, FailsSo, HandsIn, HaveServed, WritesMore};

use dv_member::Session;
use dv_naming::{Keeping, Tally};
use dv_parts::Part;
use dv_runner::Job;
use dv_shelf::Sink;
use dv_texts::ReplyText;
use std::alloc::Global;

/// Makes the job of each part, by the session of its number, in their order. There is room.
pub(crate) fn make_jobs<K: Keeping, L: Tally, M: Tally>(
    alloc: Global,
    mut sessions: Vec<Session<K, L, M>>,
    mut parts: Vec<Part>,
    jobs: &mut Vec<Job<K, L, M>>,
)
    requires none { jobs.old.items ≡ [] }
    requires room { length parts.items ≤ vec_capacity jobs.old }
    requires pairs { length sessions.items ≡ length parts.items }
    requires new { AreNewSessions K.start 1 sessions.items }
    requires servable { All (λ (p : OnePart). All IsServable p.commands) parts.items }
    ensures { AreJobsOf K.start 1 parts.items jobs.new.items }
{
    sessions.reverse();
    parts.reverse();
    while let Some(part) = parts.pop() {
        let Some(session) = sessions.pop() else {
            unreachable!();
        };
        jobs.push_reserved(Job::new(alloc, session, part.name, part.commands));
    }
}

/// Whether both are so.
fn both(one: bool, other: bool) -> bool
    ensures { result ≡ (one && other) }
{
    one && other
}

/// Writes the text of a session's replies, unless the output failed before. Whether it has failed.
fn write_replies<O: Sink>(failed: bool, replies: &ReplyText, out: &mut O) -> bool
    ensures writes { O.sees.tells → WritesMore failed result replies.now.text
        (O.sees.taken out.old) (O.sees.taken out.new) }
    ensures later { O.sees.fault_count out.old ≤ O.sees.fault_count out.new }
    ensures rose { FailsMore failed result (O.sees.fault_count out.old)
        (O.sees.fault_count out.new) }
{
    if failed {
        return true;
    }
    match replies.write_to(out) {
        Ok(()) => false,
        Err(_) => true,
    }
}

/// What the jobs of a script leave when they are handed in: the sessions, in the order of their
/// numbers, whether all commands were answered, and whether the output failed.
pub(crate) struct Handed<K: Keeping, L: Tally, M: Tally> {
    pub(crate) sessions: Vec<Session<K, L, M>>,
    pub(crate) whole: bool,
    pub(crate) failed: bool,
}

/// Writes the replies of each job, session by session in their order, and hands the sessions in.
/// There is room for them.
pub(crate) fn hand_in<K: Keeping, L: Tally, M: Tally, O: Sink>(
    mut jobs: Vec<Job<K, L, M>>,
    mut sessions: Vec<Session<K, L, M>>,
    out: &mut O,
) -> Handed<K, L, M>
    requires none { sessions.items ≡ [] }
    requires room { length jobs.items ≤ vec_capacity sessions }
    ensures hands { (parts : List OnePart) →
        HaveServed K.start K.count K.honest 1 parts jobs.items →
        HandsIn K.start K.count K.honest parts result.sessions.items result.whole result.failed
        (output_of O.sees out.old out.new) }
    ensures later { O.sees.fault_count out.old ≤ O.sees.fault_count out.new }
    ensures rose { FailsSo result.failed (O.sees.fault_count out.old)
        (O.sees.fault_count out.new) }
{
    let mut whole = true;
    let mut failed = false;
    jobs.reverse();
    while let Some(job) = jobs.pop() {
        whole = both(whole, job.is_whole());
        let (session, replies) = job.into_parts();
        failed = write_replies(failed, &replies, out);
        sessions.push_reserved(session);
    }
    Handed {
        sessions,
        whole,
        failed,
    }
}
