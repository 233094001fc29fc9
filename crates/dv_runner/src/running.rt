//! The commands of one job, one after another.

ghost use Rattle.std.specs.Prelude.{◌≡◌, false};
ghost use Rattle.dv_runner.specs.Runs.{HasRun};
ghost use Rattle.dv_runner.specs.Works.{IsReady, work_of};

use crate::Job;
use crate::serving::serve_one;
use dv_keeper::Keeper;
use dv_member::Session;
use dv_model::Command;
use dv_naming::{Keeping, Tally};
use dv_shelf::{Clock, Gate, Shelf};
use dv_texts::ReplyText;
use dv_view::Replies;
use std::alloc::Global;
use std::sync::Wait;

// Serves the commands of a session in turn, each behind the gate, until memory runs out: then the
// lines of that command are taken back. It says whether all were answered.
fn run_commands<S: Shelf, C: Clock, K: Keeping, L: Tally, M: Tally, G: Gate, R: Wait>(
    rt: &R,
    alloc: Global,
    keeper: &Keeper<S, C, K, L, M>,
    gate: &G,
    session: &mut Session<K, L, M>,
    commands: &[Command],
    replies: &mut ReplyText,
) -> bool
    requires { IsReady K.start (work_of session.old commands.now replies.old false) }
    ensures { HasRun K.start K.count K.honest
        (work_of session.old commands.now replies.old false)
        (work_of session.new commands.now replies.new result) }
{
    let number = session.number();
    let mut sent = 0u32;
    for at in 0..commands.len() {
        sent = sent.saturating_add(1);
        gate.before(number, sent);
        let length = replies.length();
        match serve_one(rt, keeper, session, &commands[at], replies) {
            Ok(()) => {
                session.number();
            }
            Err(_) => {
                session.number();
                replies.cut(alloc, length);
                return false;
            }
        }
    }
    true
}

/// Runs the commands of one job.
pub(crate) fn run_job<S: Shelf, C: Clock, K: Keeping, L: Tally, M: Tally, G: Gate, R: Wait>(
    rt: &R,
    alloc: Global,
    keeper: &Keeper<S, C, K, L, M>,
    gate: &G,
    job: &mut Job<K, L, M>,
)
    requires { IsReady K.start job.old }
    ensures { HasRun K.start K.count K.honest job.old job.new }
{
    job.whole = run_commands(
        rt,
        alloc,
        keeper,
        gate,
        &mut job.session,
        job.commands.as_slice(),
        &mut job.replies,
    );
}
