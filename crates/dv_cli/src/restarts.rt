//! What a next run may rest on.

ghost use Rattle.dv_serving.specs.NextRuns.{LeavesTrue};
ghost use Rattle.dv_cli.specs.Restarts.{IsRestarted, LogsStart, MayRun, RebuildsGoOn, RunsGoOn};

use dv_shelf::{Clock, Shelf, Sink};

/// A next run may begin over a folder that a run left, behind a restart, whatever object stands for
/// the folder then: it is one of those that a crash might have left, and it meets what a run asks.
/// Where such a folder gives a log, the next run starts from that log's mailbox, with its messages.
pub fn restarts_may_run<S: Shelf, T: Shelf>()
    ensures premises { (old left : S) (next : T) → LeavesTrue S.sees old left →
        IsRestarted S.sees T.sees left next → MayRun T.sees next }
    ensures starts { LogsStart }
{}

/// A next run may begin over the folder that a run left, as it is, where no fault of the folder was
/// counted in the run, however the run ended: what was settled with a true cache file is so again.
/// So it is behind a run that rebuilds its folder.
pub fn runs_may_follow<S: Shelf, O: Sink, C: Clock>()
    ensures runs { RunsGoOn S.sees O.sees C.sees }
    ensures rebuilds { RebuildsGoOn S.sees O.sees C.sees }
{}
