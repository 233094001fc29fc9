//! What a next run may rest on.

ghost use Rattle.dv_program.specs.NextRuns.{Pop3RunsGoOn, ThreadsRunsGoOn};

use dv_shelf::{Clock, Shelf, Sink};

/// A next run may begin over the folder that a run in threads, or by a POP3 session, left, as it is,
/// where no fault of the folder was counted in the run, however the run ended: what was settled with
/// a true cache file is so again. Of other runs `dv_cli::runs_may_follow` says so.
pub fn runs_may_follow<S: Shelf, O: Sink, C: Clock>()
    ensures threads { ThreadsRunsGoOn S.sees O.sees C.sees }
    ensures pop3 { Pop3RunsGoOn S.sees O.sees C.sees }
{
    dv_cli::runs_may_follow::<S, O, C>();
}
