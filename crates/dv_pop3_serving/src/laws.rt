//! What a POP3 session leaves to the next run.

ghost use Rattle.dv_pop3_serving.specs.NextRuns.{PopGoesOn};

use dv_shelf::{Clock, Shelf, Sink};

/// A next run may begin over the folder that a POP3 session left, as it is, where no failure of the
/// folder was counted in the run, however that ended: it is settled, with a true cache file.
pub fn runs_may_follow_pop3<S: Shelf, O: Sink, C: Clock>()
    ensures { PopGoesOn S.sees O.sees C.sees }
{}
