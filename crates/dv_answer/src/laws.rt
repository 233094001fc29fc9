ghost use Rattle.dv_answer.specs.Laws.{FullTellsAll, MoveTracks, RecordsLead, RefusalGoesOn, SelectTracks, StayLeads, TouchTracks};

/// A session keeps up with a mailbox that others change: it does when it has selected, when it is
/// told the touched UIDs of records that are applied, and when its view moves on.
pub fn sessions_keep_up()
    ensures select { SelectTracks }
    ensures touch { TouchTracks }
    ensures moves { MoveTracks }
    ensures full { FullTellsAll }
    ensures stay { StayLeads }
    ensures records { RecordsLead }
{}

/// A refusal is the session's own, or else a limit that a write comes upon.
pub fn refusal_goes_on()
    ensures { RefusalGoesOn }
{}
