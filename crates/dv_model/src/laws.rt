ghost use Rattle.dv_model.specs.Laws.{ClientHasView, MarksAreDistinct, MarksRise, RunsStay, RunsGoOn, SerialIsSpoken, SpokenStays, SpokenGoesOn, SpokenGoesOnWriting, SpokenWaits};

/// A client that has the view of a session has its next view after it hears what is said of the
/// move (RFC 3501, section 7.4.1), by either step.
pub fn client_has_view()
    ensures { ClientHasView }
{}

/// A run of commands stays answered by the rules where the log grows, and goes on by one line.
pub fn runs_go_on()
    ensures stay { RunsStay }
    ensures on { RunsGoOn }
{}

/// A session's transcript stays one where others write, and goes on by one command, whose entry
/// may stand in the log before its answer.
pub fn transcripts_go_on()
    ensures stay { SpokenStays }
    ensures on { SpokenGoesOn }
    ensures writing { SpokenGoesOnWriting }
    ensures waits { SpokenWaits }
{}

/// A run of one command after another is a transcript of each of its sessions.
pub fn serial_is_spoken()
    ensures { SerialIsSpoken }
{}

/// The place behind more entries of a log lies behind, so a place names one number of entries.
pub fn marks_rise()
    ensures rise { MarksRise }
    ensures distinct { MarksAreDistinct }
{}
