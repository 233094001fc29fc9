//! What holds of parts and of the text of transcripts.

ghost use Rattle.dv_parts.specs.Interleaving.{LinesAreNumbered, PartsInterleave, PartsAddUp, OneParting};
ghost use Rattle.dv_parts.specs.Texts.{OneSessionIsSerial, SessionIsSerial, TranscriptsGoOn};

/// The lines of a script are an interleaving of its parts: each line stands in exactly one part,
/// that of its session, in its order, and the parts have no more. Sessions are numbered from 1 to
/// the number of sessions.
pub fn lines_interleave()
    ensures numbers { LinesAreNumbered }
    ensures parts { PartsInterleave }
    ensures sum { PartsAddUp }
    ensures one { OneParting }
{}

/// A session's transcript has the text that its lines alone are answered with, one after another;
/// so where a script has one session, that is the text of its replies.
pub fn one_session_is_serial()
    ensures alone { SessionIsSerial }
    ensures one { OneSessionIsSerial }
{}

/// The text of the transcripts of more sessions stands behind that of the first ones.
pub fn transcripts_go_on()
    ensures { TranscriptsGoOn }
{}
