//! What holds of the transcripts of sessions that wrote one log, and of what they leave.

ghost use Rattle.dv_shelf.specs.Folders.{Folder};
ghost use Rattle.dv_threads.specs.NextRuns.{ThreadsGoOn};
ghost use Rattle.dv_threads.specs.Sessions.{FewAreUnavailable, SessionsWriteOneLog};
ghost use Rattle.dv_threads.specs.Transcripts.{StoriesAreTranscripts};

use dv_shelf::{Clock, Shelf, Sink};

/// Where each session has a story over one log, and what they count of their entries makes it up,
/// each entry is that of one answered command, or the last of a session whose command isn't
/// answered; two sessions at one place show equal mailboxes, and a number keeps its UID; and their
/// transcripts are those of an interleaving with this log.
pub fn stories_are_transcripts()
    ensures { StoriesAreTranscripts }
{}

/// So it is with the sessions of a keeper that are all handed in, by what each has seen and
/// counted. They count no fewer failures of the disk than were told.
pub fn sessions_write_one_log()
    ensures log { SessionsWriteOneLog }
    ensures few { FewAreUnavailable }
{}

/// What holds of each folder: its files are among what a crash now may leave, and since now a crash
/// leaves nothing else. Nothing is computed.
pub fn folder_laws<S: Shelf>()
    ensures files { (s : S) → S.sees.tells → S.sees.may_leave s (S.sees.files s) }
    ensures only { (s : S) (c : Folder) → S.sees.tells →
        S.sees.left_since s (S.sees.moment s) c → S.sees.may_leave s c }
{}

/// A next run may begin over the folder that sessions in threads left, as it is, where no failure
/// of the folder was counted in the run, however that ended: it is settled, with a true cache file.
pub fn runs_may_follow_threads<S: Shelf, O: Sink, C: Clock>()
    ensures { ThreadsGoOn S.sees O.sees C.sees }
{}
