ghost use Rattle.dv_tries.specs.Laws.{CommitsKeep, CommitsStand, ErrorsStand, ImagesGoOn, LastIsDurable, LastMayGive, MoreMayGive, RestGivesLast};

use dv_naming::Keeping;
use dv_shelf::{Clock, Shelf};

/// What a folder may give behind some notes and tries it may give behind more, and what it gives at
/// their end it may give.
pub fn notes_and_tries_grow<C: Clock>()
    ensures more { MoreMayGive C.sees.tells }
    ensures last { LastMayGive C.sees.tells }
{}

/// A folder that gives the end of good notes opens to a log that begins with all of them: each
/// entry is in it, with its message and GUID while that lives, and so are the messages of the
/// start.
pub fn last_is_durable<C: Clock>()
    ensures { LastIsDurable C.sees.tells }
{}

/// Whatever a crash leaves of a store at rest behind notes gives their end, or that with the group
/// of a try that met them all.
pub fn rest_gives_last<S: Shelf, C: Clock>()
    ensures { RestGivesLast C S.sees C.sees.tells }
{}

/// Over any shelf a store stands behind the notes with that of its commit, at the place behind it;
/// behind an error it stands behind the notes as they were.
pub fn commits_stand<S, C>()
    ensures ok { CommitsStand S C }
    ensures err { ErrorsStand S C }
{}

/// A store that rests behind notes and tries rests after a commit behind these, with the note of
/// what was written, or with the try where the disk failed it; and a crash at any moment leaves the
/// end of the notes from before, or that from behind.
pub fn commits_keep<S: Shelf, C: Clock>()
    ensures { CommitsKeep C S.sees C.sees.tells }
{}

/// What a crash leaves since a run began goes on with a commit: fronts of the notes, or one with
/// the group of a try.
pub fn images_go_on<S: Shelf, C: Clock, K: Keeping>()
    ensures { ImagesGoOn S.sees C.sees.tells K.past }
{}
