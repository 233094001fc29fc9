ghost use Rattle.dv_events.specs.Worlds.{PromisesHold};
ghost use Rattle.dv_events.specs.Loads.{FailedRefreshStays, GatherLoads, MadeSessionsOpen, NothingHappens, RefreshLoads, RejoinLoads};
ghost use Rattle.dv_events.specs.Answers.{AnswerTells, MailTells, SelectAndReadTells, SelectTells, TellTells, UnreadSelectTells};
ghost use Rattle.dv_events.specs.Debts.{KeptOwes, NothingPends, ReadingsKeepDebt, WriteMovesDebt};
ghost use Rattle.dv_events.specs.Writes.{RefusedWriteLoads, SpentWriteStands, UntoldWriteStays, WriteTells};

use dv_naming::Keeping;
use dv_shelf::{Clock, Shelf};

/// The sessions that a keeper is made with open in the world of its start.
pub fn sessions_are_opened()
    ensures { MadeSessionsOpen }
{}

/// A session that refreshes, or comes to the newest table, loads what is published, and so do two
/// sessions that gather.
pub fn loads_are_events()
    ensures refresh { RefreshLoads }
    ensures rejoin { RejoinLoads }
    ensures gather { GatherLoads }
{}

/// After want of memory, and where the disk failed a reading, a session did nothing.
pub fn nothing_is_no_event()
    ensures stays { NothingHappens }
    ensures refresh { FailedRefreshStays }
{}

/// A command that writes nothing and reads no messages is answered at what its session has seen.
pub fn answers_are_events()
    ensures answer { AnswerTells }
    ensures select { SelectTells }
    ensures tell { TellTells }
{}

/// A command that reads messages is answered behind a load, in one hold of the lock. So is a SELECT
/// before it in the same hold; or the SELECT alone, where the disk failed the reading or memory ran
/// out there.
pub fn readings_are_events<S: Shelf, C: Clock, K: Keeping>()
    ensures mail { MailTells S.sees C.sees K.start K.moment K.past K.honest K.count }
    ensures select { SelectAndReadTells S.sees C.sees K.start K.moment K.past K.honest K.count }
    ensures unread { UnreadSelectTells K.start K.count }
{}

/// A write commits its group, loads it and is answered, in one hold of the lock. One that is
/// refused, or that the disk failed, adds no entry, and its session loads what is published. Where
/// memory runs out the session is as before, or it has loaded its entry and isn't answered.
pub fn writes_are_events<S: Shelf, C: Clock, K: Keeping>()
    ensures told { WriteTells S.sees C.sees K.start K.moment K.past K.honest K.count }
    ensures refused { RefusedWriteLoads S.sees C.sees K.start K.moment K.past K.honest }
    ensures untold { UntoldWriteStays S.sees C.sees K.start K.moment K.past K.honest }
    ensures spent { SpentWriteStands S.sees C.sees K.start K.moment K.past K.honest }
{}

/// The pending entry of the world is that of the store's debt, which is the group of a write that
/// the disk failed, or of none: nothing at the beginning, where nothing is owed, and behind a commit
/// what is owed then. Loads and answers leave it as it is.
pub fn debts_are_pending<S: Shelf, C: Clock, K: Keeping>()
    ensures kept { KeptOwes S.sees C.sees K.start K.moment K.past K.honest }
    ensures begins { NothingPends }
    ensures write { WriteMovesDebt S.sees C.sees K.start K.moment K.past K.honest }
    ensures reads { ReadingsKeepDebt }
{}

/// All that is promised of interleavings holds of each world that a keeper is at: answers by the
/// session rules, views, message numbers that stay, and a log with each write once.
pub fn promises_hold()
    ensures { PromisesHold }
{}
