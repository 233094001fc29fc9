ghost use Rattle.dv_keeper_cuts.specs.Acknowledging.{IsAcknowledged};
ghost use Rattle.dv_shelf.specs.Folders.{Folder};
ghost use Rattle.dv_stopping.specs.Stops.{leavings};

use dv_keeper::Keeper;
use dv_member::Session;
use dv_naming::{Keeping, Tally};
use dv_shelf::{Clock, Shelf};
use dv_stopping::Stopping;
use dv_store::Store;

/// The end of a run whose sessions went on over a folder that passes so many calls and stops in the
/// middle of the next one, as at a power cut: what that call leaves is what a crash at some moment
/// of it may leave, and from then on every call fails. Where fewer calls are made the folder doesn't
/// stop, and what it leaves is what a crash behind the run may leave.
pub fn close_behind_cut<S: Shelf, C: Clock, K: Keeping, L: Tally, M: Tally>(
    keeper: Keeper<Stopping<S>, C, K, L, M>,
    sessions: Vec<Session<K, L, M>>,
) -> (Store<Stopping<S>, C>, u64)
    // Each folder that the power cut leaves opens to one log. Whatever a session that is handed in
    // was answered up to then it was answered over that log: each write that it was told is done
    // stands there as the entry behind what it met.
    ensures acknowledged { K.honest → (folder : Folder)
        → leavings S.sees result.0.shelf folder
        → IsAcknowledged K.start K.count sessions.items folder }
{
    keeper.close(sessions)
}
