//! What an earlier write left is repaired before the next one.

ghost use Rattle.std.specs.Prelude.{◌≡◌, None};
ghost use Rattle.dv_shelf.specs.Causes.{HasCause};
ghost use Rattle.dv_logfile.specs.Settling.{StaysSettled};
ghost use Rattle.dv_chain.specs.Rest.{Owed};
ghost use Rattle.dv_writing.specs.Repairing.{IsOwing, KeepsTurn, Repairs, RepairsFiles};
ghost use Rattle.dv_maps.specs.Texts.{Messages};
ghost use Rattle.dv_filing.specs.Standing.{Fits, PaysQuietly, Stands};

use dv_chain::Chain;
use dv_files::{Turn, finish};
use dv_shelf::{Failed, Shelf};
use dv_writing::heal;

/// Takes back the group that a failed commit may have left, or makes the last replace of a rotation
/// again, whichever is owed. Takes no memory. After `Failed` the same is still owed. A crash at any
/// moment leaves a folder that gives the map, or that with what was owed.
pub fn pay<S: Shelf>(
    chain: &mut Chain,
    shelf: &mut S,
    turn: &mut Option<Turn>,
) -> Result<(), Failed>
    requires { IsOwing chain.old turn.old }
    // The chain and the turn, also behind an error.
    ensures value { Repairs turn.old turn.new chain.old chain.new result }
    // The files as reads give them.
    ensures files { S.sees.tells →
        RepairsFiles turn.old chain.old.log result (S.sees.files shelf.old)
        (S.sees.files shelf.new) }
    // Where no turn was owed, one that was made before may still be used.
    ensures turns { S.sees.tells → turn.old ≡ None → (made : Turn) →
        KeepsTurn made chain.old chain.new result (S.sees.files shelf.old)
        (S.sees.files shelf.new) }
    // What a crash leaves, at any moment and afterwards; from rest to rest.
    ensures quiet { S.sees.tells → (messages : Messages) (owed : Owed) →
        Fits turn.old chain.old.live.mailbox owed →
        Stands S.sees messages owed chain.old shelf.old →
        PaysQuietly S.sees messages owed chain.old chain.new result shelf.old shelf.new }
    ensures settled { S.sees.tells → StaysSettled S.sees shelf.old shelf.new }
    // No message file is read; a fault of the disk has its cause.
    ensures mail_reads { S.sees.mail_reads shelf.new ≡ S.sees.mail_reads shelf.old }
    ensures cause { HasCause (S.sees.fault_count shelf.old) (S.sees.fault_count shelf.new) result }
{
    match turn {
        Some(made) => {
            finish(chain, shelf, made)?;
            *turn = None;
            Ok(())
        }
        None => heal(chain, shelf),
    }
}
