//! A long log is rotated before the next group.

ghost use Rattle.std.specs.Prelude.{◌≡◌, ◌<◌, None};
ghost use Rattle.dv_shelf.specs.Causes.{HasCause};
ghost use Rattle.dv_chain.specs.Rest.{Nothing};
ghost use Rattle.dv_files.specs.Leavings.{IsTurning, Leaves};
ghost use Rattle.dv_files.specs.Texts.{ClosesLog, IsTurnOf};
ghost use Rattle.dv_writing.specs.Turning.{TurnsFiles, TurnsOver};
ghost use Rattle.dv_maps.specs.Texts.{Messages};
ghost use Rattle.dv_filing.specs.Standing.{Stands, TurnsQuietly};

use dv_chain::Chain;
use dv_files::{Turn, TurnEnd, rotate};
use dv_shelf::{Failed, Shelf};

/// Rotates the log by a turn's three replaces. Takes no memory. After `Failed` the log is as it
/// was; or its last replace is owed, and then the turn is kept. A crash at any moment leaves a
/// folder that gives the map, at its place or at the first place of the new file.
pub fn turn_over<S: Shelf>(
    chain: &mut Chain,
    shelf: &mut S,
    turn: Turn,
    owed: &mut Option<Turn>,
) -> Result<(), Failed>
    requires room { chain.old.log.file_seq < 4294967295 }
    requires turn { IsTurnOf chain.old turn }
    requires none { owed.old ≡ None }
    // The chain and the turn that is kept, also behind an error.
    ensures value { TurnsOver turn owed.new chain.old chain.new result }
    // The files, and what a crash leaves of them, afterwards and at any moment.
    ensures leaves { S.sees.tells → Leaves S.sees
        (TurnsFiles turn owed.new result) (IsTurning turn) shelf.old shelf.new }
    // What is left gives the same map; from rest to rest.
    ensures quiet { S.sees.tells → (messages : Messages) →
        Stands S.sees messages Nothing chain.old shelf.old →
        ClosesLog chain.old turn (S.sees.files shelf.old) →
        TurnsQuietly S.sees messages turn owed.new chain.old chain.new shelf.old shelf.new }
    // No message file is read; an error has its cause.
    ensures mail_reads { S.sees.mail_reads shelf.new ≡ S.sees.mail_reads shelf.old }
    ensures cause { HasCause (S.sees.fault_count shelf.old) (S.sees.fault_count shelf.new) result }
{
    match rotate(chain, shelf, &turn) {
        Ok(()) => Ok(()),
        Err(TurnEnd::Before) => Err(Failed),
        Err(TurnEnd::Last) => {
            *owed = Some(turn);
            Err(Failed)
        }
    }
}
