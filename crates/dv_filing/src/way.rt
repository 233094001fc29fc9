//! What comes before a write's own files.

ghost use Rattle.std.specs.Prelude.{◌≡◌, IfSome};
ghost use Rattle.dv_shelf.specs.Causes.{HasCause};
ghost use Rattle.dv_logfile.specs.Settling.{StaysSettled};
ghost use Rattle.dv_chain.specs.Rest.{Owed};
ghost use Rattle.dv_files.specs.Texts.{ClosesLog};
ghost use Rattle.dv_writing.specs.Repairing.{IsOwing};
ghost use Rattle.dv_writing.specs.Ways.{IsDue, MakesWay, MakesWayIn, held};
ghost use Rattle.dv_maps.specs.Texts.{Messages};
ghost use Rattle.dv_filing.specs.Standing.{Fits, Stands};
ghost use Rattle.dv_filing.specs.Ways.{MakesWayQuietly};

use crate::{pay, turn_over};
use dv_chain::Chain;
use dv_files::Turn;
use dv_shelf::{Failed, Shelf};

/// Pays what is owed, and then rotates the log by a turn that was made for it, where there is one.
/// Takes no memory. After `Failed` the map is as before, and what is owed is kept. A crash at any
/// moment leaves a folder that gives the same map, or that with what was owed.
pub fn make_way<S: Shelf>(
    chain: &mut Chain,
    shelf: &mut S,
    owed: &mut Option<Turn>,
    turn: Option<Turn>,
) -> Result<(), Failed>
    requires owing { IsOwing chain.old owed.old }
    requires due { IsDue owed.old chain.old turn }
    // The chain and the turn that is owed, also behind an error.
    ensures value { MakesWay owed.old owed.new turn chain.old chain.new result }
    // What is left gives the same map; from rest to rest.
    ensures quiet { S.sees.tells → (messages : Messages) (debt : Owed) →
        Fits owed.old chain.old.live.mailbox debt →
        Stands S.sees messages debt chain.old shelf.old →
        IfSome turn (λ t. ClosesLog chain.old t (S.sees.files shelf.old)) →
        MakesWayQuietly S.sees messages debt turn (held shelf.old chain.old owed.old)
        (held shelf.new chain.new owed.new) result }
    ensures settled { S.sees.tells → StaysSettled S.sees shelf.old shelf.new }
    // The files: the log, and where a rotation is due the index and the rotated log.
    ensures files { S.sees.tells →
        MakesWayIn turn result (S.sees.files shelf.old) (S.sees.files shelf.new) }
    // No message file is read; an error has its cause.
    ensures mail_reads { S.sees.mail_reads shelf.new ≡ S.sees.mail_reads shelf.old }
    ensures cause { HasCause (S.sees.fault_count shelf.old) (S.sees.fault_count shelf.new) result }
{
    pay(chain, shelf, owed)?;
    match turn {
        Some(made) => turn_over(chain, shelf, made, owed),
        None => Ok(()),
    }
}
