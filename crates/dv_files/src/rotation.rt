//! A rotation of the log: the three replaces, and the last one made again.

ghost use Rattle.std.specs.Prelude.{◌≡◌, ◌<◌};
ghost use Rattle.dv_shelf.specs.Causes.{HasCause};
ghost use Rattle.dv_shelf.specs.declared.shelf.Name.TheVariants as name;
ghost use Rattle.dv_chain.specs.Rest.{Last, Nothing, Rests};
ghost use Rattle.dv_files.specs.Leavings.{IsPut, IsTurning, Leaves, Puts, Turns};
ghost use Rattle.dv_files.specs.Quiet.{FinishesQuietly, TurnsQuietly};
ghost use Rattle.dv_files.specs.Texts.{Advances, ClosesLog, IsTurnOf, turned};

use crate::storing::{put, put_both};
use crate::{Turn, TurnEnd};
use dv_chain::Chain;
use dv_shelf::{Failed, Name, Shelf};

/// Where the first record of a new log stands.
const HEADER_SIZE: u32 = 40;

/// The chain goes on in the new file.
fn advance(chain: &mut Chain)
    requires { chain.old.log.file_seq < 4294967295 }
    ensures { chain.new ≡ turned chain.old }
{
    chain.log.file_seq += 1;
    chain.log.end = HEADER_SIZE;
    chain.log.count = 0;
    chain.records = chain.live.highest();
}

/// Rotates the log: replaces the index, the rotated log and the log, in this order, by the texts of
/// a turn. Takes no memory. `Before` comes exactly where the first or the second replace failed,
/// `Last` exactly where the last one did; then `finish` makes it again. A crash at any moment
/// leaves a folder that opens to the chain's mailbox, at its place or at the new file's first one.
pub fn rotate<S: Shelf>(chain: &mut Chain, shelf: &mut S, turn: &Turn) -> Result<(), TurnEnd>
    requires room { chain.old.log.file_seq < 4294967295 }
    requires turn { IsTurnOf chain.old turn.now }
    // Behind Ok the chain stands on the new file, an error leaves it as it was.
    ensures value { Advances chain.old chain.new result }
    // The files, and what a crash leaves of them, afterwards and at any moment.
    ensures leaves { S.sees.tells → Leaves S.sees
        (Turns turn.now result) (IsTurning turn.now) shelf.old shelf.new }
    // What is left opens to the same mailbox, behind Ok in the new file; from rest to rest.
    ensures quiet { S.sees.tells → Rests S.sees Nothing chain.old shelf.old →
        ClosesLog chain.old turn.now (S.sees.files shelf.old) →
        TurnsQuietly S.sees turn.now chain.old chain.new result
        shelf.old shelf.new }
    // No message file is read; an error has its cause.
    ensures mail_reads { S.sees.mail_reads shelf.new ≡ S.sees.mail_reads shelf.old }
    ensures cause { HasCause (S.sees.fault_count shelf.old) (S.sees.fault_count shelf.new) result }
{
    match put_both(shelf, turn) {
        Ok(()) => (),
        Err(_) => return Err(TurnEnd::Before),
    }
    match put(shelf, Name::Log, &turn.new) {
        Ok(()) => (),
        Err(_) => return Err(TurnEnd::Last),
    }
    advance(chain);
    Ok(())
}

/// Makes the last replace of a rotation again, behind a `rotate` that answered `Last`. Takes no
/// memory. After `Failed` it is still owed. A crash at any moment leaves a folder that opens to the
/// chain's mailbox, at its place or at the new file's first one.
pub fn finish<S: Shelf>(chain: &mut Chain, shelf: &mut S, turn: &Turn) -> Result<(), Failed>
    requires room { chain.old.log.file_seq < 4294967295 }
    requires turn { IsTurnOf chain.old turn.now }
    // Behind Ok the chain stands on the new file, an error leaves it as it was.
    ensures value { Advances chain.old chain.new result }
    // The files, and what a crash leaves of them, afterwards and at any moment.
    ensures leaves { S.sees.tells → Leaves S.sees
        (Puts name.Log turn.now.new result) (IsPut name.Log turn.now.new) shelf.old shelf.new }
    // What is left opens to the same mailbox, behind Ok in the new file; from rest to rest.
    ensures quiet { S.sees.tells →
        Rests S.sees (Last turn.now.new chain.old.live.mailbox) chain.old shelf.old →
        FinishesQuietly S.sees turn.now chain.old chain.new result
        shelf.old shelf.new }
    // No message file is read; an error has its cause.
    ensures mail_reads { S.sees.mail_reads shelf.new ≡ S.sees.mail_reads shelf.old }
    ensures cause { HasCause (S.sees.fault_count shelf.old) (S.sees.fault_count shelf.new) result }
{
    put(shelf, Name::Log, &turn.new)?;
    advance(chain);
    Ok(())
}
