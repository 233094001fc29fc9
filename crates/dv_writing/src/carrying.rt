//! A write as a whole.

ghost use Rattle.std.specs.Prelude.{◌≡◌};
ghost use Rattle.dv_model.specs.Journals.{Log};
ghost use Rattle.dv_shelf.specs.Causes.{HasCause};
ghost use Rattle.dv_logfile.specs.Settling.{StaysSettled};
ghost use Rattle.dv_writing.specs.Debts.{Debt, Fits, Stands};
ghost use Rattle.dv_writing.specs.Repairing.{IsOwing};
ghost use Rattle.dv_writing.specs.Steps.{AreSteps};
ghost use Rattle.dv_writing.specs.Ways.{HasTurned, held};
ghost use Rattle.dv_writing.specs.Writes.{CarriesOut, IsWriteOf, Write, WritesStore};

use crate::{Committed, Steps, commit, make_way, write_files};
use dv_chain::Chain;
use dv_files::Turn;
use dv_model::Bytes;
use dv_shelf::{Failed, Shelf};

/// Carries out a write whose group has this text: pays what is owed, rotates the log where that is
/// due, writes the files before the group, and then the group. Takes no memory. After `Failed` the
/// mailbox is as before, and what is owed is kept. A crash at any moment leaves a folder that gives
/// the mailbox from before, with what was owed, or with the group, whole.
pub fn carry_out<S: Shelf>(
    chain: &mut Chain,
    shelf: &mut S,
    owed: &mut Option<Turn>,
    text: &Bytes,
    steps: Steps,
) -> Result<Committed, Failed>
    requires owing { IsOwing chain.old owed.old }
    requires steps { AreSteps owed.old chain.old text.now steps }
    // The mailbox, the mark, the touched UIDs and what is owed; what an error keeps.
    ensures value { CarriesOut owed.old owed.new text.now steps chain.old chain.new result }
    // What the folder gives and the files, at any moment and afterwards; from rest to rest.
    ensures gives { S.sees.tells → (log : Log) (debt : Debt) (write : Write) → Fits owed.old debt →
        Stands S.sees log debt chain.old shelf.old →
        IsWriteOf log write owed.old chain.old (S.sees.files shelf.old) text.now steps →
        WritesStore S.sees log debt write text.now steps (held shelf.old chain.old owed.old)
        (held shelf.new chain.new owed.new) result }
    ensures settled { S.sees.tells → StaysSettled S.sees shelf.old shelf.new }
    // The header of a log that was rotated.
    ensures turned { S.sees.tells →
        HasTurned steps.turn chain.old chain.new (S.sees.files shelf.new) }
    // No message file is read; an error has its cause.
    ensures mail_reads { S.sees.mail_reads shelf.new ≡ S.sees.mail_reads shelf.old }
    ensures cause { HasCause (S.sees.fault_count shelf.old) (S.sees.fault_count shelf.new) result }
{
    let Steps {
        turn,
        files,
        prepared,
    } = steps;
    make_way(chain, shelf, owed, turn)?;
    write_files(chain, shelf, &files)?;
    match commit(chain, shelf, text, prepared) {
        Ok(committed) => Ok(committed),
        Err(_) => Err(Failed),
    }
}
