ghost use Rattle.std.specs.Prelude.{◌≡◌, ◌<◌, IsOk, length, take};
ghost use Rattle.dv_model.specs.declared.types.Mailbox.{Mailbox};
ghost use Rattle.dv_shelf.specs.Causes.{HasCause};
ghost use Rattle.dv_shelf.specs.Folders.{contents};
ghost use Rattle.dv_shelf.specs.declared.shelf.Name.TheVariants as name;
ghost use Rattle.dv_logfile.specs.Commits.{ShutsGate};
ghost use Rattle.dv_logfile.specs.Gates.{HasDiskCause};
ghost use Rattle.dv_logfile.specs.Settling.{StaysSettled};
ghost use Rattle.dv_chain.specs.Openings.{HasBounds};
ghost use Rattle.dv_chain.specs.Rest.{IsPending, Nothing, Owed, Rests};
ghost use Rattle.dv_writing.specs.Commits.{AdvancesChain, CommitsGroup, HealsChain, HealsFolder, IsReady};

use dv_apply::Prepared;
use dv_chain::Chain;
use dv_logfile::{CommitFault, Debt};
use dv_model::{Bytes, Mark};
use dv_shelf::{Failed, Shelf};
use dv_touched::Touched;

/// A group that was committed.
#[derive(Drop)]
pub struct Committed {
    /// The place behind it.
    pub mark: Mark,
    /// The UIDs of which a session is to be told.
    pub touched: Touched,
}

/// Adds a group of records to the log and shows what was prepared of them. Takes no memory. After
/// `Disk` the mailbox is as before, and the log's debt says whether the group is owed a heal.
pub fn commit<S: Shelf>(
    chain: &mut Chain,
    shelf: &mut S,
    text: &Bytes,
    prepared: Prepared,
) -> Result<Committed, CommitFault>
    requires ready { IsReady text.now prepared chain.old }
    requires debt { chain.old.log.debt ≡ Debt.None }
    // The mailbox, the mark, the touched UIDs and the debt; what an error keeps.
    ensures value { AdvancesChain text.now chain.old chain.new result }
    // What the folder opens to, at any moment and afterwards; from rest to rest.
    ensures opens { S.sees.tells → (after : Mailbox) → IsPending text.now after chain.old →
        Rests S.sees Nothing chain.old shelf.old →
        CommitsGroup S.sees
        text.now after chain.old chain.new result shelf.old shelf.new }
    ensures settled { S.sees.tells → StaysSettled S.sees shelf.old shelf.new }
    // The log's bytes before the group stay.
    ensures front { S.sees.tells →
        chain.old.log.end < length (contents (S.sees.files shelf.old) name.Log) →
        take chain.old.log.end (contents (S.sees.files shelf.new) name.Log)
        ≡ take chain.old.log.end (contents (S.sees.files shelf.old) name.Log) }
    // No message file is read; a fault of the disk has its cause.
    ensures mail_reads { S.sees.mail_reads shelf.new ≡ S.sees.mail_reads shelf.old }
    ensures cause { HasDiskCause (S.sees.fault_count shelf.old) (S.sees.fault_count shelf.new)
        result }
{
    let mark = chain.log.commit(shelf, text)?;
    let touched = chain.live.complete(prepared);
    Ok(Committed { mark, touched })
}

/// Takes back a group that a failed commit may have left, where the log owes it. Takes no memory.
/// After `Failed` the chain is as before.
pub fn heal<S: Shelf>(chain: &mut Chain, shelf: &mut S) -> Result<(), Failed>
    requires { HasBounds chain.old }
    // The debt, and what stays. Where nothing is owed nothing is done.
    ensures value { HealsChain chain.old chain.new result }
    ensures nothing { chain.old.log.debt ≡ Debt.None → IsOk result × (shelf.new ≡ shelf.old) }
    // The files as reads give them.
    ensures bytes { S.sees.tells →
        ShutsGate chain.old.log result (S.sees.files shelf.old) (S.sees.files shelf.new) }
    // What the folder opens to, at any moment and afterwards; from rest to rest.
    ensures opens { S.sees.tells → (owed : Owed) → Rests S.sees owed chain.old shelf.old →
        HealsFolder S.sees
        owed chain.old chain.new result shelf.old shelf.new }
    ensures settled { S.sees.tells → StaysSettled S.sees shelf.old shelf.new }
    // No message file is read; a fault of the disk has its cause.
    ensures mail_reads { S.sees.mail_reads shelf.new ≡ S.sees.mail_reads shelf.old }
    ensures cause { HasCause (S.sees.fault_count shelf.old) (S.sees.fault_count shelf.new) result }
{
    chain.log.heal(shelf)
}
