//! The files before a group.

ghost use Rattle.std.specs.Prelude.{◌≡◌, OnOk};
ghost use Rattle.dv_model.specs.declared.types.Mailbox.{Mailbox};
ghost use Rattle.dv_model.specs.Journals.{Log};
ghost use Rattle.dv_shelf.specs.Causes.{HasCause};
ghost use Rattle.dv_logfile.specs.Settling.{StaysSettled};
ghost use Rattle.dv_writing.specs.Debts.{Nothing, Stands};
ghost use Rattle.dv_writing.specs.Groups.{KeepsNext};
ghost use Rattle.dv_writing.specs.Quiet.{IsQuiet};
ghost use Rattle.dv_writing.specs.declared.steps.Files.TheVariants as kind;
ghost use Rattle.dv_writing.specs.Steps.{AreFilesFor, HasFiles, KeepsUnnamed, MayRenew};
ghost use Rattle.dv_writing.specs.Writes.{AreFilesOf, IsAfter, Write, log_with};

use crate::{Files, Renewal, clear, put_message, renew};
use dv_chain::Chain;
use dv_shelf::{Failed, Shelf};

/// Removes the message files that no row has, and replaces index and cache file.
fn check_files<S: Shelf>(chain: &Chain, shelf: &mut S, renewal: &Renewal) -> Result<(), Failed>
    requires { AreFilesFor chain.now (kind.Check renewal.now) }
    // Behind Ok they are written, in the files and whatever a crash leaves; the other files stay.
    ensures written { S.sees.tells → OnOk result (HasFiles S.sees
        chain.now.live.mailbox (kind.Check renewal.now) shelf.new) }
    ensures others { S.sees.tells → KeepsUnnamed chain.now.live.mailbox (kind.Check renewal.now)
        (S.sees.files shelf.old) (S.sees.files shelf.new) }
    // What the folder gives stays, at any moment.
    ensures quiet { S.sees.tells → (log : Log) →
        Stands S.sees log Nothing chain.now shelf.old →
        MayRenew log chain.now.live.mailbox (kind.Check renewal.now) →
        IsQuiet S.sees log chain.now shelf.old shelf.new }
    ensures settled { S.sees.tells → StaysSettled S.sees shelf.old shelf.new }
    // No message file is read; an error has its cause.
    ensures mail_reads { S.sees.mail_reads shelf.new ≡ S.sees.mail_reads shelf.old }
    ensures cause { HasCause (S.sees.fault_count shelf.old) (S.sees.fault_count shelf.new) result }
{
    clear(chain, shelf, renewal.gone.as_slice())?;
    renew(chain, shelf, &renewal.index, &renewal.cache)
}

/// Writes or removes the files that come before a group. Takes no memory. After `Failed` some of
/// these files are as before, the others as behind. A crash at any moment leaves a folder that
/// gives the same mailbox.
pub fn write_files<S: Shelf>(chain: &Chain, shelf: &mut S, files: &Files) -> Result<(), Failed>
    requires { AreFilesFor chain.now files.now }
    // Behind Ok they are written, in the files and whatever a crash leaves; the other files stay.
    ensures written { S.sees.tells → OnOk result
        (HasFiles S.sees chain.now.live.mailbox files.now shelf.new) }
    ensures others { S.sees.tells → KeepsUnnamed chain.now.live.mailbox files.now
        (S.sees.files shelf.old) (S.sees.files shelf.new) }
    // What the folder gives stays, at any moment.
    ensures quiet { S.sees.tells → (log : Log) →
        Stands S.sees log Nothing chain.now shelf.old →
        MayRenew log chain.now.live.mailbox files.now →
        IsQuiet S.sees log chain.now shelf.old shelf.new }
    ensures settled { S.sees.tells → StaysSettled S.sees shelf.old shelf.new }
    // Behind Ok whatever a crash leaves keeps the mailbox with the group of a write, too.
    ensures next { S.sees.tells → (log : Log) (write : Write) (after : Mailbox) →
        Stands S.sees log Nothing chain.now shelf.old →
        IsAfter log write chain.now.live.mailbox after →
        AreFilesOf log write.received chain.now.live.mailbox write.command files.now →
        OnOk result (KeepsNext S.sees log
        (log_with log write chain.now.live.mailbox) after shelf.new) }
    // No message file is read; an error has its cause.
    ensures mail_reads { S.sees.mail_reads shelf.new ≡ S.sees.mail_reads shelf.old }
    ensures cause { HasCause (S.sees.fault_count shelf.old) (S.sees.fault_count shelf.new) result }
{
    match files {
        Files::Nothing => Ok(()),
        Files::Message(text) => put_message(chain, shelf, text),
        Files::Check(renewal) => check_files(chain, shelf, renewal),
    }
}
