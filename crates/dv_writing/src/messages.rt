//! The message file of an append.

ghost use Rattle.std.specs.Prelude.{◌≡◌, List, ℕ, OnOk};
ghost use Rattle.dv_model.specs.Journals.{Log};
ghost use Rattle.dv_model.specs.Mailboxes.{IsValid};
ghost use Rattle.dv_shelf.specs.Causes.{HasCause};
ghost use Rattle.dv_shelf.specs.declared.shelf.Name.TheVariants as name;
ghost use Rattle.dv_files.specs.Leavings.{IsPut, Leaves, Puts};
ghost use Rattle.dv_files.specs.Writing.{HoldsMail, IsFileOf};
ghost use Rattle.dv_writing.specs.Debts.{Nothing, Stands};
ghost use Rattle.dv_writing.specs.Quiet.{IsQuiet};

use dv_chain::Chain;
use dv_files::put;
use dv_model::Bytes;
use dv_shelf::{Failed, Shelf};

/// Writes the message file of the chain's UIDNEXT, which no row has: the text that
/// `dv_files::mail_text` gives for a message. Takes no memory. After `Failed` the file is as before
/// or has the text.
pub fn put_message<S: Shelf>(chain: &Chain, shelf: &mut S, text: &Bytes) -> Result<(), Failed>
    // This file alone, in the files and in what a crash leaves of them.
    ensures leaves { S.sees.tells → Leaves S.sees
        (Puts (name.Mail chain.now.live.mailbox.next_uid) text.now result)
        (IsPut (name.Mail chain.now.live.mailbox.next_uid) text.now) shelf.old shelf.new }
    // Behind Ok the message is there with its GUID, whatever a crash leaves.
    ensures held { S.sees.tells → (message guid : List ℕ) → IsFileOf message guid text.now →
        OnOk result (HoldsMail S.sees chain.now.live.mailbox.next_uid
        message guid shelf.new) }
    // No row has that UID.
    ensures valid { IsValid chain.now.live.mailbox }
    // What the folder gives stays, at any moment.
    ensures quiet { S.sees.tells → (log : Log) →
        Stands S.sees log Nothing chain.now shelf.old →
        IsQuiet S.sees log chain.now shelf.old shelf.new }
    // No message file is read; an error has its cause.
    ensures mail_reads { S.sees.mail_reads shelf.new ≡ S.sees.mail_reads shelf.old }
    ensures cause { HasCause (S.sees.fault_count shelf.old) (S.sees.fault_count shelf.new) result }
{
    put(shelf, chain.live.next_uid(), text)
}
