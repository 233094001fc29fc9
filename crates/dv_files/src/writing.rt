//! Message files that are written and removed.

ghost use Rattle.std.specs.Prelude.{◌≡◌, List, ℕ, IfOk, OnOk};
ghost use Rattle.dv_shelf.specs.Causes.{HasCause};
ghost use Rattle.dv_shelf.specs.declared.shelf.Name.TheVariants as name;
ghost use Rattle.dv_dbox.specs.BoxTexts.{written};
ghost use Rattle.dv_chain.specs.declared.chain.Chain.{Chain};
ghost use Rattle.dv_chain.specs.Rest.{Owed, Rests};
ghost use Rattle.dv_files.specs.Leavings.{IsPut, Leaves, Puts};
ghost use Rattle.dv_files.specs.Resting.{KeepsRest};
ghost use Rattle.dv_files.specs.Writing.{HoldsMail, IsFileOf, IsRemoved, IsSweeping};
ghost use Rattle.dv_files.specs.Writing.{Removes, Sweeps};

use dv_dbox::write;
use dv_model::{Bytes, NoMemory};
use dv_shelf::{Failed, Name, Shelf};
use std::alloc::Global;

/// The text of a message's file, which is made and received now, in seconds since 1970. `NoMemory`
/// is the only error.
pub fn mail_text(
    alloc: Global,
    guid: &[u8; 16],
    now: u32,
    message: &[u8],
) -> Result<Bytes, NoMemory>
    ensures text { IfOk result (λ text. text ≡ written now guid.now now message.now) }
    ensures is { IfOk result (IsFileOf message.now guid.now) }
{
    write(alloc, now, guid, now, message)
}

/// Writes the message file of a UID by one replace: the text that `mail_text` gives for a message.
/// Takes no memory. After `Failed` the file is as before or has the text.
pub fn put<S: Shelf>(shelf: &mut S, uid: u32, text: &Bytes) -> Result<(), Failed>
    // The files, and what a crash leaves of them, afterwards and at any moment.
    ensures leaves { S.sees.tells → Leaves S.sees
        (Puts (name.Mail uid) text.now result) (IsPut (name.Mail uid) text.now)
        shelf.old shelf.new }
    // Behind Ok the message is there with its GUID, whatever a crash leaves.
    ensures held { S.sees.tells → (message guid : List ℕ) → IsFileOf message guid text.now →
        OnOk result (HoldsMail S.sees uid message guid shelf.new) }
    // A chain at rest stays so, whatever it owes.
    ensures quiet { S.sees.tells → (owed : Owed) (chain : Chain) →
        Rests S.sees owed chain shelf.old →
        KeepsRest S.sees owed chain shelf.old shelf.new }
    // No message file is read; an error has its cause.
    ensures mail_reads { S.sees.mail_reads shelf.new ≡ S.sees.mail_reads shelf.old }
    ensures cause { HasCause (S.sees.fault_count shelf.old) (S.sees.fault_count shelf.new) result }
{
    shelf.replace(Name::Mail(uid), text.as_slice())
}

/// Removes the message file of a UID.
fn remove_mail<S: Shelf>(shelf: &mut S, uid: u32) -> Result<(), Failed>
    ensures leaves { S.sees.tells → Leaves S.sees
        (Removes (name.Mail uid) result) (IsRemoved (name.Mail uid)) shelf.old shelf.new }
    ensures mail_reads { S.sees.mail_reads shelf.new ≡ S.sees.mail_reads shelf.old }
    ensures cause { HasCause (S.sees.fault_count shelf.old) (S.sees.fault_count shelf.new) result }
{
    shelf.remove(Name::Mail(uid))
}

/// Removes the message files of these UIDs, in their order, by one remove each; a file that isn't
/// there stays so. Takes no memory. After `Failed` the files of the first UIDs are gone, of some or
/// all.
pub fn sweep<S: Shelf>(shelf: &mut S, uids: &[u32]) -> Result<(), Failed>
    // The files, and what a crash leaves of them, afterwards and at any moment.
    ensures leaves { S.sees.tells → Leaves S.sees
        (Sweeps uids.now result) (IsSweeping uids.now) shelf.old shelf.new }
    // A chain at rest stays so, whatever it owes.
    ensures quiet { S.sees.tells → (owed : Owed) (chain : Chain) →
        Rests S.sees owed chain shelf.old →
        KeepsRest S.sees owed chain shelf.old shelf.new }
    // No message file is read; an error has its cause.
    ensures mail_reads { S.sees.mail_reads shelf.new ≡ S.sees.mail_reads shelf.old }
    ensures cause { HasCause (S.sees.fault_count shelf.old) (S.sees.fault_count shelf.new) result }
{
    for uid in uids {
        remove_mail(shelf, *uid)?;
    }
    Ok(())
}
