//! What is read of message files.

ghost use Rattle.std.specs.Prelude.{◌≡◌, All, Some, IfErr, IfOk, length, map};
ghost use Rattle.dv_model.specs.Journals.{IsGuid};
ghost use Rattle.dv_shelf.specs.Causes.{HasCauseOf};
ghost use Rattle.dv_shelf.specs.Folders.{counted};
ghost use Rattle.dv_shelf.specs.declared.shelf.Name.TheVariants as name;
ghost use Rattle.dv_shelf.specs.declared.shelf.ShelfFault.TheVariants as fault;
ghost use Rattle.dv_chain.specs.Openings.{OnlyLooks};
ghost use Rattle.dv_files.specs.Reading.{IsTakenAs, ReadsMails, guid_taken, guid_rows};

use dv_dbox::{BoxEnd, Message, read};
use dv_model::{GuidRow, List};
use dv_shelf::{Name, Shelf, ShelfFault};
use std::alloc::Global;

/// What the message file of a UID is taken as.
#[derive(Drop)]
pub enum MailFile {
    /// It is of the format, and holds this message.
    Held(Message),
    /// It is missing or not of the format.
    Damaged,
}

impl MailFile {
    /// The GUID; sixteen zero bytes for a message without one, and for a damaged file.
    pub fn guid(&self) -> [u8; 16]
        ensures { result ≡ guid_taken self.now }
    {
        match self {
            MailFile::Held(message) => message.guid.unwrap_or([0; 16]),
            MailFile::Damaged => [0; 16],
        }
    }
}

/// What a file of these bytes is taken as.
fn taken_as(alloc: Global, bytes: &[u8]) -> Result<MailFile, ShelfFault>
    ensures ok { IfOk result (IsTakenAs (Some bytes.now)) }
    ensures err { IfErr result (λ e. e ≡ fault.NoMemory) }
{
    match read(alloc, bytes) {
        Ok(message) => Ok(MailFile::Held(message)),
        Err(BoxEnd::Fault(_)) => Ok(MailFile::Damaged),
        Err(BoxEnd::NoMemory) => Err(ShelfFault::NoMemory),
    }
}

/// What the message file of a UID is taken as: `Damaged` exactly where it is missing or refused by
/// `dv_dbox::read`. Reads the file once and writes nothing.
pub fn read_mail<S: Shelf>(alloc: Global, shelf: &mut S, uid: u32) -> Result<MailFile, ShelfFault>
    // The message, or that there is none.
    ensures found { S.sees.tells →
        IfOk result (IsTakenAs (S.sees.files shelf.old (name.Mail uid))) }
    // Nothing is changed.
    ensures looks { S.sees.tells →
        OnlyLooks S.sees shelf.old shelf.new }
    // One message file is read; a fault of the disk has its cause.
    ensures mail_reads { S.sees.mail_reads shelf.new ≡ counted (S.sees.mail_reads shelf.old) 1 }
    ensures cause { HasCauseOf ShelfFault.Failed
        (S.sees.fault_count shelf.old) (S.sees.fault_count shelf.new) result }
{
    match shelf.read(alloc, Name::Mail(uid))? {
        Some(bytes) => taken_as(alloc, bytes.as_slice()),
        None => Ok(MailFile::Damaged),
    }
}

/// The bytes of a GUID.
fn guid_bytes(guid: &[u8; 16]) -> &[u8]
    ensures { result.now ≡ guid.now }
{
    guid
}

/// A GUID has sixteen bytes, as its type has it. Nothing is computed.
fn is_guid(guid: &[u8; 16])
    ensures { IsGuid guid.now }
{
    let _bytes = guid_bytes(guid);
}

/// Each of these UIDs with the GUID of its message file, sixteen zero bytes where the file is
/// damaged or has none. Reads each file once, in the order of the UIDs, and writes nothing.
pub fn guids_of<S: Shelf>(
    alloc: Global,
    shelf: &mut S,
    uids: &[u32],
) -> Result<List<GuidRow>, ShelfFault>
    // The rows, beside the UIDs, each with a GUID.
    ensures beside { IfOk result (λ rows. (map (λ row. row.uid) rows ≡ uids.now)
        × All (λ row. IsGuid row.guid) rows) }
    ensures rows { S.sees.tells →
        IfOk result (λ rows. rows ≡ guid_rows (S.sees.files shelf.old) uids.now) }
    // Nothing is changed.
    ensures looks { S.sees.tells →
        OnlyLooks S.sees shelf.old shelf.new }
    // Each message file is read once; a fault of the disk has its cause.
    ensures mail_reads { ReadsMails (length uids.now)
        (S.sees.mail_reads shelf.old) (S.sees.mail_reads shelf.new) result }
    ensures cause { HasCauseOf ShelfFault.Failed
        (S.sees.fault_count shelf.old) (S.sees.fault_count shelf.new) result }
{
    let mut rows = List::new(alloc);
    for uid in uids {
        let mail = read_mail(alloc, shelf, *uid)?;
        let guid = mail.guid();
        is_guid(&guid);
        match rows.push(GuidRow { uid: *uid, guid }) {
            Ok(()) => (),
            Err(_) => return Err(ShelfFault::NoMemory),
        }
    }
    Ok(rows)
}
