//! What is looked up of a storage's messages.

ghost use Rattle.std.specs.Prelude.{◌≡◌, ◌+◌, ◌<◌, ◌≤◌, IfSome, Some, None, IfOk, drop, length, nat_le, take, if◌then◌else◌};
ghost use Rattle.std.specs.Option.{option_copied};
ghost use Rattle.dv_shelf.specs.Causes.{HasCauseOf};
ghost use Rattle.dv_shelf.specs.Folders.{counted};
ghost use Rattle.dv_dbox.specs.Mails.{mail_in};
ghost use Rattle.dv_chain.specs.Openings.{OnlyLooks};
ghost use Rattle.dv_maps.specs.Texts.{text_at, text_in};
ghost use Rattle.dv_mdbox.specs.Answers.{HasStorageCause};
ghost use Rattle.dv_mdbox.specs.Looks as looks;
ghost use Rattle.dv_mdbox.specs.Looks.{CountsRead, GetsMessage, got_mail, reference_in, row_of};
ghost use Rattle.dv_mdbox.specs.States.{IsLookedAt};

use crate::fault::told;
use crate::{Got, Storage, StorageFault};
use dv_apply::Live;
use dv_dbox::{BoxEnd, read};
use dv_maps::{Place, count_of, place_of};
use dv_model::{NoMemory, Row};
use dv_shelf::{Name, Shelf, ShelfFault};
use std::alloc::Global;

/// How many references an id has, at least one, and where its text stands.
#[derive(Clone, Copy)]
pub struct Reference {
    /// How many.
    pub count: u16,
    /// Where its text stands.
    pub place: Place,
}

/// The row of an id.
pub(crate) fn row_of(live: &Live, id: u32) -> Option<&Row>
    ensures { option_copied result ≡ row_of live.now.mailbox id }
{
    match live.position(id) {
        Some(at) => Some(live.row(at)),
        None => None,
    }
}

/// How many references a row has, and where its text stands; none where it has no reference.
fn reference_in(live: &Live, row: &Row) -> Option<Reference>
    ensures is { result ≡ reference_in live.now.mailbox row.now }
    ensures some { IfSome result (λ r. (1 ≤ r.count) × (r.count < 65536)) }
{
    let extensions = live.extensions().list().as_slice();
    let count = count_of(extensions, row.parts.as_slice());
    let place = place_of(extensions, row.parts.as_slice());
    if count > 0 {
        Some(Reference { count, place })
    } else {
        None
    }
}

/// How many references an id has, and where its text stands; none where it isn't there or has no
/// reference. Takes no memory.
pub(crate) fn reference_of(live: &Live, id: u32) -> Option<Reference>
    ensures is { result ≡ looks.reference_of live.now.mailbox id }
    ensures some { IfSome result (λ r. (1 ≤ r.count) × (r.count < 65536)) }
{
    match row_of(live, id) {
        Some(row) => reference_in(live, row),
        None => None,
    }
}

/// The bytes at a place, where it is in the file.
pub(crate) fn bytes_at(bytes: &[u8], place: Place) -> Option<&[u8]>
    ensures { option_copied result ≡ (if nat_le (place.offset + place.size) (length bytes.now)
        then Some (take place.size (drop place.offset bytes.now)) else None) }
{
    let (_, behind) = bytes.split_at_checked(place.offset as usize)?;
    let (text, _) = behind.split_at_checked(place.size as usize)?;
    Some(text)
}

/// The message of a text.
pub(crate) fn message_of(alloc: Global, text: &[u8]) -> Result<Got, NoMemory>
    ensures { IfOk result (λ got. got_mail got ≡ mail_in (Some text.now)) }
{
    match read(alloc, text) {
        Ok(message) => Ok(Got::Held(message.bytes)),
        Err(BoxEnd::Fault(_)) => Ok(Got::Damaged),
        Err(BoxEnd::NoMemory) => Err(NoMemory),
    }
}

/// The message at a place of a file.
fn text_in(alloc: Global, bytes: &[u8], place: Place) -> Result<Got, NoMemory>
    ensures { IfOk result (λ got. got_mail got ≡ text_in (Some bytes.now) place) }
{
    match bytes_at(bytes, place) {
        Some(text) => message_of(alloc, text),
        None => Ok(Got::Damaged),
    }
}

/// The message at a place of a folder's files. Reads the file once.
pub(crate) fn read_text<S: Shelf>(
    alloc: Global,
    shelf: &mut S,
    place: Place,
) -> Result<Got, ShelfFault>
    ensures found { S.sees.tells →
        IfOk result (λ got. got_mail got ≡ text_at (S.sees.files shelf.old) place) }
    ensures looks { S.sees.tells → OnlyLooks S.sees shelf.old shelf.new }
    ensures mail_reads { S.sees.mail_reads shelf.new ≡ counted (S.sees.mail_reads shelf.old) 1 }
    ensures cause { HasCauseOf ShelfFault.Failed
        (S.sees.fault_count shelf.old) (S.sees.fault_count shelf.new) result }
{
    match shelf.read(alloc, Name::Mail(place.file))? {
        Some(bytes) => match text_in(alloc, bytes.as_slice(), place) {
            Ok(got) => Ok(got),
            Err(_) => Err(ShelfFault::NoMemory),
        },
        None => Ok(Got::Damaged),
    }
}

impl<S: Shelf, C> Storage<S, C> {
    /// The message of an id. `None` comes exactly where the id isn't there or has no reference, and
    /// `Damaged` exactly where its place isn't in its file or isn't one whole text of a message.
    /// The file is read once.
    pub fn get(&mut self, id: u32) -> Result<Got, StorageFault>
        // Which answer it is, and the message, as its file has it.
        ensures gets { GetsMessage self.old.chain.live.mailbox id
            (λ mail place. S.sees.tells → mail ≡ text_at (S.sees.files self.old.shelf) place)
            result }
        // Nothing is changed.
        ensures stays { IsLookedAt self.old self.new }
        ensures looks { S.sees.tells → OnlyLooks S.sees self.old.shelf self.new.shelf }
        // The file is read once; a fault of the disk has its cause.
        ensures mail_reads { CountsRead (looks.reference_of self.old.chain.live.mailbox id)
            (S.sees.mail_reads self.old.shelf) (S.sees.mail_reads self.new.shelf) }
        ensures cause { HasStorageCause (S.sees.fault_count self.old.shelf)
            (S.sees.fault_count self.new.shelf) result }
    {
        let Some(reference) = reference_of(&self.chain.live, id) else {
            return Err(StorageFault::None);
        };
        match read_text(self.alloc, &mut self.shelf, reference.place) {
            Ok(got) => Ok(got),
            Err(fault) => Err(told(&self.shelf, fault)),
        }
    }
}
