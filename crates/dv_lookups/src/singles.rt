//! The body, a field and the sizes of one message.

ghost use Rattle.std.specs.Prelude.{◌≡◌, ℕ, IfOk, Option, false, true};
ghost use Rattle.dv_model.specs.Journals.{Mail as Message};
ghost use Rattle.dv_model.specs.Sessions.{has_uid};
ghost use Rattle.dv_shelf.specs.Causes.{HasCauseOf};
ghost use Rattle.dv_chain.specs.Openings.{OnlyLooks};
ghost use Rattle.dv_openings.specs.TrueCaches.{HasTrueCache};
ghost use Rattle.dv_lookups.specs.Founds.{IsBody, IsFrom, IsSourceOf, field_found, mail_of, sizes_found};
ghost use Rattle.dv_lookups.specs.Kept.{CountsUpTo, Economy, IsFileOf, IsSpared, Spares, is_kept};

use crate::cache_file::CacheFile;
use crate::found::{BodyFound, FieldFound, SizesFound};
use crate::known::{copy_of, is_kept, value_of};
use crate::memory::in_memory;
use crate::source::Source;
use dv_chain::Chain;
use dv_fields::{field_of, physical, virtual_size};
use dv_files::{MailFile, read_mail};
use dv_model::NoMemory;
use dv_shelf::{Shelf, ShelfFault};
use dv_view::Live;
use std::alloc::Global;

// Whether the mailbox has a row of this UID.
fn has_uid(live: &Live, uid: u32) -> bool
    ensures { result ≡ has_uid live.now.mailbox uid }
{
    live.position(uid).is_some()
}

/// The message of a UID: `Gone` exactly where the mailbox has no such row, and `Damaged` exactly
/// where its message file is missing or refused by `dv_dbox::read`. The file is read once.
pub fn body<S: Shelf>(
    alloc: Global,
    shelf: &mut S,
    live: &Live,
    uid: u32,
) -> Result<BodyFound, ShelfFault>
    // The message, as its file has it.
    ensures found { S.sees.tells →
        IfOk result (IsBody (S.sees.files shelf.old) live.now.mailbox uid) }
    // Nothing is changed.
    ensures looks { S.sees.tells →
        OnlyLooks S.sees shelf.old shelf.new }
    // One message file is read at most; a fault of the disk has its cause.
    ensures most { CountsUpTo 1 (S.sees.mail_reads shelf.old) (S.sees.mail_reads shelf.new) }
    ensures gone { has_uid live.now.mailbox uid ≡ false → shelf.new ≡ shelf.old }
    ensures cause { HasCauseOf ShelfFault.Failed
        (S.sees.fault_count shelf.old) (S.sees.fault_count shelf.new) result }
{
    if !has_uid(live, uid) {
        return Ok(BodyFound::Gone);
    }
    match read_mail(alloc, shelf, uid)? {
        MailFile::Held(message) => Ok(BodyFound::Held(message)),
        MailFile::Damaged => Ok(BodyFound::Damaged),
    }
}

// A field, from what is known of the message.
fn field_in(alloc: Global, name: &[u8], source: &Source) -> Result<FieldFound, NoMemory>
    ensures { (mail : Option Message) → IsSourceOf mail source.now →
        IsFrom (is_kept name.now) source.now →
        IfOk result (λ found. found ≡ field_found name.now mail) }
{
    match source {
        Source::Gone => Ok(FieldFound::Gone),
        Source::Damaged => Ok(FieldFound::Damaged),
        Source::Cached(known) => {
            let value = copy_of(alloc, value_of(known, name))?;
            Ok(FieldFound::Value(value))
        }
        Source::Held(message) => {
            let value = field_of(alloc, message.bytes.as_slice(), name)?;
            Ok(FieldFound::Value(value))
        }
    }
}

// The sizes, from what is known of the message.
fn sizes_in(source: &Source) -> SizesFound
    ensures { (mail : Option Message) → IsSourceOf mail source.now →
        result ≡ sizes_found mail }
{
    match source {
        Source::Gone => SizesFound::Gone,
        Source::Damaged => SizesFound::Damaged,
        Source::Cached(known) => SizesFound::Sizes {
            physical: u64::from(known.physical),
            virtual_size: u64::from(known.virtual_size),
        },
        Source::Held(message) => SizesFound::Sizes {
            physical: physical(message.bytes.as_slice()),
            virtual_size: virtual_size(message.bytes.as_slice()),
        },
    }
}

impl CacheFile {
    /// The first header field of this name of a UID's message. Where the cache file keeps fields of
    /// the name, and the row has a place there, it is looked at first; a row that is found there
    /// costs no read, and else the message file is read once.
    pub fn field<S: Shelf>(
        &mut self,
        alloc: Global,
        shelf: &mut S,
        chain: &Chain,
        uid: u32,
        name: &[u8],
    ) -> Result<FieldFound, ShelfFault>
        // The field is that of the message file, where the cache file is true.
        ensures found { S.sees.tells → IsFileOf (S.sees.files shelf.old) self.old →
            HasTrueCache (S.sees.files shelf.old) chain.now.indexid chain.now.live.mailbox →
            IfOk result (λ found. found ≡ field_found name.now
            (mail_of (S.sees.files shelf.old) chain.now.live.mailbox uid)) }
        ensures file { S.sees.tells → IsFileOf (S.sees.files shelf.old) self.old →
            IsFileOf (S.sees.files shelf.old) self.new }
        // Nothing is changed.
        ensures looks { S.sees.tells →
            OnlyLooks S.sees shelf.old shelf.new }
        // The shelf is called no more than is due; a fault of the disk has its cause.
        ensures economy { Economy S.sees chain.now.live.mailbox uid (is_kept name.now)
            self.old self.new shelf.old shelf.new }
        ensures spares { S.sees.tells → IsFileOf (S.sees.files shelf.old) self.old →
            is_kept name.now ≡ true →
            IsSpared (S.sees.files shelf.old) chain.now.indexid chain.now.live.mailbox uid →
            Spares S.sees self.old shelf.old shelf.new }
        ensures cause { HasCauseOf ShelfFault.Failed
            (S.sees.fault_count shelf.old) (S.sees.fault_count shelf.new) result }
    {
        let source = self.source(alloc, shelf, chain, uid, is_kept(name))?;
        in_memory(field_in(alloc, name, &source))
    }

    /// The sizes of a UID's message, counted from its bytes. Where the row has a place in the cache
    /// file it is looked at first; a row that is found there costs no read, and else the message
    /// file is read once.
    pub fn sizes<S: Shelf>(
        &mut self,
        alloc: Global,
        shelf: &mut S,
        chain: &Chain,
        uid: u32,
    ) -> Result<SizesFound, ShelfFault>
        // The sizes are those of the message in its file, where the cache file is true.
        ensures found { S.sees.tells → IsFileOf (S.sees.files shelf.old) self.old →
            HasTrueCache (S.sees.files shelf.old) chain.now.indexid chain.now.live.mailbox →
            IfOk result (λ found. found ≡ sizes_found
            (mail_of (S.sees.files shelf.old) chain.now.live.mailbox uid)) }
        ensures file { S.sees.tells → IsFileOf (S.sees.files shelf.old) self.old →
            IsFileOf (S.sees.files shelf.old) self.new }
        // Nothing is changed.
        ensures looks { S.sees.tells →
            OnlyLooks S.sees shelf.old shelf.new }
        // The shelf is called no more than is due; a fault of the disk has its cause.
        ensures economy { Economy S.sees chain.now.live.mailbox uid true
            self.old self.new shelf.old shelf.new }
        ensures spares { S.sees.tells → IsFileOf (S.sees.files shelf.old) self.old →
            IsSpared (S.sees.files shelf.old) chain.now.indexid chain.now.live.mailbox uid →
            Spares S.sees self.old shelf.old shelf.new }
        ensures cause { HasCauseOf ShelfFault.Failed
            (S.sees.fault_count shelf.old) (S.sees.fault_count shelf.new) result }
    {
        let source = self.source(alloc, shelf, chain, uid, true)?;
        Ok(sizes_in(&source))
    }
}
