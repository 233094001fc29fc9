//! From where what is asked of a message is taken.

ghost use Rattle.std.specs.Prelude.{◌≡◌, ℕ, Bool, false, true, IfOk, None, Some, slice_get};
ghost use Rattle.dv_model.specs.Sessions.{has_uid};
ghost use Rattle.dv_shelf.specs.Causes.{HasCauseOf};
ghost use Rattle.dv_shelf.specs.Folders.{counted};
ghost use Rattle.dv_chain.specs.Openings.{OnlyLooks};
ghost use Rattle.dv_openings.specs.TrueCaches.{HasTrueCache};
ghost use Rattle.dv_files.specs.Reading.{mail_at};
ghost use Rattle.dv_lookups.specs.Founds.{IsFrom, IsSourceOf, IsWhole, mail_of};
ghost use Rattle.dv_lookups.specs.Kept.{Economy, IsFileOf, IsSpared, Spares, row_of};

use crate::cache_file::CacheFile;
use dv_cache::Known;
use dv_chain::Chain;
use dv_dbox::Message;
use dv_files::{MailFile, read_mail};
use dv_model::Row;
use dv_shelf::{Shelf, ShelfFault};
use std::alloc::Global;

/// What is known of a UID's message, and from where.
#[derive(Drop)]
pub(crate) enum Source {
    /// The mailbox has no such row.
    Gone,
    /// The message file is missing or not of the format.
    Damaged,
    /// The cache file has its sizes and fields.
    Cached(Known),
    /// Its file holds it.
    Held(Message),
}

// The message by its file.
fn read_source<S: Shelf>(alloc: Global, shelf: &mut S, uid: u32) -> Result<Source, ShelfFault>
    ensures found { S.sees.tells →
        IfOk result (IsSourceOf (Some (mail_at (S.sees.files shelf.old) uid))) }
    ensures from { (kept : Bool) → IfOk result (IsFrom kept) }
    ensures whole { IfOk result IsWhole }
    // Nothing is changed; one message file is read; a fault of the disk has its cause.
    ensures looks { S.sees.tells →
        OnlyLooks S.sees shelf.old shelf.new }
    ensures mail_reads { S.sees.mail_reads shelf.new ≡ counted (S.sees.mail_reads shelf.old) 1 }
    ensures cause { HasCauseOf ShelfFault.Failed
        (S.sees.fault_count shelf.old) (S.sees.fault_count shelf.new) result }
{
    match read_mail(alloc, shelf, uid)? {
        MailFile::Held(message) => Ok(Source::Held(message)),
        MailFile::Damaged => Ok(Source::Damaged),
    }
}

impl CacheFile {
    /// The message of a row of the mailbox: what is known in the cache file, where it may be looked
    /// at, or else its file.
    pub(crate) fn row_source<S: Shelf>(
        &mut self,
        alloc: Global,
        shelf: &mut S,
        chain: &Chain,
        row: &Row,
        may_look: bool,
    ) -> Result<Source, ShelfFault>
        requires row { row_of chain.now.live.mailbox row.now.uid ≡ Some row.now }
        // The message, where the cache file is true.
        ensures found { S.sees.tells → IsFileOf (S.sees.files shelf.old) self.old →
            HasTrueCache (S.sees.files shelf.old) chain.now.indexid chain.now.live.mailbox →
            IfOk result (IsSourceOf (mail_of (S.sees.files shelf.old) chain.now.live.mailbox
            row.now.uid)) }
        ensures from { IfOk result (IsFrom may_look) }
        ensures whole { IfOk result IsWhole }
        ensures file { S.sees.tells → IsFileOf (S.sees.files shelf.old) self.old →
            IsFileOf (S.sees.files shelf.old) self.new }
        // Nothing is changed, and the shelf is called no more than is due.
        ensures looks { S.sees.tells →
            OnlyLooks S.sees shelf.old shelf.new }
        ensures economy { Economy S.sees chain.now.live.mailbox row.now.uid may_look
            self.old self.new shelf.old shelf.new }
        ensures spares { S.sees.tells → IsFileOf (S.sees.files shelf.old) self.old →
            may_look ≡ true →
            IsSpared (S.sees.files shelf.old) chain.now.indexid chain.now.live.mailbox row.now.uid →
            Spares S.sees self.old shelf.old shelf.new }
        ensures cause { HasCauseOf ShelfFault.Failed
            (S.sees.fault_count shelf.old) (S.sees.fault_count shelf.new) result }
    {
        match self.known_of(alloc, shelf, chain, row, may_look)? {
            Some(known) => Ok(Source::Cached(known)),
            None => read_source(alloc, shelf, row.uid),
        }
    }

    /// The message of a UID. The cache file is looked at only where it may be; at most one message
    /// file is read, and none of a row that is found in the cache file.
    pub(crate) fn source<S: Shelf>(
        &mut self,
        alloc: Global,
        shelf: &mut S,
        chain: &Chain,
        uid: u32,
        may_look: bool,
    ) -> Result<Source, ShelfFault>
        // The message, where the cache file is true.
        ensures found { S.sees.tells → IsFileOf (S.sees.files shelf.old) self.old →
            HasTrueCache (S.sees.files shelf.old) chain.now.indexid chain.now.live.mailbox →
            IfOk result (IsSourceOf (mail_of (S.sees.files shelf.old) chain.now.live.mailbox uid)) }
        ensures from { IfOk result (IsFrom may_look) }
        ensures file { S.sees.tells → IsFileOf (S.sees.files shelf.old) self.old →
            IsFileOf (S.sees.files shelf.old) self.new }
        // Nothing is changed, and the shelf is called no more than is due.
        ensures looks { S.sees.tells →
            OnlyLooks S.sees shelf.old shelf.new }
        ensures economy { Economy S.sees chain.now.live.mailbox uid may_look
            self.old self.new shelf.old shelf.new }
        ensures spares { S.sees.tells → IsFileOf (S.sees.files shelf.old) self.old →
            may_look ≡ true →
            IsSpared (S.sees.files shelf.old) chain.now.indexid chain.now.live.mailbox uid →
            Spares S.sees self.old shelf.old shelf.new }
        ensures cause { HasCauseOf ShelfFault.Failed
            (S.sees.fault_count shelf.old) (S.sees.fault_count shelf.new) result }
    {
        match chain.live.position(uid) {
            Some(k) => self.row_source(alloc, shelf, chain, chain.live.row(k), may_look),
            None => Ok(Source::Gone),
        }
    }
}
