//! The cache file of a mailbox, and what it has for a row.

ghost use Rattle.std.specs.Prelude.{◌≡◌, None, Some, false, true, IfErr, IfOk, OnOk};
ghost use Rattle.std.specs.Option.{option_copied};
ghost use Rattle.dv_cache.specs.Caches.{HasFive};
ghost use Rattle.dv_shelf.specs.Causes.{HasCauseOf};
ghost use Rattle.dv_shelf.specs.declared.shelf.ShelfFault.TheVariants as fault;
ghost use Rattle.dv_chain.specs.Openings.{OnlyLooks};
ghost use Rattle.dv_openings.specs.TrueCaches.{look_of};
ghost use Rattle.dv_lookups.specs.Finds.{IsFoundIn, bytes_of};
ghost use Rattle.dv_lookups.specs.Kept.{CountsReads, IsFileOf, IsLookedUp, Spares, is_read};
ghost use Rattle.dv_lookups.specs.Looks.{look_seen};

use crate::looks::{Look, look_of};
use dv_cache::{Known, find};
use dv_chain::Chain;
use dv_model::{Bytes, Row};
use dv_shelf::{Name, Shelf, ShelfFault};
use dv_view::Live;
use std::alloc::Global;

/// The cache file of a mailbox, as far as it was read.
#[derive(Drop)]
pub enum CacheFile {
    Unread,
    /// Its bytes; `None` where there is none.
    Read(Option<Bytes>),
}

impl CacheFile {
    /// A cache file that is read at the next look.
    pub fn forget(&mut self)
        ensures { is_read self.new ≡ false }
    {
        *self = CacheFile::Unread;
    }

    // Reads the file, where it wasn't read before.
    fn load<S: Shelf>(&mut self, alloc: Global, shelf: &mut S) -> Result<(), ShelfFault>
        // It is at hand, and nothing is changed.
        ensures read { OnOk result (is_read self.new ≡ true) }
        ensures file { S.sees.tells → IsFileOf (S.sees.files shelf.old) self.old →
            IsFileOf (S.sees.files shelf.old) self.new }
        ensures again { is_read self.old ≡ true → self.new ≡ self.old }
        ensures looks { S.sees.tells →
            OnlyLooks S.sees shelf.old shelf.new }
        // No message file is read; a fault of the disk has its cause.
        ensures spares { Spares S.sees self.old shelf.old shelf.new }
        ensures cause { HasCauseOf ShelfFault.Failed
            (S.sees.fault_count shelf.old) (S.sees.fault_count shelf.new) result }
    {
        if let CacheFile::Unread = self {
            *self = CacheFile::Read(shelf.read(alloc, Name::Cache)?);
        }
        Ok(())
    }

    fn bytes(&self) -> Option<&Bytes>
        ensures { option_copied result ≡ bytes_of self.now }
    {
        match self {
            CacheFile::Read(file) => file.as_ref(),
            CacheFile::Unread => None,
        }
    }

    // What the file that was read has for a UID at a place.
    fn known_at(
        &self,
        alloc: Global,
        indexid: u32,
        look: Look,
        uid: u32,
    ) -> Result<Option<Known>, ShelfFault>
        ensures found { IfOk result (IsFoundIn (bytes_of self.now) indexid (look_seen look) uid) }
        ensures five { IfOk result HasFive }
        ensures err { IfErr result (λ e. e ≡ fault.NoMemory) }
    {
        match self.bytes() {
            Some(bytes) => find_in(alloc, bytes.as_slice(), indexid, look, uid),
            None => Ok(None),
        }
    }

    /// What the cache file has of a row's message, where it may be looked at. It is read at the
    /// first look.
    pub(crate) fn known_of<S: Shelf>(
        &mut self,
        alloc: Global,
        shelf: &mut S,
        chain: &Chain,
        row: &Row,
        may_look: bool,
    ) -> Result<Option<Known>, ShelfFault>
        // What stands in the file, where it may be looked at.
        ensures found { S.sees.tells → IsFileOf (S.sees.files shelf.old) self.old →
            may_look ≡ true →
            IfOk result (IsLookedUp (S.sees.files shelf.old) chain.now.indexid
            chain.now.live.mailbox row.now) }
        ensures none { may_look ≡ false → IfOk result (λ known. known ≡ None) }
        ensures five { IfOk result HasFive }
        // The file is as it was read, and it isn't read without need.
        ensures file { S.sees.tells → IsFileOf (S.sees.files shelf.old) self.old →
            IsFileOf (S.sees.files shelf.old) self.new }
        ensures again { is_read self.old ≡ true → self.new ≡ self.old }
        ensures aside { may_look ≡ false → self.new ≡ self.old }
        ensures placed { look_of chain.now.live.mailbox row.now ≡ None → self.new ≡ self.old }
        // Nothing is changed, no message file is read, and a fault of the disk has its cause.
        ensures looks { S.sees.tells →
            OnlyLooks S.sees shelf.old shelf.new }
        ensures spares { Spares S.sees self.old shelf.old shelf.new }
        ensures cause { HasCauseOf ShelfFault.Failed
            (S.sees.fault_count shelf.old) (S.sees.fault_count shelf.new) result }
    {
        if !may_look {
            return Ok(None);
        }
        let Some(look) = look_of(&chain.live, row) else {
            return Ok(None);
        };
        self.load(alloc, shelf)?;
        self.known_at(alloc, chain.indexid, look, row.uid)
    }
}

// What the bytes of a cache file have for a UID at a place.
fn find_in(
    alloc: Global,
    bytes: &[u8],
    indexid: u32,
    look: Look,
    uid: u32,
) -> Result<Option<Known>, ShelfFault>
    ensures found { IfOk result (IsFoundIn (Some bytes.now) indexid (look_seen look) uid) }
    ensures five { IfOk result HasFive }
    ensures err { IfErr result (λ e. e ≡ fault.NoMemory) }
{
    match find(alloc, bytes, indexid, look.seq, uid, look.offset) {
        Ok(Some(row)) => Ok(row.known),
        Ok(None) => Ok(None),
        Err(_) => Err(ShelfFault::NoMemory),
    }
}
