//! What is looked up of a mailbox's messages.

ghost use Rattle.std.specs.Prelude.{◌≡◌, ℕ, IfErr, IfOk, OnErr, false, true};
ghost use Rattle.dv_model.specs.Journals.{Log, Mail as Message};
ghost use Rattle.dv_model.specs.Sessions.{has_uid, reads_mail};
ghost use Rattle.dv_openings.specs.TrueCaches.{HasTrueCache};
ghost use Rattle.dv_writing.specs.Debts.{Debt};
ghost use Rattle.dv_view.specs.Taken.{HasTaken};
ghost use Rattle.dv_responses.specs.Depth.{IsShallow};
ghost use Rattle.dv_lookups.specs.Commands.{IsNamed};
ghost use Rattle.dv_lookups.specs.Founds.{IsBody, facts_found, field_found, mail_of, sizes_found};
ghost use Rattle.dv_lookups.specs.Kept.{CountsUpTo, Economy, IsFileOf, IsSpared, Spares, can_stand, is_kept};
ghost use Rattle.dv_lookups.specs.Lookups.{KnowsCache, KnowsMessages, ReadsFor};
ghost use Rattle.dv_responses.specs.Damaged.{IsRead};
ghost use Rattle.dv_plans.specs.Faults.{HasStoreCause};
ghost use Rattle.dv_store.specs.Faults.{IsFailure};
ghost use Rattle.dv_store.specs.Rest.{IsAtRest, IsLookedAt, OnlyReads, RestKnows};

use crate::Store;
use crate::fault::told;
use dv_lookups::{BodyFound, FactsFound, FieldFound, SizesFound, body};
use dv_model::{Command, List};
use dv_plans::StoreFault;
use dv_responses::{Asked, Responses};
use dv_shelf::Shelf;
use dv_view::View;

impl<S: Shelf, C> Store<S, C> {
    /// At rest the cache file is true, and what is looked up is of the log's messages. Nothing is
    /// computed.
    pub fn knows(&self)
        ensures { S.sees.tells → (log : Log) (debt : Debt) →
            IsAtRest S.sees log debt self.now →
            RestKnows (S.sees.files self.now.shelf) log self.now }
    {}

    /// The message of a UID: `Gone` exactly where the mailbox has no such row, and `Damaged`
    /// exactly where its message file is missing or not of the format. The file is read once.
    pub fn body(&mut self, uid: u32) -> Result<BodyFound, StoreFault>
        // The message, as its file has it.
        ensures found { S.sees.tells →
            IfOk result (IsBody (S.sees.files self.old.shelf) self.old.chain.live.mailbox uid) }
        // Nothing is changed.
        ensures stays { IsLookedAt self.old self.new }
        ensures reads { S.sees.tells →
            OnlyReads S.sees self.old self.new }
        // One message file is read at most; a fault of the disk has its cause.
        ensures most { CountsUpTo 1 (S.sees.mail_reads self.old.shelf)
            (S.sees.mail_reads self.new.shelf) }
        ensures gone { has_uid self.old.chain.live.mailbox uid ≡ false →
            self.new.shelf ≡ self.old.shelf }
        ensures cause { HasStoreCause (S.sees.fault_count self.old.shelf)
            (S.sees.fault_count self.new.shelf) result }
    {
        match body(self.alloc, &mut self.shelf, &self.chain.live, uid) {
            Ok(found) => Ok(found),
            Err(fault) => Err(told(&self.shelf, fault)),
        }
    }

    /// The first header field of this name of a UID's message. Where the cache file keeps fields of
    /// the name, and the row has a place there, it is looked at first; a row that is found there
    /// costs no read, and else the message file is read once.
    pub fn field(&mut self, uid: u32, name: &[u8]) -> Result<FieldFound, StoreFault>
        // The field is that of the message file, where the cache file is true.
        ensures found { S.sees.tells → IsFileOf (S.sees.files self.old.shelf) self.old.cache →
            HasTrueCache (S.sees.files self.old.shelf) self.old.chain.indexid
            self.old.chain.live.mailbox →
            IfOk result (λ found. found ≡ field_found name.now
            (mail_of (S.sees.files self.old.shelf) self.old.chain.live.mailbox uid)) }
        // Nothing is changed.
        ensures stays { IsLookedAt self.old self.new }
        ensures reads { S.sees.tells →
            OnlyReads S.sees self.old self.new }
        // The shelf is called no more than is due; a fault of the disk has its cause.
        ensures economy { Economy S.sees self.old.chain.live.mailbox uid (is_kept name.now)
            self.old.cache self.new.cache self.old.shelf self.new.shelf }
        ensures spares { S.sees.tells → IsFileOf (S.sees.files self.old.shelf) self.old.cache →
            is_kept name.now ≡ true →
            IsSpared (S.sees.files self.old.shelf) self.old.chain.indexid
            self.old.chain.live.mailbox uid →
            Spares S.sees self.old.cache self.old.shelf self.new.shelf }
        ensures cause { HasStoreCause (S.sees.fault_count self.old.shelf)
            (S.sees.fault_count self.new.shelf) result }
    {
        match self
            .cache
            .field(self.alloc, &mut self.shelf, &self.chain, uid, name)
        {
            Ok(found) => Ok(found),
            Err(fault) => Err(told(&self.shelf, fault)),
        }
    }

    /// The sizes of a UID's message, counted from its bytes. Where the row has a place in the cache
    /// file it is looked at first; a row that is found there costs no read, and else the message
    /// file is read once.
    pub fn sizes(&mut self, uid: u32) -> Result<SizesFound, StoreFault>
        // The sizes are those of the message in its file, where the cache file is true.
        ensures found { S.sees.tells → IsFileOf (S.sees.files self.old.shelf) self.old.cache →
            HasTrueCache (S.sees.files self.old.shelf) self.old.chain.indexid
            self.old.chain.live.mailbox →
            IfOk result (λ found. found ≡ sizes_found
            (mail_of (S.sees.files self.old.shelf) self.old.chain.live.mailbox uid)) }
        // Nothing is changed.
        ensures stays { IsLookedAt self.old self.new }
        ensures reads { S.sees.tells →
            OnlyReads S.sees self.old self.new }
        // The shelf is called no more than is due; a fault of the disk has its cause.
        ensures economy { Economy S.sees self.old.chain.live.mailbox uid true
            self.old.cache self.new.cache self.old.shelf self.new.shelf }
        ensures spares { S.sees.tells → IsFileOf (S.sees.files self.old.shelf) self.old.cache →
            IsSpared (S.sees.files self.old.shelf) self.old.chain.indexid
            self.old.chain.live.mailbox uid →
            Spares S.sees self.old.cache self.old.shelf self.new.shelf }
        ensures cause { HasStoreCause (S.sees.fault_count self.old.shelf)
            (S.sees.fault_count self.new.shelf) result }
    {
        match self
            .cache
            .sizes(self.alloc, &mut self.shelf, &self.chain, uid)
        {
            Ok(found) => Ok(found),
            Err(fault) => Err(told(&self.shelf, fault)),
        }
    }

    /// What a command asks of the message of a UID. Where all of it can stand in the cache file,
    /// and the row has a place there, the cache file is looked at first; a row that is found there
    /// costs no read, and else its message file is read once.
    pub fn facts(&mut self, asked: &Asked, uid: u32) -> Result<FactsFound, StoreFault>
        // The facts are those of the message file, where the cache file is true.
        ensures found { S.sees.tells → IsFileOf (S.sees.files self.old.shelf) self.old.cache →
            HasTrueCache (S.sees.files self.old.shelf) self.old.chain.indexid
            self.old.chain.live.mailbox →
            IfOk result (λ found. found ≡ facts_found asked.now uid
            (mail_of (S.sees.files self.old.shelf) self.old.chain.live.mailbox uid)) }
        ensures named { IfOk result (IsNamed uid) }
        // Nothing is changed.
        ensures stays { IsLookedAt self.old self.new }
        ensures reads { S.sees.tells →
            OnlyReads S.sees self.old self.new }
        // The shelf is called no more than is due; a fault of the disk has its cause.
        ensures economy { Economy S.sees self.old.chain.live.mailbox uid
            (can_stand asked.now)
            self.old.cache self.new.cache self.old.shelf self.new.shelf }
        ensures spares { S.sees.tells → IsFileOf (S.sees.files self.old.shelf) self.old.cache →
            can_stand asked.now ≡ true →
            IsSpared (S.sees.files self.old.shelf) self.old.chain.indexid
            self.old.chain.live.mailbox uid →
            Spares S.sees self.old.cache self.old.shelf self.new.shelf }
        ensures cause { HasStoreCause (S.sees.fault_count self.old.shelf)
            (S.sees.fault_count self.new.shelf) result }
    {
        match self
            .cache
            .facts(self.alloc, &mut self.shelf, &self.chain, asked, uid)
        {
            Ok(found) => Ok(found),
            Err(fault) => Err(told(&self.shelf, fault)),
        }
    }

    /// Reads the messages that a command reads, one after another, and adds the data lines of its
    /// answer (RFC 3501, sections 6.4.4 and 6.4.5). It gives the UIDs of those whose files are
    /// missing or damaged. Each message file is read once at most. After an error some of the lines
    /// may have been added.
    pub fn read_for<R: Responses>(
        &mut self,
        c: &Command,
        view: &View,
        lines: &mut R,
    ) -> Result<List<u32>, StoreFault>
        requires shallow { IsShallow c.now }
        requires reads { reads_mail c.now ≡ true }
        // They are those of the messages in their files, where the cache file is true.
        ensures found { S.sees.tells → (mail : ℕ → Message) →
            KnowsMessages (S.sees.files self.old.shelf) self.old.chain self.old.cache mail →
            IfOk result (IsRead R.with lines.old lines.new mail c.now view.now
            self.old.chain.live.mailbox) }
        // What was taken before is kept, also where memory or the disk failed.
        ensures replies { S.sees.tells →
            KnowsCache (S.sees.files self.old.shelf) self.old.chain self.old.cache →
            OnErr result (HasTaken R.with lines.old lines.new) }
        // Nothing is changed.
        ensures stays { IsLookedAt self.old self.new }
        ensures reads { S.sees.tells →
            OnlyReads S.sees self.old self.new }
        // The cache file isn't read again, or without need. A message file is read at most for each
        // row that the mailbox has, and none for one that is found in the cache file.
        ensures looks { ReadsFor S.sees self.old.chain c.now view.now
            self.old.cache self.new.cache self.old.shelf self.new.shelf }
        // Want of memory and a fault of the disk are the only errors, and this has its cause.
        ensures err { IfErr result IsFailure }
        ensures cause { HasStoreCause (S.sees.fault_count self.old.shelf)
            (S.sees.fault_count self.new.shelf) result }
    {
        match self
            .cache
            .read_for(self.alloc, &mut self.shelf, &self.chain, c, view, lines)
        {
            Ok(damaged) => Ok(damaged),
            Err(fault) => Err(told(&self.shelf, fault)),
        }
    }
}
