//! What a command asks of messages, row by row.

ghost use Rattle.std.specs.Prelude.{◌≡◌, IfOk, None, Option, Some, cond, true};
ghost use Rattle.dv_model.specs.Journals.{Mail as Message};
ghost use Rattle.dv_shelf.specs.Causes.{HasCauseOf};
ghost use Rattle.dv_chain.specs.Openings.{OnlyLooks};
ghost use Rattle.dv_responses.specs.Supplied.{facts_from};
ghost use Rattle.dv_openings.specs.TrueCaches.{HasTrueCache};
ghost use Rattle.dv_lookups.specs.Commands.{IsNamed};
ghost use Rattle.dv_lookups.specs.Founds.{IsFrom, IsSourceOf, facts_found, mail_of};
ghost use Rattle.dv_lookups.specs.Kept.{Economy, IsFileOf, IsSpared, Spares, can_stand};

use crate::cache_file::CacheFile;
use crate::found::FactsFound;
use crate::headers::fields_of;
use crate::known::{can_stand, facts_known};
use crate::memory::in_memory;
use crate::source::Source;
use dv_chain::Chain;
use dv_fields::virtual_size;
use dv_model::{Bytes, NoMemory};
use dv_responses::Asked;
use dv_search::MailFacts;
use dv_shelf::{Shelf, ShelfFault};
use std::alloc::Global;

// The message's bytes, where they are asked.
fn body_if(asked: bool, message: Bytes) -> Option<Bytes>
    ensures { result ≡ cond asked (Some message) None }
{
    if asked { Some(message) } else { None }
}

// The facts of a message, as far as they are asked. Its header is read once, and its bytes aren't
// copied.
fn facts_held(alloc: Global, asked: &Asked, uid: u32, message: Bytes) -> Result<MailFacts, NoMemory>
    ensures is { IfOk result (λ facts. facts ≡ facts_from asked.now uid message) }
{
    let size = virtual_size(message.as_slice());
    let fields = fields_of(alloc, message.as_slice(), asked.fields.as_slice())?;
    Ok(MailFacts {
        uid,
        size,
        body: body_if(asked.body, message),
        fields,
    })
}

// What is asked, from what is known of the message.
fn facts_in(alloc: Global, asked: &Asked, uid: u32, source: Source) -> Result<FactsFound, NoMemory>
    ensures found { (mail : Option Message) → IsSourceOf mail source →
        IsFrom (can_stand asked.now) source →
        IfOk result (λ found. found ≡ facts_found asked.now uid mail) }
    ensures named { IfOk result (IsNamed uid) }
{
    match source {
        Source::Gone => Ok(FactsFound::Gone),
        Source::Damaged => Ok(FactsFound::Damaged),
        Source::Cached(known) => Ok(FactsFound::Known(facts_known(alloc, asked, uid, &known)?)),
        Source::Held(message) => {
            let facts = facts_held(alloc, asked, uid, message.bytes)?;
            Ok(FactsFound::Known(facts))
        }
    }
}

impl CacheFile {
    /// What is asked of the message of a UID. Where all of it can stand in the cache file, and the
    /// row has a place there, the cache file is looked at first; a row that is found there costs no
    /// read, and else its message file is read once. After an error what was read of the cache
    /// file stays.
    pub fn facts<S: Shelf>(
        &mut self,
        alloc: Global,
        shelf: &mut S,
        chain: &Chain,
        asked: &Asked,
        uid: u32,
    ) -> Result<FactsFound, ShelfFault>
        // The facts are those of the message file, where the cache file is true.
        ensures found { S.sees.tells → IsFileOf (S.sees.files shelf.old) self.old →
            HasTrueCache (S.sees.files shelf.old) chain.now.indexid chain.now.live.mailbox →
            IfOk result (λ found. found ≡ facts_found asked.now uid
            (mail_of (S.sees.files shelf.old) chain.now.live.mailbox uid)) }
        ensures named { IfOk result (IsNamed uid) }
        ensures file { S.sees.tells → IsFileOf (S.sees.files shelf.old) self.old →
            IsFileOf (S.sees.files shelf.old) self.new }
        // Nothing is changed.
        ensures looks { S.sees.tells →
            OnlyLooks S.sees shelf.old shelf.new }
        // The shelf is called no more than is due; a fault of the disk has its cause.
        ensures economy { Economy S.sees chain.now.live.mailbox uid (can_stand asked.now)
            self.old self.new shelf.old shelf.new }
        ensures spares { S.sees.tells → IsFileOf (S.sees.files shelf.old) self.old →
            can_stand asked.now ≡ true →
            IsSpared (S.sees.files shelf.old) chain.now.indexid chain.now.live.mailbox uid →
            Spares S.sees self.old shelf.old shelf.new }
        ensures cause { HasCauseOf ShelfFault.Failed
            (S.sees.fault_count shelf.old) (S.sees.fault_count shelf.new) result }
    {
        let source = self.source(alloc, shelf, chain, uid, can_stand(asked))?;
        in_memory(facts_in(alloc, asked, uid, source))
    }
}
