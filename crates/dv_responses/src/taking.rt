//! Where the lines of a FETCH go.

ghost use Rattle.std.specs.Prelude.{◌≡◌, ◌∷◌, [], ℕ, List as Listed, OnErr, OnOk};
ghost use Rattle.dv_model.specs.Sessions.{fetch_line};
ghost use Rattle.dv_responses.specs.Supplied.{DescribesItems};

use crate::fetching::values_of;
use dv_model::{Item, List, NoMemory, Reply, Shown};
use dv_search::MailFacts;
use dv_view::{Live, Replies};
use std::alloc::Global;

/// What takes the replies to any command, the lines of a FETCH among them.
pub trait Responses: Replies {
    /// Takes the FETCH line of a row of this number (RFC 3501, section 7.4.2), with the value of
    /// each item, where that is known of the message. After `NoMemory`, which is the only error, it
    /// is as before.
    fn take_fetch(
        &mut self,
        alloc: Global,
        live: &Live,
        number: u32,
        s: &Shown,
        items: &[Item],
        facts: &MailFacts,
    ) -> Result<(), NoMemory>
        ensures ok { (message : Listed ℕ) → DescribesItems items.now message facts.now →
            OnOk result (self.new ≡ Self.with self.old
            (fetch_line live.now.mailbox items.now (number, s.now) message ∷ [])) }
        ensures err { OnErr result (self.new ≡ self.old) };
}

impl Responses for List<Reply> {
    fn take_fetch(
        &mut self,
        alloc: Global,
        live: &Live,
        number: u32,
        s: &Shown,
        items: &[Item],
        facts: &MailFacts,
    ) -> Result<(), NoMemory> {
        let values = values_of(alloc, live, s, items, facts)?;
        self.push(Reply::Fetch {
            number,
            uid: s.uid,
            values,
        })?;
        Ok(())
    }
}
