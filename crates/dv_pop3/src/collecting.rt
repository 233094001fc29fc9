//! The answer to a RETR, made while the replies to the FETCH of its message are taken.

ghost use Rattle.std.specs.Prelude.{◌≡◌, ◌++◌, [], OnErr, OnOk, take};
ghost use Rattle.std.specs.List.{list_any};
ghost use Rattle.std.specs.Option.{option_copied};
ghost use Rattle.dv_maildrop.specs.Answers.{found_answer};
ghost use Rattle.dv_maildrop.specs.declared.types.Found.TheVariants.{Held};
ghost use Rattle.dv_responses.specs.Asked.{is_body};
ghost use Rattle.dv_pop3.specs.Retrievals.{body_in};

use dv_keywords::Table;
use dv_maildrop::{Found, Listed, put_found, put_held};
use dv_model::{Bytes, Item, List, NoMemory, Reply, Shown, Value};
use dv_responses::Responses;
use dv_search::MailFacts;
use dv_view::{Live, Replies};
use std::alloc::Global;
use std::marker::Model;
use std::mem;

/// Takes back what a text has behind so many bytes.
pub(crate) fn cut_text(alloc: Global, text: &mut Bytes, length: usize)
    ensures { text.new ≡ take length text.old }
{
    let mut bytes = mem::replace(text, Bytes::new(alloc)).into_vec();
    bytes.truncate(length);
    *text = Bytes::from_vec(bytes);
}

// Whether the item asks the message's bytes.
fn is_body(item: &Item) -> bool
    ensures { result ≡ is_body item.now }
{
    matches!(item, Item::Body)
}

// Whether one of the items does.
fn asks_body(items: &[Item]) -> bool
    ensures { result ≡ list_any is_body items.now }
{
    items.iter().any(|item| is_body(item))
}

// The message's bytes among values.
fn body_in(values: &[Value]) -> Option<&Bytes>
    ensures { option_copied result ≡ body_in values.now }
{
    for value in values {
        if let Value::Body(message) = value {
            return Some(message);
        }
    }
    None
}

/// A message that is asked, and a text, which ends with the answer to RETR by the replies so far.
/// Contracts see both.
#[derive(Drop)]
pub(crate) struct Retrieval {
    alloc: Global,
    row: Listed,
    text: Bytes,
}

impl Model for Retrieval {
    ghost use Rattle.dv_pop3.specs.Retrievals.{Retrieving};

    ghost Value = { Retrieving };

    ghost view = { λ r. record { row = r.row; text = r.text } };
}

impl Retrieval {
    /// No replies yet. It takes no memory.
    pub(crate) fn new(alloc: Global, row: Listed) -> Retrieval
        ensures { result ≡ record { row = row; text = [] } }
    {
        Retrieval {
            alloc,
            row,
            text: Bytes::new(alloc),
        }
    }

    /// The text.
    pub(crate) fn into_text(self) -> Bytes
        ensures { result ≡ self.text }
    {
        let Retrieval { text, .. } = self;
        text
    }

    // Adds what was found of the message. After `NoMemory` the text is as before.
    fn put(&mut self, found: &Found) -> Result<(), NoMemory>
        ensures ok { OnOk result (self.new
            ≡ record self.old { text = self.old.text ++ found_answer self.old.row found.now }) }
        ensures err { OnErr result (self.new ≡ self.old) }
    {
        let length = self.text.len();
        let put = put_found(&mut self.text, self.row, found);
        if put.is_err() {
            cut_text(self.alloc, &mut self.text, length);
        }
        put
    }

    // Adds the message.
    fn put_message(&mut self, message: &[u8]) -> Result<(), NoMemory>
        ensures ok { OnOk result (self.new ≡ record self.old {
          text = self.old.text ++ found_answer self.old.row (Held message.now);
        }) }
        ensures err { OnErr result (self.new ≡ self.old) }
    {
        let length = self.text.len();
        let put = put_held(&mut self.text, self.row, message);
        if put.is_err() {
            cut_text(self.alloc, &mut self.text, length);
        }
        put
    }
}

impl Replies for Retrieval {
    ghost use Rattle.std.specs.Prelude.{length};
    ghost use Rattle.dv_pop3.specs.Retrievals.{with_replies, none_taken, more_taken};

    ghost with = { λ r replies. with_replies r replies };

    ghost size = { λ r. length r.text };

    ghost none = { λ r. none_taken r };

    ghost more = { λ r a b. more_taken r a b };

    fn expect(&mut self, _replies: usize, _bytes: usize) -> Result<(), NoMemory> {
        Ok(())
    }

    fn take(&mut self, reply: Reply) -> Result<(), NoMemory> {
        match &reply {
            Reply::Fetch { values, .. } => match body_in(values.as_slice()) {
                Some(message) => self.put_message(message.as_slice()),
                None => Ok(()),
            },
            Reply::Gone { .. } => self.put(&Found::Gone),
            Reply::Damaged { .. } => self.put(&Found::Damaged),
            Reply::Unavailable { faults } => self.put(&Found::Disk(*faults)),
            _ => Ok(()),
        }
    }

    fn take_flags(
        &mut self,
        _alloc: Global,
        _names: &Table,
        _number: u32,
        _s: &Shown,
    ) -> Result<(), NoMemory> {
        Ok(())
    }

    fn length(&self) -> usize {
        self.text.len()
    }

    fn cut(&mut self, alloc: Global, length: usize) {
        cut_text(alloc, &mut self.text, length);
    }
}

impl Responses for Retrieval {
    fn take_fetch(
        &mut self,
        _alloc: Global,
        _live: &Live,
        _number: u32,
        _s: &Shown,
        items: &[Item],
        facts: &MailFacts,
    ) -> Result<(), NoMemory> {
        if !asks_body(items) {
            return Ok(());
        }
        match &facts.body {
            Some(message) => self.put_message(message.as_slice()),
            None => Ok(()),
        }
    }
}
