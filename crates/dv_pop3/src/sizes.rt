//! The messages of a maildrop with their sizes, taken from the replies to a FETCH.

ghost use Rattle.std.specs.Prelude.{◌≡◌, ◌++◌, ◌∷◌, [], None, OnErr, OnOk, Some};
ghost use Rattle.std.specs.List.{list_any};
ghost use Rattle.dv_responses.specs.Asked.{is_size};
ghost use Rattle.dv_pop3.specs.Listings.{size_in, sized};

use dv_keywords::Table;
use dv_maildrop::Listed;
use dv_model::{Item, List, NoMemory, Reply, Shown, Value};
use dv_responses::Responses;
use dv_search::MailFacts;
use dv_view::{Live, Replies};
use std::alloc::Global;
use std::marker::Model;
use std::mem;

// Whether the item asks the message's size.
fn is_size(item: &Item) -> bool
    ensures { result ≡ is_size item.now }
{
    matches!(item, Item::Size)
}

// Whether one of the items does.
fn asks_size(items: &[Item]) -> bool
    ensures { result ≡ list_any is_size items.now }
{
    items.iter().any(|item| is_size(item))
}

// The size among values.
fn size_in(values: &[Value]) -> Option<u64>
    ensures { result ≡ size_in values.now }
{
    for value in values {
        if let Value::Size(size) = value {
            return Some(*size);
        }
    }
    None
}

/// The messages so far, each with its size, or the count of a failure of the disk. Contracts see
/// both.
#[derive(Drop)]
pub(crate) struct Sizes {
    rows: List<Listed>,
    failure: Option<u64>,
}

impl Model for Sizes {
    ghost use Rattle.dv_pop3.specs.Listings.{Sizing};

    ghost Value = { Sizing };

    ghost view = { λ s. record { rows = s.rows; failure = s.failure } };
}

impl Sizes {
    /// No replies yet. It takes no memory.
    pub(crate) fn new(alloc: Global) -> Sizes
        ensures { result ≡ record { rows = []; failure = None } }
    {
        Sizes {
            rows: List::new(alloc),
            failure: None,
        }
    }

    /// The messages, and the failure.
    pub(crate) fn into_parts(self) -> (List<Listed>, Option<u64>)
        ensures { result ≡ (self.rows, self.failure) }
    {
        let Sizes { rows, failure } = self;
        (rows, failure)
    }

    // Adds a message, where its size is known.
    fn add(&mut self, uid: u32, size: Option<u64>) -> Result<(), NoMemory>
        ensures ok { OnOk result (self.new
            ≡ record self.old { rows = self.old.rows ++ sized uid size }) }
        ensures err { OnErr result (self.new ≡ self.old) }
    {
        match size {
            Some(size) => {
                self.rows.push(Listed { uid, size })?;
                Ok(())
            }
            None => Ok(()),
        }
    }
}

impl Replies for Sizes {
    ghost use Rattle.std.specs.Prelude.{◌+◌, length};
    ghost use Rattle.dv_pop3.specs.Listings.{failures_in, more_sizes, no_sizes, with_sizes};

    ghost with = { λ s replies. with_sizes s replies };

    ghost size = { λ s. length s.rows + failures_in s.failure };

    ghost none = { λ s. no_sizes s };

    ghost more = { λ s a b. more_sizes s a b };

    fn expect(&mut self, _replies: usize, _bytes: usize) -> Result<(), NoMemory> {
        Ok(())
    }

    fn take(&mut self, reply: Reply) -> Result<(), NoMemory> {
        if self.failure.is_some() {
            return Ok(());
        }
        match &reply {
            Reply::Unavailable { faults } => {
                self.failure = Some(*faults);
                Ok(())
            }
            Reply::Fetch { uid, values, .. } => self.add(*uid, size_in(values.as_slice())),
            _ => Ok(()),
        }
    }

    fn take_flags(
        &mut self,
        _alloc: Global,
        _names: &Table,
        _number: u32,
        _s: &Shown,
    ) -> Result<(), NoMemory> {
        Ok(())
    }

    fn length(&self) -> usize {
        match self.failure {
            Some(_) => self.rows.as_slice().len() + 1,
            None => self.rows.as_slice().len(),
        }
    }

    fn cut(&mut self, alloc: Global, length: usize) {
        if length > self.rows.as_slice().len() {
            return;
        }
        let mut rows = mem::replace(&mut self.rows, List::new(alloc)).into_vec();
        rows.truncate(length);
        self.rows = List::from_vec(rows);
        self.failure = None;
    }
}

impl Responses for Sizes {
    fn take_fetch(
        &mut self,
        _alloc: Global,
        _live: &Live,
        _number: u32,
        s: &Shown,
        items: &[Item],
        facts: &MailFacts,
    ) -> Result<(), NoMemory> {
        if self.failure.is_some() {
            return Ok(());
        }
        if !asks_size(items) {
            return Ok(());
        }
        self.add(s.uid, Some(facts.size))
    }
}
