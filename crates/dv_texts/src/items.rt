//! The values of a FETCH as text, each behind a space, straight from what is known of a message.

ghost use Rattle.std.specs.Prelude.{◌≡◌, ◌++◌, ◌∷◌, ℕ, List, OnOk, OnErr, Option, Some, flat_map, map, slice_get};
ghost use Rattle.dv_model.specs.declared.types.Value.TheVariants.{Body, Field, Flags};
ghost use Rattle.dv_model.specs.Sessions.{value_of};
ghost use Rattle.dv_model.specs.Texts.{value_text};
ghost use Rattle.dv_responses.specs.Fetched.{HasValue};
ghost use Rattle.dv_responses.specs.Supplied.{DescribesItems};
ghost use Rattle.dv_script.specs.Extending.{Extends};
ghost use Rattle.dv_view.specs.Tells.{names_at};

use dv_keywords::Table;
use dv_model::{Bytes, Item, NoMemory, Shown, Value};
use dv_responses::fields_in;
use dv_script::{put_body, put_field, put_value};
use dv_search::MailFacts;
use dv_view::{Live, names_at};
use std::alloc::Global;

/// Adds a row's flags, with the names of its keywords.
pub(crate) fn put_flags(
    alloc: Global,
    text: &mut Bytes,
    names: &Table,
    s: &Shown,
) -> Result<(), NoMemory>
    ensures ok { OnOk result (text.new ≡ text.old
        ++ 32 ∷ value_text (Flags s.now.flags (names_at names.now.names s.now.keywords))) }
    ensures err { OnErr result (Extends text.old text.new) }
{
    let keywords = names_at(alloc, names, s.keywords.as_slice())?;
    let flags = Value::Flags(s.flags, keywords);
    put_value(text, &flags)
}

// Adds the message's bytes, where they are known.
fn put_known_body(text: &mut Bytes, facts: &MailFacts) -> Result<(), NoMemory>
    ensures ok { (message : List ℕ) → facts.now.body ≡ Some message
        → OnOk result (text.new ≡ text.old ++ 32 ∷ value_text (Body message)) }
    ensures grows { Extends text.old text.new }
{
    match &facts.body {
        Some(body) => put_body(text, body),
        None => Ok(()),
    }
}

// Adds the name and the value of a field that is known, so many others before it.
fn put_known_field(text: &mut Bytes, facts: &MailFacts, field: usize) -> Result<(), NoMemory>
    ensures ok { (name : List ℕ) (value : Option (List ℕ))
        → slice_get facts.now.fields field ≡ Some (name, value)
        → OnOk result (text.new ≡ text.old ++ 32 ∷ value_text (Field name value)) }
    ensures grows { Extends text.old text.new }
{
    match facts.fields.as_slice().get(field) {
        Some((name, value)) => put_field(text, name, value),
        None => Ok(()),
    }
}

// Adds the value of an item, where it is known of the message.
fn put_item(
    alloc: Global,
    text: &mut Bytes,
    live: &Live,
    s: &Shown,
    item: &Item,
    facts: &MailFacts,
    field: usize,
) -> Result<(), NoMemory>
    ensures ok { (message : List ℕ) → HasValue message facts.now field item.now
        → OnOk result (text.new ≡ text.old
        ++ 32 ∷ value_text (value_of live.now.mailbox s.now message item.now)) }
    ensures grows { Extends text.old text.new }
{
    match item {
        Item::Flags => put_flags(alloc, text, live.names(), s),
        Item::Size => put_value(text, &Value::Size(facts.size)),
        Item::Body => put_known_body(text, facts),
        Item::Field(_) => put_known_field(text, facts, field),
        Item::Modseq => put_value(text, &Value::Modseq(s.modseq)),
    }
}

/// Adds the values of the items, where they are known of the message.
pub(crate) fn put_items(
    alloc: Global,
    text: &mut Bytes,
    live: &Live,
    s: &Shown,
    items: &[Item],
    facts: &MailFacts,
) -> Result<(), NoMemory>
    ensures ok { (message : List ℕ) → DescribesItems items.now message facts.now
        → OnOk result (text.new ≡ text.old ++ flat_map (λ v. 32 ∷ value_text v)
        (map (value_of live.now.mailbox s.now message) items.now)) }
    ensures grows { Extends text.old text.new }
{
    let mut field = 0;
    for item in items {
        put_item(alloc, text, live, s, item, facts, field)?;
        field += fields_in(item);
    }
    Ok(())
}
