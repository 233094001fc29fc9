ghost use Rattle.std.specs.Prelude.{◌≡◌, ◌≤◌, ℕ, All, List, IfOk, OnErr, OnOk, Option, Some, cond, flat_map, length, map, slice_get};
ghost use Rattle.std.specs.Option.{option_copied};
ghost use Rattle.dv_model.specs.declared.types.Command.TheVariants as command;
ghost use Rattle.dv_model.specs.Journals.{Mail as Message};
ghost use Rattle.dv_model.specs.Sessions.{data_of, fetch_line, fetch_lines, value_of};
ghost use Rattle.dv_search.specs.Facts.{facts_of};
ghost use Rattle.dv_responses.specs.Asked.{names_in};
ghost use Rattle.dv_responses.specs.Fetched.{AreFetched, HasValue, lines_from, no_facts};
ghost use Rattle.dv_responses.specs.Rows.{IsNumber, rows_at};
ghost use Rattle.dv_responses.specs.Supplied.{AreSupplied, DescribesItems, Supplies};
ghost use Rattle.dv_view.specs.Taken.{HasTaken};

use crate::Responses;
use crate::kinds::reads_messages;
use crate::rows::{named, row_at};
use dv_model::{Bytes, Duplicate, Item, List, NoMemory, Shown, Span, Value};
use dv_search::{Mail, MailFacts};
use dv_view::{Live, View, names_at};
use std::alloc::Global;

// The message's bytes, where they are known.
fn body_of(alloc: Global, facts: &MailFacts) -> Result<Bytes, NoMemory>
    ensures { (message : List ℕ) → facts.now.body ≡ Some message
        → IfOk result (λ body. body ≡ message) }
{
    match &facts.body {
        Some(body) => Ok(Bytes::from_slice(alloc, body.as_slice())?),
        None => Ok(Bytes::new(alloc)),
    }
}

// The value of a field that is known, so many others before it.
fn field_at(alloc: Global, facts: &MailFacts, field: usize) -> Result<Option<Bytes>, NoMemory>
    ensures { (name : List ℕ) (value : Option (List ℕ))
        → slice_get facts.now.fields field ≡ Some (name, value)
        → IfOk result (λ found. found ≡ value) }
{
    match facts.fields.as_slice().get(field) {
        Some((_, Some(value))) => Ok(Some(value.duplicate(alloc)?)),
        _ => Ok(None),
    }
}

// The value of an item, where it is known of the message.
fn value_of(
    alloc: Global,
    live: &Live,
    s: &Shown,
    item: &Item,
    facts: &MailFacts,
    field: usize,
) -> Result<Value, NoMemory>
    ensures { (message : List ℕ) → HasValue message facts.now field item.now
        → IfOk result (λ value. value ≡ value_of live.now.mailbox s.now message item.now) }
{
    match item {
        Item::Flags => {
            let keywords = names_at(alloc, live.names(), s.keywords.as_slice())?;
            Ok(Value::Flags(s.flags, keywords))
        }
        Item::Size => Ok(Value::Size(facts.size)),
        Item::Body => Ok(Value::Body(body_of(alloc, facts)?)),
        Item::Field(name) => {
            let value = field_at(alloc, facts, field)?;
            Ok(Value::Field(name.duplicate(alloc)?, value))
        }
        Item::Modseq => Ok(Value::Modseq(s.modseq)),
    }
}

/// How many header fields an item of a FETCH asks.
pub fn fields_in(item: &Item) -> usize
    ensures is { result ≡ length (names_in item.now) }
    ensures small { result ≤ 1 }
{
    match item {
        Item::Field(_) => 1,
        _ => 0,
    }
}

/// The values of the items, where they are known of the message.
pub fn values_of(
    alloc: Global,
    live: &Live,
    s: &Shown,
    items: &[Item],
    facts: &MailFacts,
) -> Result<List<Value>, NoMemory>
    ensures { (message : List ℕ) → DescribesItems items.now message facts.now
        → IfOk result (λ values.
        values ≡ map (value_of live.now.mailbox s.now message) items.now) }
{
    let mut values = List::from_vec(Vec::with_capacity(alloc, items.len())?);
    let mut field = 0;
    for item in items {
        values.push(value_of(alloc, live, s, item, facts, field)?)?;
        field += fields_in(item);
    }
    Ok(values)
}

// Adds the line of a row, where its message is known.
fn add_line<R: Responses>(
    alloc: Global,
    live: &Live,
    number: u32,
    s: &Shown,
    items: &[Item],
    facts: Option<&MailFacts>,
    lines: &mut R,
) -> Result<(), NoMemory>
    ensures ok { (message : Option (List ℕ))
        → Supplies (DescribesItems items.now) message (option_copied facts.entry)
        → OnOk result (lines.new ≡ R.with lines.old
        (lines_from live.now.mailbox items.now (number, s.now) message)) }
    ensures err { OnErr result (lines.new ≡ lines.old) }
{
    match facts {
        Some(facts) => lines.take_fetch(alloc, live, number, s, items, facts),
        None => Ok(()),
    }
}

// The facts of a message, or those of nothing where none is read.
fn facts_for<'a>(
    reads: bool,
    facts: &'a Mail,
    uid: u32,
    none: &'a MailFacts,
) -> Option<&'a MailFacts>
    ensures { option_copied result ≡ cond reads (facts_of facts.now uid) (Some none.now) }
{
    if reads { facts.of(uid) } else { Some(none) }
}

// Adds the lines of the rows with these numbers.
fn add_lines<R: Responses>(
    alloc: Global,
    live: &Live,
    rows: &[Shown],
    numbers: &[u32],
    items: &[Item],
    facts: &Mail,
    lines: &mut R,
) -> Result<(), NoMemory>
    requires { All (IsNumber rows.now) numbers.now }
    ensures ok { (mail : ℕ → Message) → AreFetched mail live.now.mailbox items.now facts.now
        (rows_at rows.now numbers.now)
        → OnOk result (lines.new ≡ R.with lines.old
        (flat_map (fetch_lines mail live.now.mailbox items.now) (rows_at rows.now numbers.now))) }
    ensures err { (mail : ℕ → Message) → AreFetched mail live.now.mailbox items.now facts.now
        (rows_at rows.now numbers.now)
        → OnErr result (HasTaken R.with lines.old lines.new) }
{
    let reads = reads_messages(items);
    let none = MailFacts {
        uid: 0,
        size: 0,
        body: None,
        fields: List::new(alloc),
    };
    for number in numbers {
        let s = row_at(rows, *number);
        let known = facts_for(reads, facts, s.uid, &none);
        add_line(alloc, live, *number, s, items, known, lines)?;
    }
    Ok(())
}

/// Adds the FETCH line of each row that the set names, but of those whose message is read and isn't
/// there (RFC 3501, section 7.4.2). After `NoMemory`, which is the only error, some may have been
/// added.
pub fn add_fetch_lines<R: Responses>(
    alloc: Global,
    by_uid: bool,
    set: &List<Span>,
    items: &List<Item>,
    view: &View,
    live: &Live,
    facts: &Mail,
    lines: &mut R,
) -> Result<(), NoMemory>
    ensures ok { (mail : ℕ → Message) → AreSupplied mail (command.Fetch by_uid set.now items.now)
        view.now live.now.mailbox facts.now
        → OnOk result (lines.new ≡ R.with lines.old
        (data_of mail (command.Fetch by_uid set.now items.now) view.now live.now.mailbox)) }
    ensures err { (mail : ℕ → Message) → AreSupplied mail (command.Fetch by_uid set.now items.now)
        view.now live.now.mailbox facts.now → OnErr result (HasTaken R.with lines.old lines.new) }
{
    let numbers = named(alloc, by_uid, set, view)?;
    let rows = view.rows().as_slice();
    add_lines(
        alloc,
        live,
        rows,
        numbers.as_slice(),
        items.as_slice(),
        facts,
        lines,
    )
}
