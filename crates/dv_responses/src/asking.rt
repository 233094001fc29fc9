ghost use Rattle.std.specs.Prelude.{◌≡◌, ◌||◌, ◌++◌, ℕ, List, IfOk, OnOk, map};
ghost use Rattle.std.specs.List.{list_any};
ghost use Rattle.dv_search.specs.Facts.{asks};
ghost use Rattle.dv_responses.specs.Asked.{Asks, field_names, has_name, is_body, is_size};
ghost use Rattle.dv_responses.specs.Depth.{IsShallow};

use dv_model::{Bytes, Command, Duplicate, Item, Items, Key, List, NoMemory};
use dv_search::needs_mail;
use std::alloc::Global;

/// What a command asks of each message that it reads.
#[derive(Drop)]
pub struct Asked {
    /// The message's bytes.
    pub body: bool,
    /// The number of bytes where each line ends in CRLF (RFC822.SIZE).
    pub size: bool,
    /// The names of header fields, in the order in which the command has them.
    pub fields: List<Bytes>,
}

fn asks_size(items: &[Item]) -> bool
    ensures { result ≡ list_any is_size items.now }
{
    items.iter().any(|item| matches!(item, Item::Size))
}

fn asks_body(items: &[Item]) -> bool
    ensures { result ≡ list_any is_body items.now }
{
    items.iter().any(|item| matches!(item, Item::Body))
}

fn field_names(alloc: Global, items: &[Item]) -> Result<List<Bytes>, NoMemory>
    ensures { IfOk result (λ names. names ≡ field_names items.now) }
{
    let mut names = List::new(alloc);
    for item in items {
        if let Item::Field(name) = item {
            names.push(name.duplicate(alloc)?)?;
        }
    }
    Ok(names)
}

// Adds the names of the fields that HEADER keys look at.
#[cycle(names)]
fn add_names(alloc: Global, key: &Key, names: &mut List<Bytes>) -> Result<(), NoMemory>
    ensures { OnOk result ((name : List ℕ)
        → has_name names.new name ≡ (has_name names.old name || asks key.now name)) }
{
    match key {
        Key::Header { name, .. } => Ok(names.push(name.duplicate(alloc)?)?),
        Key::Not(inside) => add_names(alloc, inside.get(), names),
        Key::Or(one, other) => {
            add_names(alloc, one.get(), names)?;
            add_names(alloc, other.get(), names)
        }
        Key::And(keys) => add_names_of_all(alloc, keys, names),
        _ => Ok(()),
    }
}

#[cycle(names)]
fn add_names_of_all(
    alloc: Global,
    keys: &Items<Key>,
    names: &mut List<Bytes>,
) -> Result<(), NoMemory>
    ensures { OnOk result ((name : List ℕ) → has_name names.new name
        ≡ (has_name names.old name || list_any (λ asks. asks name) (map asks keys.now))) }
{
    for key in keys.as_slice() {
        add_names(alloc, key, names)?;
    }
    Ok(())
}

/// What the command asks of each message that it reads: FETCH by its items, and a SEARCH that reads
/// messages their sizes and the fields that a HEADER names. `NoMemory` is the only error.
pub fn asked_by(alloc: Global, c: &Command) -> Result<Asked, NoMemory>
    requires { IsShallow c.now }
    ensures { IfOk result (Asks c.now) }
{
    let mut fields = List::new(alloc);
    match c {
        Command::Fetch { items, .. } => Ok(Asked {
            body: asks_body(items.as_slice()),
            size: asks_size(items.as_slice()),
            fields: field_names(alloc, items.as_slice())?,
        }),
        Command::Search { key, .. } => {
            add_names(alloc, key, &mut fields)?;
            Ok(Asked {
                body: false,
                size: needs_mail(key),
                fields,
            })
        }
        _ => Ok(Asked {
            body: false,
            size: false,
            fields,
        }),
    }
}
