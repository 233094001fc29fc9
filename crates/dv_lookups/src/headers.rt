//! The fields of a message that are asked by name, in one walk over its header.

ghost use Rattle.std.specs.Prelude.{◌≡◌, ◌∷◌, ℕ, All, IfOk, List as Listed, OnOk, map};
ghost use Rattle.dv_model.specs.Fields.{field_of, without_end_blanks, without_front_blanks};
ghost use Rattle.dv_responses.specs.Supplied.{values_of};
ghost use Rattle.dv_lookups.specs.Headers.{IsAsked, IsTold, at_key, at_name, found_behind, left_behind};

use crate::lines::{byte_place, split_field};
use dv_model::{Bytes, Duplicate, List, NoMemory};
use std::alloc::Global;
use std::collections::BTreeMap;

// Names in lower case that weren't found yet.
type Missing = BTreeMap<Vec<u8>, ()>;

// The values of those that were.
type Values = BTreeMap<Vec<u8>, Bytes>;

// A text without the spaces and tabs at its front.
fn trim_front(text: &[u8]) -> &[u8]
    ensures { result.now ≡ without_front_blanks text.now }
{
    let mut text = text;
    while let [b' ' | b'\t', rest @ ..] = text {
        text = rest;
    }
    text
}

// A text without the spaces and tabs at its end.
fn trim_end(text: &[u8]) -> &[u8]
    ensures { result.now ≡ without_end_blanks text.now }
{
    let mut text = text;
    while let [rest @ .., b' ' | b'\t'] = text {
        text = rest;
    }
    text
}

// A name is asked, whatever its case.
fn ask(alloc: Global, name: &[u8], missing: &mut Missing) -> Result<(), NoMemory>
    ensures asked { OnOk result (IsAsked missing.new name.now) }
    ensures others { OnOk result ((other : Listed ℕ) → IsAsked missing.old other
        → IsAsked missing.new other) }
{
    missing.insert(name.to_ascii_lowercase(alloc)?, ())?;
    Ok(())
}

// These names are asked.
fn ask_all(alloc: Global, names: &[Bytes]) -> Result<Missing, NoMemory>
    ensures { IfOk result (λ missing. All (IsAsked missing) names.now) }
{
    let mut missing = BTreeMap::new(alloc);
    for name in names {
        ask(alloc, name.as_slice(), &mut missing)?;
    }
    Ok(missing)
}

// Takes a name from those that are missing, and puts its value to those that were found.
fn take_value(
    alloc: Global,
    name: Vec<u8>,
    value: &[u8],
    missing: &mut Missing,
    values: &mut Values,
) -> Result<(), NoMemory>
    ensures missing { OnOk result ((key : Listed ℕ) → at_key missing.new key
        ≡ left_behind name.items missing.old key) }
    ensures values { OnOk result ((key : Listed ℕ) → at_key values.new key
        ≡ found_behind name.items value.now missing.old values.old key) }
{
    if missing.remove(name.as_slice()).is_some() {
        let value = Bytes::from_slice(alloc, value)?;
        values.insert(name, value)?;
    }
    Ok(())
}

// An unfolded line of the header, where it is the first field of a name that is missing.
fn take_field(
    alloc: Global,
    field: &[u8],
    missing: &mut Missing,
    values: &mut Values,
) -> Result<(), NoMemory>
    ensures { OnOk result ((fields more : Listed (Listed ℕ)) (name : Listed ℕ)
        → IsTold fields (field.now ∷ more) missing.old values.old name
        → IsTold fields more missing.new values.new name) }
{
    let Some(colon) = byte_place(field, b':') else {
        return Ok(());
    };
    let name = field[..colon].to_ascii_lowercase(alloc)?;
    let value = trim_end(trim_front(&field[colon + 1..]));
    take_value(alloc, name, value, missing, values)
}

// The values of the fields of these names, as far as the header has them. It is read to where none
// is missing.
fn read_header(alloc: Global, message: &[u8], missing: Missing) -> Result<Values, NoMemory>
    ensures { IfOk result (λ values. (name : Listed ℕ) → IsAsked missing name →
        at_name values name ≡ field_of message.now name) }
{
    let mut missing = missing;
    let mut values = BTreeMap::new(alloc);
    let mut rest = message;
    while !missing.is_empty() {
        let Some((field, after)) = split_field(alloc, rest)? else {
            return Ok(values);
        };
        take_field(alloc, field.as_slice(), &mut missing, &mut values)?;
        rest = after;
    }
    Ok(values)
}

// The value that was found of a name.
fn value_at(alloc: Global, values: &Values, name: &[u8]) -> Result<Option<Bytes>, NoMemory>
    ensures { IfOk result (λ value. value ≡ at_name values.now name.now) }
{
    let key = name.to_ascii_lowercase(alloc)?;
    match values.get(key.as_slice()) {
        Some(value) => Ok(Some(value.duplicate(alloc)?)),
        None => Ok(None),
    }
}

// Each name with the value that was found of it.
fn with_values(
    alloc: Global,
    values: &Values,
    names: &[Bytes],
) -> Result<List<(Bytes, Option<Bytes>)>, NoMemory>
    ensures { IfOk result (λ pairs. pairs
        ≡ map (λ name. (name, at_name values.now name)) names.now) }
{
    let mut pairs = List::new(alloc);
    for name in names {
        let value = value_at(alloc, values, name.as_slice())?;
        pairs.push((name.duplicate(alloc)?, value))?;
    }
    Ok(pairs)
}

/// Each name with the value of the message's first field of that name, where it has one. The header
/// is read once, whatever the number of names, and only to where all of them were found. `NoMemory`
/// is the only error.
pub(crate) fn fields_of(
    alloc: Global,
    message: &[u8],
    names: &[Bytes],
) -> Result<List<(Bytes, Option<Bytes>)>, NoMemory>
    ensures { IfOk result (λ pairs. pairs
        ≡ values_of message.now names.now) }
{
    let missing = ask_all(alloc, names)?;
    let values = read_header(alloc, message, missing)?;
    with_values(alloc, &values, names)
}
