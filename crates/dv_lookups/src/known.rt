//! What the cache file keeps of a message.

ghost use Rattle.std.specs.Prelude.{◌≡◌, List, ℕ, IfOk, IsSomeAnd, MatchOption, Option, false, true, slice_get};
ghost use Rattle.std.specs.List.{list_all};
ghost use Rattle.std.specs.Option.{option_copied};
ghost use Rattle.dv_model.specs.Fields.{field_of};
ghost use Rattle.dv_openings.specs.TrueCaches.{kept_names, known_in};
ghost use Rattle.dv_responses.specs.Supplied.{facts_from, values_of};
ghost use Rattle.dv_lookups.specs.Kept.{can_stand, is_kept, same_name};

use dv_cache::Known;
use dv_model::{Bytes, Duplicate, List, NoMemory};
use dv_responses::Asked;
use dv_search::MailFacts;
use std::alloc::Global;

fn is_same_name(a: &[u8], b: &[u8]) -> bool
    ensures { result ≡ same_name a.now b.now }
{
    a.eq_ignore_ascii_case(b)
}

// The place of a name among the five that are kept.
#[tactic(auto, unfolding(crate::specs::Kept::is_kept))]
fn place_of(name: &[u8]) -> Option<usize>
    ensures { MatchOption result (is_kept name.now ≡ false)
        (λ at. IsSomeAnd (slice_get kept_names at) (λ kept. same_name kept name.now ≡ true)) }
{
    if is_same_name(b"date", name) {
        Some(0)
    } else if is_same_name(b"from", name) {
        Some(1)
    } else if is_same_name(b"to", name) {
        Some(2)
    } else if is_same_name(b"subject", name) {
        Some(3)
    } else if is_same_name(b"message-id", name) {
        Some(4)
    } else {
        None
    }
}

/// Whether the cache file keeps fields of this name.
#[tactic(auto, unfolding(crate::specs::Kept::is_kept))]
pub(crate) fn is_kept(name: &[u8]) -> bool
    ensures { result ≡ is_kept name.now }
{
    place_of(name).is_some()
}

fn are_kept(names: &[Bytes]) -> bool
    ensures { result ≡ list_all is_kept names.now }
{
    names.iter().all(|name| is_kept(name.as_slice()))
}

/// Whether all that is asked of a message can stand in the cache file.
pub(crate) fn can_stand(asked: &Asked) -> bool
    ensures { result ≡ can_stand asked.now }
{
    !asked.body && are_kept(asked.fields.as_slice())
}

fn field_at(fields: &[Option<Bytes>], at: usize) -> Option<&Option<Bytes>>
    ensures { option_copied result ≡ slice_get fields.now at }
{
    fields.get(at)
}

/// The value of a field of a kept name, where the message has one.
pub(crate) fn value_of<'a>(known: &'a Known, name: &[u8]) -> Option<&'a Bytes>
    ensures { (message : List ℕ) → known.now ≡ known_in message → is_kept name.now ≡ true →
        option_copied result ≡ field_of message name.now }
{
    let at = place_of(name)?;
    match field_at(known.fields.as_slice(), at) {
        Some(value) => value.as_ref(),
        None => None,
    }
}

/// A copy of a value.
pub(crate) fn copy_of(alloc: Global, value: Option<&Bytes>) -> Result<Option<Bytes>, NoMemory>
    ensures { IfOk result (λ made. made ≡ option_copied value.entry) }
{
    match value {
        Some(value) => Ok(Some(value.duplicate(alloc)?)),
        None => Ok(None),
    }
}

// Each field with its value, where the message has it.
fn values_of(
    alloc: Global,
    known: &Known,
    names: &[Bytes],
) -> Result<List<(Bytes, Option<Bytes>)>, NoMemory>
    ensures { (message : List ℕ) → known.now ≡ known_in message →
        list_all is_kept names.now ≡ true →
        IfOk result (λ values. values ≡ values_of message names.now) }
{
    let mut values = List::new(alloc);
    for name in names {
        let value = copy_of(alloc, value_of(known, name.as_slice()))?;
        values.push((name.duplicate(alloc)?, value))?;
    }
    Ok(values)
}

/// The facts of a message from what is kept of it.
pub(crate) fn facts_known(
    alloc: Global,
    asked: &Asked,
    uid: u32,
    known: &Known,
) -> Result<MailFacts, NoMemory>
    ensures is { (message : List ℕ) → known.now ≡ known_in message →
        can_stand asked.now ≡ true →
        IfOk result (λ facts. facts ≡ facts_from asked.now uid message) }
    ensures named { IfOk result (λ facts. facts.uid ≡ uid) }
{
    Ok(MailFacts {
        uid,
        size: u64::from(known.virtual_size),
        body: None,
        fields: values_of(alloc, known, asked.fields.as_slice())?,
    })
}
