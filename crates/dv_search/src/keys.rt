ghost use Rattle.std.specs.Prelude.{◌≡◌, [], ℕ, All, List, Option, Some, bytes_eq, map, slice_get, unwrap_or, IfOk};
ghost use Rattle.std.specs.List.{list_all, list_any};
ghost use Rattle.std.specs.Option.{option_copied};
ghost use Rattle.dv_model.specs.declared.types.Key.TheVariants as key;
ghost use Rattle.dv_model.specs.Searches.{meets, needs_mail};
ghost use Rattle.dv_search.specs.Facts.{AreKnown, candidate_of, has_name, is_found};
ghost use Rattle.dv_search.specs.Prepared.{HasApart};

use crate::facts::{MailFacts, value_of};
use crate::text::contains;
use dv_model::{Bytes, Items, Key, NoMemory, Shown};
use dv_sets::is_in_joined;
use std::alloc::Global;

/// A message as search keys are tried on it.
#[derive(Drop)]
pub struct Candidate<'a> {
    /// The message as the session was shown it.
    pub shown: &'a Shown,
    /// The mailbox's keyword table.
    pub names: &'a [Bytes],
    /// What is known of the message, where keys that read it are tried.
    pub facts: Option<&'a MailFacts>,
}

// The name at a place of the table, or no bytes where it has none there.
fn name_at(names: &[Bytes], place: u32) -> &[u8]
    ensures { result.now ≡ unwrap_or (slice_get names.now place) [] }
{
    match names.get(place as usize) {
        Some(name) => name.as_slice(),
        None => &[],
    }
}

fn has_name(names: &[Bytes], place: u32, name: &[u8]) -> bool
    ensures { result ≡ has_name names.now name.now place }
{
    name == name_at(names, place)
}

// Whether the name stands at one of these places.
fn has_keyword(names: &[Bytes], places: &[u32], name: &[u8]) -> bool
    ensures { result ≡ list_any (has_name names.now name.now) places.now }
{
    places.iter().any(|place| has_name(names, *place, name))
}

fn is_larger(c: &Candidate, size: u32) -> bool
    ensures { (message : List ℕ)
        → AreKnown (key.Larger size) (Some message) (option_copied c.now.facts)
        → result ≡ meets (key.Larger size) (candidate_of c.now message) }
{
    match c.facts {
        Some(facts) => facts.size > u64::from(size),
        None => false,
    }
}

fn has_field(alloc: Global, c: &Candidate, name: &Bytes, text: &Bytes) -> Result<bool, NoMemory>
    ensures { (message : List ℕ)
        → AreKnown (key.Header name.now text.now) (Some message) (option_copied c.now.facts)
        → IfOk result (λ met. met
        ≡ meets (key.Header name.now text.now) (candidate_of c.now message)) }
{
    let Some(facts) = c.facts else {
        return Ok(false);
    };
    match value_of(facts, name.as_slice()) {
        Some(value) => contains(alloc, value.as_slice(), text.as_slice()),
        None => Ok(false),
    }
}

/// Whether the message meets the key, where the key's sets are ready. `NoMemory` is the only error.
#[cycle(meets)]
pub fn meets(alloc: Global, k: &Key, c: &Candidate) -> Result<bool, NoMemory>
    ensures { HasApart k.now → (message : List ℕ)
        → AreKnown k.now (Some message) (option_copied c.now.facts)
        → IfOk result (λ met. met ≡ meets k.now (candidate_of c.now message)) }
{
    match k {
        Key::All => Ok(true),
        Key::Has(bits) => Ok(c.shown.flags & *bits == *bits),
        Key::Lacks(bits) => Ok(c.shown.flags & *bits == 0),
        Key::Keyword(name) => Ok(has_keyword(
            c.names,
            c.shown.keywords.as_slice(),
            name.as_slice(),
        )),
        Key::Uid(set) => Ok(is_in_joined(set.as_slice(), c.shown.uid)),
        Key::Larger(size) => Ok(is_larger(c, *size)),
        Key::Header { name, text } => has_field(alloc, c, name, text),
        Key::Not(inside) => Ok(!meets(alloc, inside.get(), c)?),
        Key::Or(one, other) => { Ok(meets(alloc, one.get(), c)? || meets(alloc, other.get(), c)?) }
        Key::And(keys) => meets_all(alloc, keys, c),
    }
}

#[cycle(meets)]
fn meets_all(alloc: Global, keys: &Items<Key>, c: &Candidate) -> Result<bool, NoMemory>
    ensures { All HasApart keys.now → (message : List ℕ)
        → AreKnown (key.And keys.now) (Some message) (option_copied c.now.facts)
        → IfOk result (λ met. met
        ≡ list_all (λ met. met (candidate_of c.now message)) (map meets keys.now)) }
{
    for key in keys.as_slice() {
        if !meets(alloc, key, c)? {
            return Ok(false);
        }
    }
    Ok(true)
}

/// Whether the row is found; where the key needs mail, `reads`, one without facts isn't.
pub fn is_found(alloc: Global, k: &Key, c: &Candidate, reads: bool) -> Result<bool, NoMemory>
    ensures { HasApart k.now → reads ≡ needs_mail k.now
        → (message : Option (List ℕ)) → AreKnown k.now message (option_copied c.now.facts)
        → IfOk result (λ found. found ≡ is_found k.now (candidate_of c.now) message) }
{
    if reads && c.facts.is_none() {
        return Ok(false);
    }
    meets(alloc, k, c)
}
