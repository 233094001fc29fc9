ghost use Rattle.std.specs.Prelude.{◌≡◌, ◌∷◌, [], length, Some, None};
ghost use Rattle.dv_formats.specs.Parsing.{header_key, key_at, key_layer, key_flag, keyword_key, larger_key, valued_key, one_of, plain_key, several, uid_key, word_key};
ghost use Rattle.dv_commands.specs.Reads.{Gives};

use crate::leaves::{is_field_name, is_quoted, read_number, read_set};
use crate::text::{behind, expect, split_at_byte, split_word};
use dv_model::{Boxed, Items, Key, List};
use dv_records::is_name;
use dv_sets::ParseEnd;
use std::alloc::Global;

// The flag of a word, as its bit.
fn flag_of(word: &[u8]) -> Option<u8>
    ensures { result ≡ key_flag word.now }
{
    if word == b"ANSWERED".as_slice() {
        return Some(1);
    }
    if word == b"FLAGGED".as_slice() {
        return Some(2);
    }
    if word == b"DELETED".as_slice() {
        return Some(4);
    }
    if word == b"SEEN".as_slice() {
        return Some(8);
    }
    if word == b"DRAFT".as_slice() {
        return Some(16);
    }
    None
}

// A key of one word.
#[tactic(auto, unfolding(dv_formats::specs::Parsing::plain_key))]
fn plain_key(word: &[u8]) -> Option<Key>
    ensures { result ≡ plain_key word.now }
{
    if word == b"ALL".as_slice() {
        return Some(Key::All);
    }
    if let Some(flag) = behind(word, b"UN") {
        return Some(Key::Lacks(flag_of(flag)?));
    }
    Some(Key::Has(flag_of(word)?))
}

// The value of KEYWORD.
fn read_keyword(alloc: Global, word: &[u8]) -> Result<Key, ParseEnd>
    ensures { Gives (λ key. key) result (keyword_key word.now) }
{
    if !is_name(word) {
        return Err(ParseEnd::Bad);
    }
    Ok(Key::Keyword(List::from_slice(alloc, word)?))
}

// The value of UID.
fn read_uids(alloc: Global, word: &[u8]) -> Result<Key, ParseEnd>
    ensures { Gives (λ key. key) result (uid_key word.now) }
{
    Ok(Key::Uid(read_set(alloc, word)?))
}

// The value of LARGER.
fn read_larger(word: &[u8]) -> Result<Key, ParseEnd>
    ensures { Gives (λ key. key) result (larger_key word.now) }
{
    Ok(Key::Larger(read_number(word, 1 << 32)? as u32))
}

// A key of a word and its value.
#[tactic(auto, unfolding(dv_formats::specs::Parsing::valued_key))]
fn read_valued(alloc: Global, b: &[u8]) -> Result<(Key, &[u8]), ParseEnd>
    ensures { Gives (λ x. (x.0, x.1.now)) result (valued_key b.now) }
{
    if let Some(rest) = behind(b, b"KEYWORD ") {
        let (word, end) = split_word(rest);
        return Ok((read_keyword(alloc, word)?, end));
    }
    if let Some(rest) = behind(b, b"UID ") {
        let (word, end) = split_word(rest);
        return Ok((read_uids(alloc, word)?, end));
    }
    let rest = expect(b, b"LARGER ")?;
    let (word, end) = split_word(rest);
    Ok((read_larger(word)?, end))
}

// A key that has none inside, but HEADER.
#[tactic(auto, unfolding(dv_formats::specs::Parsing::word_key))]
fn read_word_key(alloc: Global, b: &[u8]) -> Result<(Key, &[u8]), ParseEnd>
    ensures { Gives (λ x. (x.0, x.1.now)) result (word_key b.now) }
{
    let (word, end) = split_word(b);
    match plain_key(word) {
        Some(key) => Ok((key, end)),
        None => read_valued(alloc, b),
    }
}

// A field's name, and a text in quotes.
#[tactic(auto, unfolding(dv_formats::specs::Parsing::header_key))]
fn read_header(alloc: Global, b: &[u8]) -> Result<(Key, &[u8]), ParseEnd>
    ensures { Gives (λ x. (x.0, x.1.now)) result (header_key b.now) }
{
    let (name, rest) = split_word(b);
    if !is_field_name(name) {
        return Err(ParseEnd::Bad);
    }
    let rest = expect(rest, b" \"")?;
    let (text, rest) = split_at_byte(rest, b'"');
    if !is_quoted(text) {
        return Err(ParseEnd::Bad);
    }
    let end = expect(rest, b"\"")?;
    let name = List::from_slice(alloc, name)?;
    let text = List::from_slice(alloc, text)?;
    Ok((Key::Header { name, text }, end))
}

/// One key for itself; several must all be met.
pub fn one_of(keys: Items<Key>) -> Key
    ensures { result ≡ one_of keys }
{
    let mut keys = keys;
    if keys.len() != 1 {
        return Key::And(keys);
    }
    match keys.pop() {
        Some(key) => key,
        None => Key::And(keys),
    }
}

/// A key that nests in at most so many levels, and what stands behind it.
#[cycle(key)]
#[tactic(auto, unfolding(dv_formats::specs::Parsing::key_at, dv_formats::specs::Parsing::key_layer))]
pub fn read_key(alloc: Global, levels: u32, b: &[u8]) -> Result<(Key, &[u8]), ParseEnd>
    ensures { Gives (λ x. (x.0, x.1.now)) result (key_at levels b.now) }
{
    if levels == 0 {
        return Err(ParseEnd::Bad);
    }
    if let Some(rest) = behind(b, b"(") {
        let (keys, rest) = read_keys(alloc, levels - 1, rest)?;
        let end = expect(rest, b")")?;
        return Ok((one_of(keys), end));
    }
    if let Some(rest) = behind(b, b"NOT ") {
        let (inside, end) = read_key(alloc, levels - 1, rest)?;
        return Ok((Key::Not(Boxed::new(alloc, inside)?), end));
    }
    if let Some(rest) = behind(b, b"OR ") {
        let (one, rest) = read_key(alloc, levels - 1, rest)?;
        let rest = expect(rest, b" ")?;
        let (other, end) = read_key(alloc, levels - 1, rest)?;
        return Ok((
            Key::Or(Boxed::new(alloc, one)?, Boxed::new(alloc, other)?),
            end,
        ));
    }
    if let Some(rest) = behind(b, b"HEADER ") {
        return read_header(alloc, rest);
    }
    read_word_key(alloc, b)
}

// Keys with a space between two, and what stands behind them.
#[cycle(key)]
pub fn read_keys(alloc: Global, levels: u32, b: &[u8]) -> Result<(Items<Key>, &[u8]), ParseEnd>
    ensures { Gives (λ x. (x.0, x.1.now)) result (several (key_at levels) (length b.now) b.now) }
{
    let mut keys = Vec::new(alloc);
    let mut rest = b;
    for _ in 0..b.len() {
        let (key, end) = read_key(alloc, levels, rest)?;
        keys.push(key)?;
        let Some(next) = behind(end, b" ") else {
            return Ok((Items::from_vec(keys), end));
        };
        rest = next;
    }
    Err(ParseEnd::Bad)
}
