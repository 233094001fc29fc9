ghost use Rattle.std.specs.Prelude.{◌≡◌, Some, None};
ghost use Rattle.dv_formats.specs.Parsing.{append_of, command_of, fetch_of, how_at, modifier_at, plain_command, search_of, set_command, store_of, uid_command};
ghost use Rattle.dv_commands.specs.Keys.{key_of};
ghost use Rattle.dv_commands.specs.Reads.{Gives};

use crate::items::read_items;
use crate::keys::{one_of, read_key, read_keys};
use crate::leaves::{read_flags, read_number, read_set};
use crate::text::{ahead_of, behind, expect, split_list, split_word};
use dv_model::{Bytes, Command, How, Key, List};
use dv_sets::ParseEnd;
use std::alloc::Global;

/// The levels in which a search key may nest.
const MAX_LEVELS: u32 = 32;

#[tactic(auto, unfolding(dv_formats::specs::Parsing::fetch_of))]
fn read_fetch(alloc: Global, by_uid: bool, b: &[u8]) -> Result<Command, ParseEnd>
    ensures { Gives (λ c. c) result (fetch_of by_uid b.now) }
{
    let (word, rest) = split_word(b);
    let set = read_set(alloc, word)?;
    let rest = expect(rest, b" (")?;
    let (items, rest) = read_items(alloc, rest)?;
    let rest = expect(rest, b")")?;
    if !rest.is_empty() {
        return Err(ParseEnd::Bad);
    }
    Ok(Command::Fetch { by_uid, set, items })
}

// UNCHANGEDSINCE, where it stands.
#[tactic(auto, unfolding(dv_formats::specs::Parsing::modifier_at))]
fn read_modifier(b: &[u8]) -> Result<(Option<u64>, &[u8]), ParseEnd>
    ensures { Gives (λ x. (x.0, x.1.now)) result (modifier_at b.now) }
{
    let Some(rest) = behind(b, b"(UNCHANGEDSINCE ") else {
        return Ok((None, b));
    };
    let (word, rest) = split_word(rest);
    let since = read_number(word, 1 << 63)?;
    let rest = expect(rest, b") ")?;
    Ok((Some(since), rest))
}

#[tactic(auto, unfolding(dv_formats::specs::Parsing::how_at))]
fn read_how(b: &[u8]) -> Result<(How, &[u8]), ParseEnd>
    ensures { Gives (λ x. (x.0, x.1.now)) result (how_at b.now) }
{
    if let Some(rest) = behind(b, b"+FLAGS ") {
        return Ok((How::Add, rest));
    }
    if let Some(rest) = behind(b, b"-FLAGS ") {
        return Ok((How::Remove, rest));
    }
    let rest = expect(b, b"FLAGS ")?;
    Ok((How::Replace, rest))
}

#[tactic(auto, unfolding(dv_formats::specs::Parsing::store_of))]
fn read_store(alloc: Global, by_uid: bool, b: &[u8]) -> Result<Command, ParseEnd>
    ensures { Gives (λ c. c) result (store_of by_uid b.now) }
{
    let (word, rest) = split_word(b);
    let set = read_set(alloc, word)?;
    let rest = expect(rest, b" ")?;
    let (unchanged_since, rest) = read_modifier(rest)?;
    let (how, rest) = read_how(rest)?;
    let (flags, keywords) = read_flags(alloc, rest)?;
    Ok(Command::Store {
        by_uid,
        set,
        how,
        flags,
        keywords,
        unchanged_since,
    })
}

#[tactic(auto, unfolding(dv_formats::specs::Parsing::search_of))]
fn read_search(alloc: Global, by_uid: bool, b: &[u8]) -> Result<Command, ParseEnd>
    ensures { Gives (λ c. c) result (search_of by_uid b.now) }
{
    let (keys, rest) = read_keys(alloc, MAX_LEVELS, b)?;
    if !rest.is_empty() {
        return Err(ParseEnd::Bad);
    }
    let key = one_of(keys);
    Ok(Command::Search { by_uid, key })
}

/// The search key that is the whole of a text (RFC 3501, section 9, search-key): one key, and keys
/// in keys nest in at most 32 levels. Where the text is anything else, `Bad`; so several keys need
/// parentheses.
pub fn parse_key(alloc: Global, b: &[u8]) -> Result<Key, ParseEnd>
    ensures { Gives (λ key. key) result (key_of b.now) }
{
    let (key, rest) = read_key(alloc, MAX_LEVELS, b)?;
    if !rest.is_empty() {
        return Err(ParseEnd::Bad);
    }
    Ok(key)
}

// A command that names messages.
#[tactic(auto, unfolding(dv_formats::specs::Parsing::set_command))]
fn read_set_command(alloc: Global, by_uid: bool, b: &[u8]) -> Result<Command, ParseEnd>
    ensures { Gives (λ c. c) result (set_command by_uid b.now) }
{
    if let Some(rest) = behind(b, b"FETCH ") {
        return read_fetch(alloc, by_uid, rest);
    }
    if let Some(rest) = behind(b, b"STORE ") {
        return read_store(alloc, by_uid, rest);
    }
    if let Some(rest) = behind(b, b"SEARCH ") {
        return read_search(alloc, by_uid, rest);
    }
    Err(ParseEnd::Bad)
}

// A command that goes by UIDs, behind that word.
#[tactic(auto, unfolding(dv_formats::specs::Parsing::uid_command))]
fn read_uid_command(alloc: Global, b: &[u8]) -> Result<Command, ParseEnd>
    ensures { Gives (λ c. c) result (uid_command b.now) }
{
    if let Some(rest) = behind(b, b"REMOVE ") {
        let set = read_set(alloc, rest)?;
        return Ok(Command::UidRemove { set });
    }
    read_set_command(alloc, true, b)
}

// A command of one word.
fn plain_command(b: &[u8]) -> Option<Command>
    ensures { result ≡ plain_command b.now }
{
    if b == b"SELECT".as_slice() {
        return Some(Command::Select);
    }
    if b == b"NOOP".as_slice() {
        return Some(Command::Noop);
    }
    if b == b"CHECK".as_slice() {
        return Some(Command::Check);
    }
    if b == b"EXPUNGE".as_slice() {
        return Some(Command::Expunge);
    }
    None
}

/// The command that stands on a line behind its session: any but APPEND (RFC 3501, section 6).
#[tactic(auto, unfolding(dv_formats::specs::Parsing::command_of))]
pub fn parse_command(alloc: Global, b: &[u8]) -> Result<Command, ParseEnd>
    ensures { Gives (λ c. c) result (command_of b.now) }
{
    if let Some(command) = plain_command(b) {
        return Ok(command);
    }
    if let Some(rest) = behind(b, b"UID ") {
        return read_uid_command(alloc, rest);
    }
    read_set_command(alloc, false, b)
}

/// What stands behind the word APPEND: flags, keywords, and the number of bytes of the message that
/// follows the line (RFC 3501, section 4.3, literals).
#[tactic(auto, unfolding(dv_formats::specs::Parsing::append_of))]
pub fn parse_append(alloc: Global, b: &[u8]) -> Result<((u8, List<Bytes>), u32), ParseEnd>
    ensures { Gives (λ x. x) result (append_of b.now) }
{
    let (list, rest) = split_list(b)?;
    let flags = read_flags(alloc, list)?;
    let rest = expect(rest, b" {")?;
    let digits = ahead_of(rest, b"}")?;
    let size = read_number(digits, 1 << 32)?;
    Ok((flags, size as u32))
}
