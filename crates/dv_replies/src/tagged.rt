ghost use Rattle.std.specs.Prelude.{◌≡◌, ◌∷◌, [], length, Some, None};
ghost use Rattle.dv_formats.specs.Parsing.{from, is_byte};
ghost use Rattle.dv_commands.specs.Reads.{Gives};
ghost use Rattle.dv_replies.specs.Reading.{bad_at, behind_else, done_at, given_at, gone_at, message_at, modified_at, name_at, refused_at, word_of};

use crate::lists::add_numbers;
use crate::numbers::{read_mark, read_wide, read_word};
use dv_commands::{behind, expect, split_at_byte};
use dv_model::{List, Mark, Reply, Word};
use dv_sets::ParseEnd;
use std::alloc::Global;

// The command of a name.
fn word_of(name: &[u8]) -> Option<Word>
    ensures { result ≡ word_of name.now }
{
    if name == b"SELECT".as_slice() {
        return Some(Word::Select);
    }
    if name == b"NOOP".as_slice() {
        return Some(Word::Noop);
    }
    if name == b"CHECK".as_slice() {
        return Some(Word::Check);
    }
    if name == b"APPEND".as_slice() {
        return Some(Word::Append);
    }
    if name == b"EXPUNGE".as_slice() {
        return Some(Word::Expunge);
    }
    if name == b"FETCH".as_slice() {
        return Some(Word::Fetch);
    }
    if name == b"STORE".as_slice() {
        return Some(Word::Store);
    }
    if name == b"SEARCH".as_slice() {
        return Some(Word::Search);
    }
    if name == b"UID FETCH".as_slice() {
        return Some(Word::UidFetch);
    }
    if name == b"UID STORE".as_slice() {
        return Some(Word::UidStore);
    }
    if name == b"UID SEARCH".as_slice() {
        return Some(Word::UidSearch);
    }
    if name == b"UID REMOVE".as_slice() {
        return Some(Word::UidRemove);
    }
    None
}

// A command's name up to the line feed.
fn read_name(b: &[u8]) -> Result<(Word, &[u8]), ParseEnd>
    ensures { Gives (λ x. (x.0, x.1.now)) result (name_at b.now) }
{
    let (name, rest) = split_at_byte(b, b'\n');
    match word_of(name) {
        Some(word) => Ok((word, rest)),
        None => Err(ParseEnd::Bad),
    }
}

// UIDVALIDITY and UID of an appended message, where they are said.
#[tactic(auto, unfolding(crate::specs::Reading::given_at))]
fn read_given(b: &[u8]) -> Result<(Option<(u32, u32)>, &[u8]), ParseEnd>
    ensures { Gives (λ x. (x.0, x.1.now)) result (given_at b.now) }
{
    let Some(rest) = behind(b, b"[APPENDUID ") else {
        return Ok((None, b));
    };
    let (validity, rest) = read_word(rest)?;
    let rest = expect(rest, b" ")?;
    let (uid, rest) = read_word(rest)?;
    let rest = expect(rest, b"] ")?;
    Ok((Some((validity, uid)), rest))
}

// The messages that UNCHANGEDSINCE kept, where there are some.
#[tactic(auto, unfolding(crate::specs::Reading::modified_at))]
fn read_modified(alloc: Global, b: &[u8]) -> Result<(List<u32>, &[u8]), ParseEnd>
    ensures { Gives (λ x. (x.0, x.1.now)) result (modified_at b.now) }
{
    let Some(rest) = behind(b, b"[MODIFIED ") else {
        return Ok((List::new(alloc), b));
    };
    let (first, rest) = read_word(rest)?;
    let mut numbers = List::from_slice(alloc, &[first])?;
    let rest = add_numbers(&mut numbers, b",", rest)?;
    let rest = expect(rest, b"] ")?;
    Ok((numbers, rest))
}

#[tactic(auto, unfolding(crate::specs::Reading::done_at))]
pub(crate) fn read_done(alloc: Global, b: &[u8]) -> Result<(Reply, &[u8]), ParseEnd>
    ensures { Gives (λ x. (x.0, x.1.now)) result (done_at b.now) }
{
    let (appended, rest) = read_given(b)?;
    let (modified, rest) = read_modified(alloc, rest)?;
    let rest = expect(rest, b"[")?;
    let (mark, rest) = read_mark(rest)?;
    let rest = expect(rest, b"] ")?;
    let (word, rest) = read_name(rest)?;
    let reply = Reply::Done {
        word,
        mark,
        appended,
        modified,
    };
    Ok((reply, rest))
}

// UID and mark.
#[tactic(auto, unfolding(crate::specs::Reading::message_at))]
fn read_message(b: &[u8]) -> Result<((u32, Mark), &[u8]), ParseEnd>
    ensures { Gives (λ x. (x.0, x.1.now)) result (message_at b.now) }
{
    let rest = expect(b, b"UID ")?;
    let (uid, rest) = read_word(rest)?;
    let rest = expect(rest, b" ")?;
    let (mark, rest) = read_mark(rest)?;
    Ok(((uid, mark), rest))
}

#[tactic(auto, unfolding(crate::specs::Reading::gone_at))]
fn read_gone(alloc: Global, b: &[u8]) -> Result<(Reply, &[u8]), ParseEnd>
    ensures { Gives (λ x. (x.0, x.1.now)) result (gone_at b.now) }
{
    let (modified, rest) = read_modified(alloc, b)?;
    let ((uid, mark), rest) = read_message(rest)?;
    let reply = Reply::Gone {
        uid,
        mark,
        modified,
    };
    Ok((reply, rest))
}

#[tactic(auto, unfolding(crate::specs::Reading::refused_at))]
pub(crate) fn read_refused(alloc: Global, b: &[u8]) -> Result<(Reply, &[u8]), ParseEnd>
    ensures { Gives (λ x. (x.0, x.1.now)) result (refused_at b.now) }
{
    if let Some(rest) = behind(b, b"[EXPUNGEISSUED] ") {
        return read_gone(alloc, rest);
    }
    if let Some(rest) = behind(b, b"[CORRUPTION] ") {
        let ((uid, mark), rest) = read_message(rest)?;
        return Ok((Reply::Damaged { uid, mark }, rest));
    }
    if let Some(rest) = behind(b, b"[UNAVAILABLE] FAULTS ") {
        let (faults, rest) = read_wide(rest)?;
        return Ok((Reply::Unavailable { faults }, rest));
    }
    if let Some(rest) = behind(b, b"[LIMIT] UIDS") {
        return Ok((Reply::UidsUsedUp, rest));
    }
    if let Some(rest) = behind(b, b"[LIMIT] BYTES ") {
        let (bytes, rest) = read_wide(rest)?;
        return Ok((Reply::TooLong { bytes }, rest));
    }
    Err(ParseEnd::Bad)
}

#[tactic(auto, unfolding(crate::specs::Reading::bad_at))]
pub(crate) fn read_bad(b: &[u8]) -> Result<(Reply, &[u8]), ParseEnd>
    ensures { Gives (λ x. (x.0, x.1.now)) result (bad_at b.now) }
{
    if let Some(rest) = behind(b, b"NOT SELECTED") {
        return Ok((Reply::NotSelected, rest));
    }
    if let Some(rest) = behind(b, b"NO MESSAGE ") {
        let (n, rest) = read_word(rest)?;
        return Ok((Reply::NoMessage(n), rest));
    }
    Err(ParseEnd::Bad)
}
