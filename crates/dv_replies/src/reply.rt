ghost use Rattle.std.specs.Prelude.{◌≡◌, ℕ, List, length, IfOk, Some, None, Ok, Err};
ghost use Rattle.dv_model.specs.declared.types.Reply.{Reply};
ghost use Rattle.dv_sets.specs.Answers.{Answers, OnBad};
ghost use Rattle.dv_sets.specs.declared.end.ParseEnd.TheVariants as parse_end;
ghost use Rattle.dv_commands.specs.Reads.{Gives};
ghost use Rattle.dv_replies.specs.Lines.{Begins};
ghost use Rattle.dv_replies.specs.Reading.{behind_else, bracketed_at, fetch_at, line_at, numbered_at, reply_at, reply_of, search_at, untagged_at};

use crate::lists::add_numbers;
use crate::numbers::read_word;
use crate::tagged::{read_bad, read_done, read_refused};
use crate::value::read_values;
use dv_commands::{behind, expect};
use dv_model::{Bytes, List, Reply};
use dv_script::split_session;
use dv_sets::ParseEnd;
use std::alloc::Global;

#[tactic(auto, unfolding(crate::specs::Reading::search_at))]
fn read_search(alloc: Global, b: &[u8]) -> Result<(Reply, &[u8]), ParseEnd>
    ensures { Gives (λ x. (x.0, x.1.now)) result (search_at b.now) }
{
    let mut numbers = List::new(alloc);
    let rest = add_numbers(&mut numbers, b" ", b)?;
    Ok((Reply::Search(numbers), rest))
}

// A number before its bracket.
#[tactic(auto, unfolding(crate::specs::Reading::bracketed_at))]
fn read_bracketed(b: &[u8]) -> Result<(u32, &[u8]), ParseEnd>
    ensures { Gives (λ x. (x.0, x.1.now)) result (bracketed_at b.now) }
{
    let (n, rest) = read_word(b)?;
    let rest = expect(rest, b"]")?;
    Ok((n, rest))
}

#[tactic(auto, unfolding(crate::specs::Reading::fetch_at))]
fn read_fetch(alloc: Global, number: u32, b: &[u8]) -> Result<(Reply, &[u8]), ParseEnd>
    ensures { Gives (λ x. (x.0, x.1.now)) result (fetch_at number b.now) }
{
    let (uid, rest) = read_word(b)?;
    let (values, rest) = read_values(alloc, rest)?;
    let rest = expect(rest, b")")?;
    let reply = Reply::Fetch {
        number,
        uid,
        values,
    };
    Ok((reply, rest))
}

// A reply that begins with a number.
#[tactic(auto, unfolding(crate::specs::Reading::numbered_at))]
fn read_numbered(alloc: Global, b: &[u8]) -> Result<(Reply, &[u8]), ParseEnd>
    ensures { Gives (λ x. (x.0, x.1.now)) result (numbered_at b.now) }
{
    let (n, rest) = read_word(b)?;
    if let Some(end) = behind(rest, b" EXISTS") {
        return Ok((Reply::Exists(n), end));
    }
    if let Some(end) = behind(rest, b" EXPUNGE") {
        return Ok((Reply::Expunge(n), end));
    }
    if let Some(end) = behind(rest, b" FETCH (UID ") {
        return read_fetch(alloc, n, end);
    }
    Err(ParseEnd::Bad)
}

#[tactic(auto, unfolding(crate::specs::Reading::untagged_at))]
fn read_untagged(alloc: Global, b: &[u8]) -> Result<(Reply, &[u8]), ParseEnd>
    ensures { Gives (λ x. (x.0, x.1.now)) result (untagged_at b.now) }
{
    if let Some(rest) = behind(b, b"SEARCH") {
        return read_search(alloc, rest);
    }
    if let Some(rest) = behind(b, b"OK [UIDVALIDITY ") {
        let (n, end) = read_bracketed(rest)?;
        return Ok((Reply::Validity(n), end));
    }
    if let Some(rest) = behind(b, b"OK [UIDNEXT ") {
        let (n, end) = read_bracketed(rest)?;
        return Ok((Reply::NextUid(n), end));
    }
    read_numbered(alloc, b)
}

#[tactic(auto, unfolding(crate::specs::Reading::reply_at))]
fn read_reply(alloc: Global, b: &[u8]) -> Result<(Reply, &[u8]), ParseEnd>
    ensures { Gives (λ x. (x.0, x.1.now)) result (reply_at b.now) }
{
    if let Some(rest) = behind(b, b"* ") {
        return read_untagged(alloc, rest);
    }
    if let Some(rest) = behind(b, b"OK ") {
        return read_done(alloc, rest);
    }
    if let Some(rest) = behind(b, b"NO ") {
        return read_refused(alloc, rest);
    }
    if let Some(rest) = behind(b, b"BAD ") {
        return read_bad(rest);
    }
    Err(ParseEnd::Bad)
}

// A session's name, a space, a reply and a line feed.
#[tactic(auto, unfolding(crate::specs::Reading::line_at))]
fn read_line(alloc: Global, b: &[u8]) -> Result<(Bytes, Reply, &[u8]), ParseEnd>
    ensures { Gives (λ x. (x.0, x.1, x.2.now)) result (line_at b.now) }
{
    let Some((name, rest)) = split_session(b) else {
        return Err(ParseEnd::Bad);
    };
    let (reply, rest) = read_reply(alloc, rest)?;
    let rest = expect(rest, b"\n")?;
    Ok((List::from_slice(alloc, name)?, reply, rest))
}

// The same with the number of the line's bytes.
#[tactic(auto, using(crate::proofs::Exact::line_within))]
fn read_sized(alloc: Global, b: &[u8]) -> Result<(Bytes, Reply, usize), ParseEnd>
    ensures { Gives (λ x. x) result (reply_of b.now) }
{
    let (session, reply, rest) = read_line(alloc, b)?;
    Ok((session, reply, b.len() - rest.len()))
}

/// The reply whose line begins the bytes, with its session and the line's number of bytes, its line
/// feed among them (RFC 3501, section 7); what follows is not looked at. `Bad` where the bytes
/// begin with the line of no reply.
pub fn parse_reply(alloc: Global, b: &[u8]) -> Result<(Bytes, Reply, usize), ParseEnd>
    // What is read begins the bytes.
    ensures found { IfOk result (λ x. Begins x.0 x.1 x.2 b.now) }
    // A reply whose line begins the bytes is read, with its session and its length.
    ensures only { (session : List ℕ) (r : Reply) (size : ℕ) → Begins session r size b.now
        → Answers result (Ok (session, r, size)) }
    // Bad bytes begin with no reply.
    ensures bad { OnBad result
        ((session : List ℕ) (r : Reply) (size : ℕ) → Begins session r size b.now → ⊥) }
    // Bytes that begin with no reply are bad.
    ensures every { ((session : List ℕ) (r : Reply) (size : ℕ) → Begins session r size b.now → ⊥)
        → Answers result (Err parse_end.Bad) }
{
    read_sized(alloc, b)
}
