//! What a client knows of an older state, by words.

ghost use Rattle.std.specs.Prelude.{◌≡◌, ◌∷◌, ◌^◌, ◌<◌, [], IfErr, IfOk, IfSome, IsSome, MatchOption, is_some, length, position};
ghost use Rattle.std.specs.List.{slice_split};
ghost use Rattle.dv_formats.specs.Parsing.{end_of, is_byte, number_of, set_of, span_of};
ghost use Rattle.dv_catching.specs.Clients.{client_of};

use dv_commands::read_decimal;
use dv_model::NoMemory;
use dv_qresync::Old;
use dv_sets::{ParseEnd, parse_set};
use std::alloc::Global;

/// UIDVALIDITYs and UIDs are below this (RFC 3501, section 9, `nz-number`).
const NUMBERS: u64 = 1 << 32;

/// Modification sequences are below this (RFC 7162, section 7, `mod-sequence-value`).
const MODSEQS: u64 = 1 << 63;

/// A number of 64 bits is one.
fn is_wide(n: u64)
    ensures { n < 2 ^ 64 }
{}

/// The number of a word below a limit, in decimal digits and without leading zeros.
fn number_below(limit: u64, word: &[u8]) -> Option<u64>
    ensures is { result ≡ number_of limit word.now }
    ensures small { IfSome result (λ n. n < limit) }
{
    let Some(n) = read_decimal(word) else {
        return None;
    };
    is_wide(n);
    if n < limit { Some(n) } else { None }
}

/// The place of the first such byte.
fn place_of(text: &[u8], byte: u8) -> Option<usize>
    ensures { result ≡ position (is_byte byte) text.now }
{
    text.iter().position(|b| *b == byte)
}

/// The first of the pieces between such bytes, and what stands behind it, if anything does.
fn cut(text: &[u8], byte: u8) -> (&[u8], Option<&[u8]>)
    ensures pieces { MatchOption result.1
        (slice_split (is_byte byte) text.now ≡ result.0.now ∷ [])
        (λ rest. slice_split (is_byte byte) text.now
        ≡ result.0.now ∷ slice_split (is_byte byte) rest.now) }
    ensures shorter { IfSome result.1 (λ rest. length rest.now < length text.now) }
{
    match place_of(text, byte) {
        None => (text, None),
        Some(at) => {
            let (front, behind) = text.split_at(at);
            let (_, rest) = behind.split_at(1);
            (front, Some(rest))
        }
    }
}

/// Whether a word is a number from 1 or `*`.
fn is_end(word: &[u8]) -> bool
    ensures { result ≡ is_some (end_of word.now) }
{
    if word == b"*".as_slice() {
        return true;
    }
    match number_below(NUMBERS, word) {
        Some(n) => n != 0,
        None => false,
    }
}

/// Whether a word is one of these, or two with a colon between them.
fn is_span(word: &[u8]) -> bool
    ensures { result ≡ is_some (span_of word.now) }
{
    let (from, behind) = cut(word, b':');
    let Some(rest) = behind else {
        return is_end(from);
    };
    let (to, more) = cut(rest, b':');
    if more.is_some() {
        return false;
    }
    let begins = is_end(from);
    let ends = is_end(to);
    begins && ends
}

/// Whether a word is a set, by no memory.
fn is_set(word: &[u8]) -> bool
    ensures { result ≡ is_some (set_of word.now) }
{
    let mut text = word;
    'pieces: loop {
        let (piece, behind) = cut(text, b',');
        if !is_span(piece) {
            return false;
        }
        let Some(rest) = behind else {
            return true;
        };
        text = rest;
    }
}

/// What a client knows of an older state, by its words: UIDVALIDITY, modification sequence, and a
/// set of UIDs. `None` where they aren't that; memory lacks only for words that are.
pub fn client_of(
    alloc: Global,
    validity: &[u8],
    modseq: &[u8],
    set: &[u8],
) -> Result<Option<Old>, NoMemory>
    ensures is { IfOk result (λ client. client ≡ client_of validity.now modseq.now set.now) }
    ensures lacking { IfErr result (λ e. IsSome (client_of validity.now modseq.now set.now)) }
{
    let Some(uid_validity) = number_below(NUMBERS, validity) else {
        return Ok(None);
    };
    let Some(modseq) = number_below(MODSEQS, modseq) else {
        return Ok(None);
    };
    match parse_set(alloc, set) {
        Ok(uids) => Ok(Some(Old {
            uid_validity: uid_validity as u32,
            modseq,
            uids,
        })),
        Err(ParseEnd::Bad) => Ok(None),
        Err(ParseEnd::NoMemory) => if is_set(set) { Err(NoMemory) } else { Ok(None) },
    }
}
