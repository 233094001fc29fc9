ghost use Rattle.std.specs.Prelude.{◌≡◌, ◌++◌, ◌∷◌, [], ℕ, List, IfOk, MatchOption, OnErr, Ok, Err};
ghost use Rattle.dv_formats.specs.Scripts.{AreFlags, IsFlag, flag_bit, with_flag};
ghost use Rattle.dv_sets.specs.Answers.{Answers, OnBad};
ghost use Rattle.dv_sets.specs.Known.{KnowsAll};
ghost use Rattle.dv_sets.specs.declared.end.ParseEnd.TheVariants as parse_end;

use crate::cutting::cut;
use crate::end::ParseEnd;
use dv_model::{Bytes, List};
use dv_records::is_name;
use std::alloc::Global;
use std::collections::BTreeSet;

// What stands in parentheses.
fn inside(b: &[u8]) -> Option<&[u8]>
    ensures { MatchOption result ((text : List ℕ) → b.now ≡ 40 ∷ text ++ 41 ∷ [] → ⊥)
        (λ text. b.now ≡ 40 ∷ text.now ++ 41 ∷ []) }
{
    let Some(rest) = b.strip_prefix(b"(") else {
        return None;
    };
    let Some(text) = rest.strip_suffix(b")") else {
        return None;
    };
    Some(text)
}

/// The bit of a system flag, as in [dv_model::Row], or none for another word (RFC 3501, section
/// 2.3.2).
pub fn flag_bit(word: &[u8]) -> Option<u8>
    ensures { result ≡ flag_bit word.now }
{
    if word == b"\\Answered".as_slice() {
        return Some(1);
    }
    if word == b"\\Flagged".as_slice() {
        return Some(2);
    }
    if word == b"\\Deleted".as_slice() {
        return Some(4);
    }
    if word == b"\\Seen".as_slice() {
        return Some(8);
    }
    if word == b"\\Draft".as_slice() {
        return Some(16);
    }
    None
}

// The flags with this one; a keyword goes to the end of the list, unless it is known.
fn add_flag<'a>(
    alloc: Global,
    word: &'a [u8],
    flags: u8,
    known: &mut BTreeSet<&'a [u8]>,
    keywords: &mut List<Bytes>,
) -> Result<u8, ParseEnd>
    requires known { KnowsAll known.old keywords.old }
    ensures known { IfOk result (λ more. KnowsAll known.new keywords.new) }
    ensures ok { IfOk result (λ more. IsFlag word.now
        × (with_flag (flags, keywords.old) word.now ≡ (more, keywords.new))) }
    ensures bad { OnBad result (IsFlag word.now → ⊥) }
{
    if let Some(bit) = flag_bit(word) {
        return Ok(flags | bit);
    }
    if !is_name(word) {
        return Err(ParseEnd::Bad);
    }
    if known.insert(word)? {
        keywords.push(Bytes::from_slice(alloc, word)?)?;
    }
    Ok(flags)
}

/// The flags and keywords of a list in parentheses (`flag-list` of RFC 3501, section 9): flag bits
/// as in [dv_model::Row], and keywords in the order of their first places.
pub fn parse_flags(alloc: Global, b: &[u8]) -> Result<(u8, List<Bytes>), ParseEnd>
    // What is read is what the text says.
    ensures found { IfOk result (λ x. AreFlags x.0 x.1 b.now) }
    // The flags of a text are read.
    ensures only { (flags : ℕ) (keywords : List (List ℕ)) → AreFlags flags keywords b.now
        → Answers result (Ok (flags, keywords)) }
    // A bad text is of no flags.
    ensures bad { OnBad result
        ((flags : ℕ) (keywords : List (List ℕ)) → AreFlags flags keywords b.now → ⊥) }
    // A text of no flags is bad.
    ensures every { ((flags : ℕ) (keywords : List (List ℕ)) → AreFlags flags keywords b.now → ⊥)
        → Answers result (Err parse_end.Bad) }
{
    let Some(words) = inside(b) else {
        return Err(ParseEnd::Bad);
    };
    let mut flags = 0;
    let mut keywords = List::new(alloc);
    if words.is_empty() {
        return Ok((flags, keywords));
    }
    let mut known = BTreeSet::new(alloc);
    let mut text = words;
    'each_word: loop {
        let (word, behind) = cut(text, b' ');
        match add_flag(alloc, word, flags, &mut known, &mut keywords) {
            Ok(more) => flags = more,
            Err(end) => return Err(end),
        }
        let Some(rest) = behind else {
            return Ok((flags, keywords));
        };
        text = rest;
    }
}
