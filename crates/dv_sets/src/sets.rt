ghost use Rattle.std.specs.Prelude.{◌≡◌, ◌&&◌, ℕ, List, IfOk, IfSome, IfNone, Ok, Err, nat_le, slice_index};
ghost use Rattle.dv_model.specs.declared.types.End.{End};
ghost use Rattle.dv_model.specs.declared.types.End.TheVariants as end;
ghost use Rattle.dv_model.specs.declared.types.Span.{Span};
ghost use Rattle.dv_formats.specs.Scripts.{IsEnd, IsSet, IsSpan};
ghost use Rattle.dv_sets.specs.Answers.{Answers, OnBad};
ghost use Rattle.dv_sets.specs.declared.end.ParseEnd.TheVariants as parse_end;

use crate::cutting::cut;
use crate::end::ParseEnd;
use dv_model::{End, List, Span};
use std::alloc::Global;
use std::str;

fn starts_number(b: &[u8]) -> bool
    ensures { result ≡ (nat_le 49 (slice_index b.now 0) && nat_le (slice_index b.now 0) 57) }
{
    match b.first() {
        None => false,
        Some(first) => b'1' <= *first && *first <= b'9',
    }
}

// A number from 1 to 4294967295, without leading zeros.
fn read_number(b: &[u8]) -> Option<u32>
    ensures some { IfSome result (λ n. IsEnd (end.Number n) b.now) }
    ensures none { IfNone result ((n : ℕ) → IsEnd (end.Number n) b.now → ⊥) }
{
    if !starts_number(b) {
        return None;
    }
    let Ok(text) = str::from_utf8(b) else {
        return None;
    };
    match text.parse() {
        Ok(n) => Some(n),
        Err(_) => None,
    }
}

fn read_end(b: &[u8]) -> Option<End>
    ensures some { IfSome result (λ end. IsEnd end b.now) }
    ensures none { IfNone result ((end : End) → IsEnd end b.now → ⊥) }
{
    if b == b"*".as_slice() {
        return Some(End::Star);
    }
    let n = read_number(b)?;
    Some(End::Number(n))
}

fn read_span(b: &[u8]) -> Option<Span>
    ensures some { IfSome result (λ span. IsSpan span b.now) }
    ensures none { IfNone result ((span : Span) → IsSpan span b.now → ⊥) }
{
    let (front, behind) = cut(b, b':');
    let from = read_end(front)?;
    let Some(rest) = behind else {
        return Some(Span { from, to: from });
    };
    let to = read_end(rest)?;
    Some(Span { from, to })
}

/// The set that a text is (RFC 3501, section 9, `sequence-set`): ranges with a comma between two,
/// each of one or two numbers from 1 or `*`. A range of one number has equal ends.
pub fn parse_set(alloc: Global, b: &[u8]) -> Result<List<Span>, ParseEnd>
    // What is read is what the text says.
    ensures found { IfOk result (λ set. IsSet set b.now) }
    // The set of a text is read.
    ensures only { (set : List Span) → IsSet set b.now → Answers result (Ok set) }
    // A bad text is of no set.
    ensures bad { OnBad result ((set : List Span) → IsSet set b.now → ⊥) }
    // A text of no set is bad.
    ensures every { ((set : List Span) → IsSet set b.now → ⊥)
        → Answers result (Err parse_end.Bad) }
{
    let mut set = List::new(alloc);
    let mut text = b;
    'pieces: loop {
        let (piece, behind) = cut(text, b',');
        let Some(span) = read_span(piece) else {
            return Err(ParseEnd::Bad);
        };
        set.push(span)?;
        let Some(rest) = behind else {
            return Ok(set);
        };
        text = rest;
    }
}
