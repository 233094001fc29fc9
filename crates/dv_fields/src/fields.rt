ghost use Rattle.std.specs.Prelude.{◌≡◌, false, true, MatchOption, IfOk, IsTrue, ◌↔◌};
ghost use Rattle.std.specs.Str.{str_to_ascii_lowercase};
ghost use Rattle.dv_model.specs.Fields.{field_of, field_value, is_named, without_end_blanks, without_front_blanks};

use crate::lines::{place_of, split_field};
use dv_model::{Bytes, NoMemory};
use std::alloc::Global;

/// A text without the spaces and tabs at its front.
fn trim_front(text: &[u8]) -> &[u8]
    ensures { result.now ≡ without_front_blanks text.now }
{
    let mut text = text;
    while let [b' ' | b'\t', rest @ ..] = text {
        text = rest;
    }
    text
}

/// A text without the spaces and tabs at its end.
fn trim_end(text: &[u8]) -> &[u8]
    ensures { result.now ≡ without_end_blanks text.now }
{
    let mut text = text;
    while let [rest @ .., b' ' | b'\t'] = text {
        text = rest;
    }
    text
}

/// Whether two names are one, whatever the case of ASCII letters.
fn is_same_name(a: &[u8], b: &[u8]) -> bool
    ensures { IsTrue result ↔ (str_to_ascii_lowercase a.now ≡ str_to_ascii_lowercase b.now) }
{
    a.eq_ignore_ascii_case(b)
}

/// The value of an unfolded line that is a field of this name.
fn value_named<'a>(field: &'a [u8], name: &[u8]) -> Option<&'a [u8]>
    ensures { MatchOption result (is_named name.now field.now ≡ false)
        (λ value. (is_named name.now field.now ≡ true) × (value.now ≡ field_value field.now)) }
{
    let Some(colon) = place_of(field, b':') else {
        return None;
    };
    if is_same_name(&field[..colon], name) {
        Some(trim_end(trim_front(&field[colon + 1..])))
    } else {
        None
    }
}

/// The value of the message's first header field of this name, unfolded, and without spaces and
/// tabs at both ends (RFC 5322, section 2.2). The case of ASCII letters of a name doesn't matter.
/// There is none exactly where the header has no such field. `NoMemory` is the only error.
pub fn field_of(alloc: Global, message: &[u8], name: &[u8]) -> Result<Option<Bytes>, NoMemory>
    ensures { IfOk result (λ found. found ≡ field_of message.now name.now) }
{
    let mut rest = message;
    while let Some((field, after)) = split_field(alloc, rest)? {
        if let Some(value) = value_named(&field, name) {
            return Ok(Some(Bytes::from_slice(alloc, value)?));
        }
        rest = after;
    }
    Ok(None)
}
