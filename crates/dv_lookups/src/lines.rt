//! The fields of a header, one after another (RFC 5322, section 2.2).

ghost use Rattle.std.specs.Prelude.{◌≡◌, ◌<◌, ◌==◌, [], ◌∷◌, length, position, MatchOption, IfOk};
ghost use Rattle.std.specs.Str.Lines.{lines, strip_carriage_return};
ghost use Rattle.dv_model.specs.Fields.{header_lines, is_continuation, unfolded};

use dv_model::NoMemory;
use std::alloc::Global;

/// The first place of a byte in a text.
pub(crate) fn byte_place(text: &[u8], byte: u8) -> Option<usize>
    ensures { result ≡ position (λ b. b == byte) text.now }
{
    text.iter().position(|b| *b == byte)
}

// A line without the carriage return of its CRLF.
fn without_return(line: &[u8]) -> &[u8]
    ensures { result.now ≡ strip_carriage_return line.now }
{
    match line {
        [front @ .., b'\r'] => front,
        _ => line,
    }
}

// The first line of a text that isn't empty, without its line end, and what follows it.
fn split_line(text: &[u8]) -> (&[u8], &[u8])
    ensures first { 0 < length text.now → lines text.now ≡ result.0.now ∷ lines result.1.now }
    ensures shorter { 0 < length text.now → length result.1.now < length text.now }
    ensures empty { length text.now ≡ 0 → (result.0.now ≡ []) × (result.1.now ≡ []) }
{
    match byte_place(text, b'\n') {
        Some(end) => (without_return(&text[..end]), &text[end + 1..]),
        None => (text, &text[text.len()..]),
    }
}

// Whether the first line goes on with the line before it.
fn continues(text: &[u8]) -> bool
    ensures { result ≡ is_continuation text.now }
{
    matches!(text, [b' ' | b'\t', ..])
}

/// The first field of a header, unfolded, and the lines behind it. There is none where the header
/// ends. `NoMemory` is the only error.
pub(crate) fn split_field(alloc: Global, text: &[u8]) -> Result<Option<(Vec<u8>, &[u8])>, NoMemory>
    ensures { IfOk result (λ found. MatchOption found (header_lines text.now ≡ [])
        (λ x. (unfolded (header_lines text.now) ≡ x.0.items ∷ unfolded (header_lines x.1.now))
        × (length x.1.now < length text.now))) }
{
    let (line, mut rest) = split_line(text);
    if line.is_empty() {
        return Ok(None);
    }
    let mut field = Vec::from_slice(alloc, line)?;
    while continues(rest) {
        let (more, after) = split_line(rest);
        field.extend_from_slice(more)?;
        rest = after;
    }
    Ok(Some((field, rest)))
}
