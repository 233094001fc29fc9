ghost use Rattle.std.specs.Prelude.{◌≡◌, ◌++◌, ◌∷◌, [], ℕ, List, codes, flat_map, IfOk, OnOk};
ghost use Rattle.dv_model.specs.Texts.{flag_when, flag_words, spaced};
ghost use Rattle.dv_formats.specs.Printing.{are_equal, end_text, flags_text, set_text, span_text};

use dv_model::{Bytes, End, List, NoMemory, Span};
use itoa::Buffer;
use std::alloc::Global;

fn put_end(text: &mut Bytes, end: End) -> Result<(), NoMemory>
    ensures { OnOk result (text.new ≡ text.old ++ end_text end) }
{
    match end {
        End::Number(n) => {
            let mut buffer = Buffer::new();
            text.extend(buffer.format(n).as_bytes())?;
        }
        End::Star => text.push(b'*')?,
    }
    Ok(())
}

fn are_equal(from: End, to: End) -> bool
    ensures { result ≡ are_equal from to }
{
    match (from, to) {
        (End::Number(m), End::Number(n)) => m == n,
        (End::Star, End::Star) => true,
        _ => false,
    }
}

fn put_span(text: &mut Bytes, span: Span) -> Result<(), NoMemory>
    ensures { OnOk result (text.new ≡ text.old ++ span_text span) }
{
    put_end(text, span.from)?;
    if !are_equal(span.from, span.to) {
        text.push(b':')?;
        put_end(text, span.to)?;
    }
    Ok(())
}

// Each range behind a comma.
fn put_others(text: &mut Bytes, spans: &[Span]) -> Result<(), NoMemory>
    ensures { OnOk result
        (text.new ≡ text.old ++ flat_map (λ span. 44 ∷ span_text span) spans.now) }
{
    for span in spans {
        text.push(b',')?;
        put_span(text, *span)?;
    }
    Ok(())
}

/// The text of a set: its ranges as they stand, with a comma between two; equal ends are written
/// once (RFC 3501, section 9, `sequence-set`). `NoMemory` is the only error.
pub fn print_set(alloc: Global, s: &List<Span>) -> Result<Bytes, NoMemory>
    ensures { IfOk result (λ text. text ≡ set_text s.now) }
{
    let mut text = Bytes::new(alloc);
    let Some((first, others)) = s.as_slice().split_first() else {
        return Ok(text);
    };
    put_span(&mut text, *first)?;
    put_others(&mut text, others)?;
    Ok(text)
}

// A word with a space behind it.
fn put_word(text: &mut Bytes, word: &[u8]) -> Result<(), NoMemory>
    ensures { OnOk result (text.new ≡ text.old ++ word.now ++ 32 ∷ []) }
{
    text.extend(word)?;
    text.push(b' ')?;
    Ok(())
}

fn put_flag(text: &mut Bytes, flags: u8, bit: u8, name: &[u8]) -> Result<(), NoMemory>
    ensures { OnOk result (text.new
        ≡ text.old ++ flat_map (λ word. word ++ 32 ∷ []) (flag_when flags bit name.now)) }
{
    if flags & bit != 0 {
        put_word(text, name)?;
    }
    Ok(())
}

fn put_system_flags(text: &mut Bytes, flags: u8) -> Result<(), NoMemory>
    ensures { OnOk result
        (text.new ≡ text.old ++ flat_map (λ word. word ++ 32 ∷ []) (flag_words flags)) }
{
    put_flag(text, flags, 1, b"\\Answered")?;
    put_flag(text, flags, 2, b"\\Flagged")?;
    put_flag(text, flags, 4, b"\\Deleted")?;
    put_flag(text, flags, 8, b"\\Seen")?;
    put_flag(text, flags, 16, b"\\Draft")
}

fn put_keywords(text: &mut Bytes, keywords: &[Bytes]) -> Result<(), NoMemory>
    ensures { OnOk result
        (text.new ≡ text.old ++ flat_map (λ word. word ++ 32 ∷ []) keywords.now) }
{
    for keyword in keywords {
        put_word(text, keyword.as_slice())?;
    }
    Ok(())
}

// Closes a list of words, and takes away the space behind the last one.
fn close(text: Bytes) -> Result<Bytes, NoMemory>
    ensures { (words : List (List ℕ)) → text ≡ 40 ∷ flat_map (λ word. word ++ 32 ∷ []) words
        → IfOk result (λ closed. closed ≡ codes "(" ++ spaced words ++ codes ")") }
{
    let len = text.len();
    let mut bytes = text.into_vec();
    if len > 1 {
        bytes.truncate(len - 1);
    }
    bytes.push(b')')?;
    Ok(List::from_vec(bytes))
}

/// The text of a flag list: the system flags in the order of their bits, then the keywords, in
/// parentheses and with a space between two (RFC 3501, section 9, `flag-list`). `NoMemory` is the
/// only error.
pub fn print_flags(alloc: Global, flags: u8, keywords: &List<Bytes>) -> Result<Bytes, NoMemory>
    ensures { IfOk result (λ text. text ≡ flags_text flags keywords.now) }
{
    let mut text = Bytes::new(alloc);
    text.push(b'(')?;
    put_system_flags(&mut text, flags)?;
    put_keywords(&mut text, keywords.as_slice())?;
    close(text)
}
