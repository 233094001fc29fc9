ghost use Rattle.std.specs.Prelude.{◌≡◌, ◌++◌, ◌∷◌, [], true, false, flat_map, IfOk, OnErr, OnOk};
ghost use Rattle.dv_model.specs.Texts.{value_text, flag_words, flag_when, literal};
ghost use Rattle.dv_model.specs.declared.types.Value.TheVariants.{Body, Flags, Field};
ghost use Rattle.dv_script.specs.Extending.{Extends};
ghost use Rattle.dv_script.specs.Spaced.{AddsWords};

use crate::pieces::{put, put_around, put_before};
use dv_model::{Bytes, List, NoMemory, Value};

// Each value behind a space.
pub(crate) fn put_values(text: &mut Bytes, values: &[Value]) -> Result<(), NoMemory>
    ensures ok { OnOk result (text.new ≡ text.old ++ flat_map (λ v. 32 ∷ value_text v) values.now) }
    ensures err { OnErr result (Extends text.old text.new) }
{
    for value in values {
        put_value(text, value)?;
    }
    Ok(())
}

/// Adds a value of a FETCH, behind a space. `NoMemory` is the only error.
pub fn put_value(text: &mut Bytes, value: &Value) -> Result<(), NoMemory>
    ensures ok { OnOk result (text.new ≡ text.old ++ 32 ∷ value_text value.now) }
    ensures err { OnErr result (Extends text.old text.new) }
{
    match value {
        Value::Flags(flags, keywords) => put_flags(text, *flags, keywords),
        Value::Size(n) => put_before(text, b" RFC822.SIZE ", *n),
        Value::Body(bytes) => put_body(text, bytes),
        Value::Field(name, found) => put_field(text, name, found),
        Value::Modseq(n) => put_around(text, b" MODSEQ (", *n, b")"),
    }
}

/// Adds a message's bytes as the value of a FETCH, behind a space. `NoMemory` is the only error.
pub fn put_body(text: &mut Bytes, bytes: &Bytes) -> Result<(), NoMemory>
    ensures ok { OnOk result (text.new ≡ text.old ++ 32 ∷ value_text (Body bytes.now)) }
    ensures err { OnErr result (Extends text.old text.new) }
{
    put(text, b" BODY[] ")?;
    put_literal(text, bytes)
}

/// Adds a field's name and its value, or that there is none, as the value of a FETCH, behind a
/// space. `NoMemory` is the only error.
pub fn put_field(text: &mut Bytes, name: &Bytes, found: &Option<Bytes>) -> Result<(), NoMemory>
    ensures ok { OnOk result (text.new ≡ text.old ++ 32 ∷ value_text (Field name.now found.now)) }
    ensures err { OnErr result (Extends text.old text.new) }
{
    put(text, b" FIELD ")?;
    put(text, name.as_slice())?;
    match found {
        None => put(text, b" NIL"),
        Some(bytes) => {
            put(text, b" ")?;
            put_literal(text, bytes)
        }
    }
}

// Bytes behind their number.
fn put_literal(text: &mut Bytes, bytes: &Bytes) -> Result<(), NoMemory>
    ensures ok { OnOk result (text.new ≡ text.old ++ literal bytes.now) }
    ensures err { OnErr result (Extends text.old text.new) }
{
    put_around(text, b"{", bytes.len() as u64, b"}\n")?;
    put(text, bytes.as_slice())
}

fn put_flags(text: &mut Bytes, flags: u8, keywords: &List<Bytes>) -> Result<(), NoMemory>
    ensures ok { OnOk result (text.new ≡ text.old ++ 32 ∷ value_text (Flags flags keywords.now)) }
    ensures err { OnErr result (Extends text.old text.new) }
{
    put(text, b" FLAGS (")?;
    let first = put_system_flags(text, flags)?;
    put_keywords(text, first, keywords)?;
    put(text, b")")
}

// Whether the next word is still the first one.
fn put_system_flags(text: &mut Bytes, flags: u8) -> Result<bool, NoMemory>
    ensures ok { IfOk result (λ next. AddsWords true (flag_words flags) text.old text.new next) }
    ensures err { OnErr result (Extends text.old text.new) }
{
    let first = put_flag(text, true, flags, 1, b"\\Answered")?;
    let first = put_flag(text, first, flags, 2, b"\\Flagged")?;
    let first = put_flag(text, first, flags, 4, b"\\Deleted")?;
    let first = put_flag(text, first, flags, 8, b"\\Seen")?;
    put_flag(text, first, flags, 16, b"\\Draft")
}

#[tactic(auto, unfolding(crate::specs::Spaced::spaced_from, crate::specs::Spaced::none_of))]
// Whether the next word is still the first one.
fn put_flag(
    text: &mut Bytes,
    first: bool,
    flags: u8,
    bit: u8,
    name: &[u8],
) -> Result<bool, NoMemory>
    ensures ok { IfOk result
        (λ next. AddsWords first (flag_when flags bit name.now) text.old text.new next) }
    ensures err { OnErr result (Extends text.old text.new) }
{
    if flags & bit == 0 {
        return Ok(first);
    }
    put_word(text, first, name)?;
    Ok(false)
}

// Whether the next word is still the first one.
fn put_keywords(text: &mut Bytes, first: bool, keywords: &List<Bytes>) -> Result<bool, NoMemory>
    ensures ok { IfOk result (λ next. AddsWords first keywords.now text.old text.new next) }
    ensures err { OnErr result (Extends text.old text.new) }
{
    let mut next = first;
    for keyword in keywords.as_slice() {
        put_word(text, next, keyword.as_slice())?;
        next = false;
    }
    Ok(next)
}

#[tactic(auto, unfolding(crate::specs::Spaced::spaced_from, crate::specs::Spaced::none_of))]
// A word, behind a space unless it is the first one.
fn put_word(text: &mut Bytes, first: bool, word: &[u8]) -> Result<(), NoMemory>
    ensures ok { OnOk result (AddsWords first (word.now ∷ []) text.old text.new false) }
    ensures err { OnErr result (Extends text.old text.new) }
{
    if !first {
        put(text, b" ")?;
    }
    put(text, word)
}
