ghost use Rattle.std.specs.Prelude.{◌≡◌, ◌∷◌, [], length, Some, None};
ghost use Rattle.dv_commands.specs.Reads.{Gives};
ghost use Rattle.dv_replies.specs.Reading.{behind_else, body_at, each_behind, field_value_at, flag_list_at, literal_at, modseq_at, size_at, value_at};

use crate::lists::read_flags;
use crate::numbers::read_wide;
use dv_commands::{behind, expect, is_field_name, split_word};
use dv_model::{Bytes, List, Value};
use dv_sets::ParseEnd;
use std::alloc::Global;

// Flags and keywords up to the closing parenthesis.
#[tactic(auto, unfolding(crate::specs::Reading::flag_list_at))]
fn read_flag_list(alloc: Global, b: &[u8]) -> Result<(Value, &[u8]), ParseEnd>
    ensures { Gives (λ x. (x.0, x.1.now)) result (flag_list_at b.now) }
{
    if let Some(rest) = behind(b, b")") {
        return Ok((Value::Flags(0, List::new(alloc)), rest));
    }
    let ((flags, keywords), rest) = read_flags(alloc, b)?;
    let rest = expect(rest, b")")?;
    Ok((Value::Flags(flags, keywords), rest))
}

// Bytes behind their number and a line feed.
#[tactic(auto, unfolding(crate::specs::Reading::literal_at))]
fn read_literal(alloc: Global, b: &[u8]) -> Result<(Bytes, &[u8]), ParseEnd>
    ensures { Gives (λ x. (x.0, x.1.now)) result (literal_at b.now) }
{
    let digits = expect(b, b"{")?;
    let (size, rest) = read_wide(digits)?;
    let rest = expect(rest, b"}\n")?;
    if (rest.len() as u64) < size {
        return Err(ParseEnd::Bad);
    }
    let (bytes, end) = rest.split_at(size as usize);
    Ok((List::from_slice(alloc, bytes)?, end))
}

// A field's name, and its value where the message has the field.
#[tactic(auto, unfolding(crate::specs::Reading::field_value_at))]
fn read_field(alloc: Global, b: &[u8]) -> Result<(Value, &[u8]), ParseEnd>
    ensures { Gives (λ x. (x.0, x.1.now)) result (field_value_at b.now) }
{
    let (name, rest) = split_word(b);
    if !is_field_name(name) {
        return Err(ParseEnd::Bad);
    }
    let name = List::from_slice(alloc, name)?;
    if let Some(end) = behind(rest, b" NIL") {
        return Ok((Value::Field(name, None), end));
    }
    let rest = expect(rest, b" ")?;
    let (bytes, end) = read_literal(alloc, rest)?;
    Ok((Value::Field(name, Some(bytes)), end))
}

#[tactic(auto, unfolding(crate::specs::Reading::size_at))]
fn read_size(b: &[u8]) -> Result<(Value, &[u8]), ParseEnd>
    ensures { Gives (λ x. (x.0, x.1.now)) result (size_at b.now) }
{
    let (n, rest) = read_wide(b)?;
    Ok((Value::Size(n), rest))
}

#[tactic(auto, unfolding(crate::specs::Reading::body_at))]
fn read_body(alloc: Global, b: &[u8]) -> Result<(Value, &[u8]), ParseEnd>
    ensures { Gives (λ x. (x.0, x.1.now)) result (body_at b.now) }
{
    let (bytes, rest) = read_literal(alloc, b)?;
    Ok((Value::Body(bytes), rest))
}

#[tactic(auto, unfolding(crate::specs::Reading::modseq_at))]
fn read_modseq(b: &[u8]) -> Result<(Value, &[u8]), ParseEnd>
    ensures { Gives (λ x. (x.0, x.1.now)) result (modseq_at b.now) }
{
    let (n, rest) = read_wide(b)?;
    let rest = expect(rest, b")")?;
    Ok((Value::Modseq(n), rest))
}

// A value of a FETCH with its name.
#[tactic(auto, unfolding(crate::specs::Reading::value_at))]
fn read_value(alloc: Global, b: &[u8]) -> Result<(Value, &[u8]), ParseEnd>
    ensures { Gives (λ x. (x.0, x.1.now)) result (value_at b.now) }
{
    if let Some(rest) = behind(b, b"FLAGS (") {
        return read_flag_list(alloc, rest);
    }
    if let Some(rest) = behind(b, b"RFC822.SIZE ") {
        return read_size(rest);
    }
    if let Some(rest) = behind(b, b"BODY[] ") {
        return read_body(alloc, rest);
    }
    if let Some(rest) = behind(b, b"FIELD ") {
        return read_field(alloc, rest);
    }
    if let Some(rest) = behind(b, b"MODSEQ (") {
        return read_modseq(rest);
    }
    Err(ParseEnd::Bad)
}

/// Values with a space before each, and what stands behind them.
pub(crate) fn read_values(alloc: Global, b: &[u8]) -> Result<(List<Value>, &[u8]), ParseEnd>
    ensures { Gives (λ x. (x.0, x.1.now)) result
        (each_behind (32 ∷ []) value_at (length b.now) [] b.now) }
{
    let mut values = List::new(alloc);
    let mut rest = b;
    for _ in 0..b.len() {
        let Some(next) = behind(rest, b" ") else {
            return Ok((values, rest));
        };
        let (value, end) = read_value(alloc, next)?;
        values.push(value)?;
        rest = end;
    }
    Err(ParseEnd::Bad)
}
