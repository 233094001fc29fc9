ghost use Rattle.std.specs.Prelude.{◌≡◌, ◌&&◌, ◌^◌, ◌<◌, ℕ, decimal, nat_le, slice_index, IfOk, IfSome, IfNone, Some, None};
ghost use Rattle.std.specs.List.{list_all};
ghost use Rattle.dv_formats.specs.Parsing.{number_of, set_of, flags_of, is_field_name};
ghost use Rattle.dv_formats.specs.Scripts.{is_field_byte, is_quotable};
ghost use Rattle.dv_commands.specs.Reads.{Gives};

use dv_model::{Bytes, List, Span};
use dv_sets::{ParseEnd, parse_flags, parse_set};
use std::alloc::Global;
use std::str;

fn starts_number(b: &[u8]) -> bool
    ensures { result ≡ (nat_le 49 (slice_index b.now 0) && nat_le (slice_index b.now 0) 57) }
{
    match b.first() {
        None => false,
        Some(first) => b'1' <= *first && *first <= b'9',
    }
}

/// The number below 2^64 of a text of decimal digits without leading zeros.
pub fn read_decimal(b: &[u8]) -> Option<u64>
    ensures some { IfSome result (λ n. b.now ≡ decimal n) }
    ensures none { IfNone result ((n : ℕ) → n < 2 ^ 64 → b.now ≡ decimal n → ⊥) }
{
    if b == b"0".as_slice() {
        return Some(0);
    }
    if !starts_number(b) {
        return None;
    }
    let Ok(text) = str::from_utf8(b) else {
        return None;
    };
    match text.parse() {
        Ok(n) => Some(n),
        Err(_) => None,
    }
}

/// The number of a text of decimal digits without leading zeros, where it is below the limit.
pub fn read_number(b: &[u8], limit: u64) -> Result<u64, ParseEnd>
    ensures number { Gives (λ n. n) result (number_of limit b.now) }
    ensures below { IfOk result (λ n. n < limit) }
{
    match read_decimal(b) {
        Some(n) if n < limit => Ok(n),
        _ => Err(ParseEnd::Bad),
    }
}

pub fn read_set(alloc: Global, b: &[u8]) -> Result<List<Span>, ParseEnd>
    ensures { Gives (λ set. set) result (set_of b.now) }
{
    parse_set(alloc, b)
}

pub fn read_flags(alloc: Global, b: &[u8]) -> Result<(u8, List<Bytes>), ParseEnd>
    ensures { Gives (λ x. x) result (flags_of b.now) }
{
    parse_flags(alloc, b)
}

fn is_field_byte(byte: u8) -> bool
    ensures { result ≡ is_field_byte byte }
{
    byte.is_ascii_alphanumeric() || byte == b'-'
}

fn are_field_bytes(name: &[u8]) -> bool
    ensures { result ≡ list_all is_field_byte name.now }
{
    name.iter().all(|byte| is_field_byte(*byte))
}

/// Whether these bytes are a field's name: 1 to 64 letters, digits and hyphens.
#[tactic(auto, unfolding(dv_formats::specs::Parsing::is_field_name))]
pub fn is_field_name(name: &[u8]) -> bool
    ensures { result ≡ is_field_name name.now }
{
    if name.is_empty() || name.len() > 64 {
        return false;
    }
    are_field_bytes(name)
}

fn is_quotable(byte: u8) -> bool
    ensures { result ≡ is_quotable byte }
{
    0x20 <= byte && byte <= 0x7e && byte != b'"' && byte != b'\\'
}

/// Whether these bytes may stand in quotes as they are.
pub fn is_quoted(text: &[u8]) -> bool
    ensures { result ≡ list_all is_quotable text.now }
{
    text.iter().all(|byte| is_quotable(*byte))
}
