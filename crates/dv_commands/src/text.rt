ghost use Rattle.std.specs.Prelude.{◌≡◌, ◌^◌, ◌<◌, ◌≤◌, length, position, MatchOption, Some, None};
ghost use Rattle.std.specs.List.{position_or_len};
ghost use Rattle.dv_formats.specs.Parsing.{after, ahead_of, before, from, is_byte, is_stop, list_at};
ghost use Rattle.dv_commands.specs.Reads.{Gives};

use dv_sets::ParseEnd;

/// What stands behind this text, where it begins the bytes.
pub fn behind<'a>(b: &'a [u8], text: &[u8]) -> Option<&'a [u8]>
    ensures { MatchOption result (after text.now b.now ≡ None)
        (λ rest. after text.now b.now ≡ Some rest.now) }
{
    b.strip_prefix(text)
}

/// The same where the text must stand there.
pub fn expect<'a>(b: &'a [u8], text: &[u8]) -> Result<&'a [u8], ParseEnd>
    ensures { Gives (λ rest. rest.now) result (after text.now b.now) }
{
    match behind(b, text) {
        Some(rest) => Ok(rest),
        None => Err(ParseEnd::Bad),
    }
}

fn is_stop(byte: u8) -> bool
    ensures { result ≡ is_stop byte }
{
    byte == b' ' || byte == b')'
}

fn stop_of(b: &[u8]) -> Option<usize>
    ensures { result ≡ position is_stop b.now }
{
    b.iter().position(|byte| is_stop(*byte))
}

#[tactic(auto, using(crate::proofs::Places::place_or_end, crate::proofs::Places::place_within))]
fn stop_or_end(b: &[u8]) -> usize
    ensures place { result ≡ position_or_len is_stop b.now }
    ensures within { result ≤ length b.now }
{
    stop_of(b).unwrap_or(b.len())
}

/// The first word, and what stands from its end on: a space, a closing parenthesis or nothing.
pub fn split_word(b: &[u8]) -> (&[u8], &[u8])
    ensures word { result.0.now ≡ before is_stop b.now }
    ensures rest { result.1.now ≡ from is_stop b.now }
{
    b.split_at(stop_or_end(b))
}

fn place_of(b: &[u8], byte: u8) -> Option<usize>
    ensures { result ≡ position (is_byte byte) b.now }
{
    b.iter().position(|other| *other == byte)
}

#[tactic(auto, using(crate::proofs::Places::place_or_end, crate::proofs::Places::place_within))]
fn place_or_end(b: &[u8], byte: u8) -> usize
    ensures place { result ≡ position_or_len (is_byte byte) b.now }
    ensures within { result ≤ length b.now }
{
    place_of(b, byte).unwrap_or(b.len())
}

/// What stands before the first such byte, and what stands from it on.
pub fn split_at_byte(b: &[u8], byte: u8) -> (&[u8], &[u8])
    ensures front { result.0.now ≡ before (is_byte byte) b.now }
    ensures rest { result.1.now ≡ from (is_byte byte) b.now }
{
    b.split_at(place_or_end(b, byte))
}

/// What stands before this text, which is to end the bytes.
pub fn ahead_of<'a>(b: &'a [u8], text: &[u8]) -> Result<&'a [u8], ParseEnd>
    ensures { Gives (λ front. front.now) result (ahead_of text.now b.now) }
{
    match b.strip_suffix(text) {
        Some(front) => Ok(front),
        None => Err(ParseEnd::Bad),
    }
}

/// A list up to its closing parenthesis, and what stands behind that.
pub fn split_list(b: &[u8]) -> Result<(&[u8], &[u8]), ParseEnd>
    ensures { Gives (λ x. (x.0.now, x.1.now)) result (list_at b.now) }
{
    let Some(at) = place_of(b, b')') else {
        return Err(ParseEnd::Bad);
    };
    Ok(b.split_at(at + 1))
}
