ghost use Rattle.std.specs.Prelude.{◌≡◌, ◌^◌, ◌<◌, ◌≤◌, length, position, Some, None};
ghost use Rattle.std.specs.List.{position_or_len};
ghost use Rattle.dv_formats.specs.Parsing.{before, from, number_of};
ghost use Rattle.dv_commands.specs.Reads.{Gives};
ghost use Rattle.dv_replies.specs.Reading.{is_no_digit, mark_at, wide_at, word_at};

use dv_commands::{expect, read_decimal, read_number};
use dv_model::Mark;
use dv_sets::ParseEnd;

fn is_no_digit(byte: u8) -> bool
    ensures { result ≡ is_no_digit byte }
{
    byte < b'0' || b'9' < byte
}

fn end_of_digits(b: &[u8]) -> Option<usize>
    ensures { result ≡ position is_no_digit b.now }
{
    b.iter().position(|byte| is_no_digit(*byte))
}

#[tactic(auto, using(dv_commands::proofs::Places::place_or_end))]
fn digits_or_all(b: &[u8]) -> usize
    ensures place { result ≡ position_or_len is_no_digit b.now }
    ensures within { result ≤ length b.now }
{
    end_of_digits(b).unwrap_or(b.len())
}

// The digits that begin the bytes, and what stands behind them.
fn split_digits(b: &[u8]) -> (&[u8], &[u8])
    ensures digits { result.0.now ≡ before is_no_digit b.now }
    ensures rest { result.1.now ≡ from is_no_digit b.now }
{
    b.split_at(digits_or_all(b))
}

fn read_digits(b: &[u8]) -> Result<u64, ParseEnd>
    ensures { Gives (λ n. n) result (number_of (2 ^ 64) b.now) }
{
    match read_decimal(b) {
        Some(n) => Ok(n),
        None => Err(ParseEnd::Bad),
    }
}

/// The number of 64 bits that begins the bytes, in decimal digits without leading zeros, and what
/// stands behind it.
#[tactic(auto, unfolding(crate::specs::Reading::number_at))]
pub(crate) fn read_wide(b: &[u8]) -> Result<(u64, &[u8]), ParseEnd>
    ensures { Gives (λ x. (x.0, x.1.now)) result (wide_at b.now) }
{
    let (digits, rest) = split_digits(b);
    Ok((read_digits(digits)?, rest))
}

/// The same of a number of 32 bits.
#[tactic(auto, unfolding(crate::specs::Reading::number_at))]
pub(crate) fn read_word(b: &[u8]) -> Result<(u32, &[u8]), ParseEnd>
    ensures { Gives (λ x. (x.0, x.1.now)) result (word_at b.now) }
{
    let (digits, rest) = split_digits(b);
    let n = read_number(digits, 1 << 32)?;
    Ok((n as u32, rest))
}

/// A place of the log.
#[tactic(auto, unfolding(crate::specs::Reading::mark_at))]
pub(crate) fn read_mark(b: &[u8]) -> Result<(Mark, &[u8]), ParseEnd>
    ensures { Gives (λ x. (x.0, x.1.now)) result (mark_at b.now) }
{
    let rest = expect(b, b"MARK ")?;
    let (file_seq, rest) = read_word(rest)?;
    let rest = expect(rest, b":")?;
    let (offset, rest) = read_word(rest)?;
    Ok((Mark { file_seq, offset }, rest))
}
