ghost use Rattle.std.specs.Prelude.{[], length};
ghost use Rattle.dv_commands.specs.Reads.{Gives};
ghost use Rattle.dv_replies.specs.Reading.{each_behind, flag_behind, flags_at, keyword_behind, word_at};

use crate::numbers::read_word;
use dv_commands::{behind, split_word};
use dv_model::{Bytes, List};
use dv_records::is_name;
use dv_sets::{ParseEnd, flag_bit};
use std::alloc::Global;

/// Adds the numbers of 32 bits that have the separator before them, and gives what stands behind
/// them.
pub(crate) fn add_numbers<'a>(
    numbers: &mut List<u32>,
    separator: &[u8],
    b: &'a [u8],
) -> Result<&'a [u8], ParseEnd>
    ensures { Gives (λ rest. (numbers.new, rest.now)) result
        (each_behind separator.now word_at (length b.now) numbers.old b.now) }
{
    let mut rest = b;
    for _ in 0..b.len() {
        let Some(next) = behind(rest, separator) else {
            return Ok(rest);
        };
        let (n, end) = read_word(next)?;
        numbers.push(n)?;
        rest = end;
    }
    Err(ParseEnd::Bad)
}

// Keywords come behind the others.
fn add_keyword(
    alloc: Global,
    word: &[u8],
    flags: u8,
    keywords: &mut List<Bytes>,
) -> Result<u8, ParseEnd>
    ensures { Gives (λ more. (more, keywords.new)) result
        (keyword_behind (flags, keywords.old) word.now) }
{
    if !is_name(word) {
        return Err(ParseEnd::Bad);
    }
    keywords.push(Bytes::from_slice(alloc, word)?)?;
    Ok(flags)
}

// System flags rise by their bits, and keywords come behind them.
fn add_flag(
    alloc: Global,
    word: &[u8],
    flags: u8,
    keywords: &mut List<Bytes>,
) -> Result<u8, ParseEnd>
    ensures { Gives (λ more. (more, keywords.new)) result
        (flag_behind (flags, keywords.old) word.now) }
{
    if let Some(bit) = flag_bit(word) {
        if bit <= flags || !keywords.is_empty() {
            return Err(ParseEnd::Bad);
        }
        return Ok(flags | bit);
    }
    add_keyword(alloc, word, flags, keywords)
}

/// Flags and keywords with a space between two, and what stands behind them.
pub(crate) fn read_flags(alloc: Global, b: &[u8]) -> Result<((u8, List<Bytes>), &[u8]), ParseEnd>
    ensures { Gives (λ x. (x.0, x.1.now)) result (flags_at (length b.now) (0, []) b.now) }
{
    let mut flags = 0;
    let mut keywords = List::new(alloc);
    let mut rest = b;
    for _ in 0..b.len() {
        let (word, end) = split_word(rest);
        flags = add_flag(alloc, word, flags, &mut keywords)?;
        let Some(next) = behind(end, b" ") else {
            return Ok(((flags, keywords), end));
        };
        rest = next;
    }
    Err(ParseEnd::Bad)
}
