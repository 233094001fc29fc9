//! The bad line of a script, as it is told.

ghost use Rattle.std.specs.Prelude.{◌≡◌, IfOk, map, take};
ghost use Rattle.dv_notices.specs.Lines.{line_numbered, past_line, printable, told_limit, told_line};

use dv_commands::split_at_byte;
use dv_model::{Bytes, List, NoMemory};
use std::alloc::Global;

/// The most bytes of a line that are told.
const TOLD_LIMIT: usize = 200;

/// A byte as it is told: a printable one itself, and a question mark for any other.
fn printable(byte: u8) -> u8
    ensures { result ≡ printable byte }
{
    if byte >= 32 && byte < 127 { byte } else { b'?' }
}

/// What stands behind the first line and its line feed.
fn past_line(text: &[u8]) -> &[u8]
    ensures { result.now ≡ past_line text.now }
{
    let (_, end) = split_at_byte(text, b'\n');
    match end {
        [_, rest @ ..] => rest,
        [] => end,
    }
}

/// The line of this number, without its line feed.
fn line_numbered(text: &[u8], number: u32) -> &[u8]
    ensures { result.now ≡ line_numbered number text.now }
{
    let mut rest = text;
    for _ in 0..number.saturating_sub(1) {
        rest = past_line(rest);
    }
    let (line, _) = split_at_byte(rest, b'\n');
    line
}

/// The front of a line that is told.
#[tactic(auto, using(std::proofs::lemmas::List::take_min))]
fn told_front(line: &[u8]) -> &[u8]
    ensures { result.now ≡ take told_limit line.now }
{
    let (front, _) = line.split_at(TOLD_LIMIT.min(line.len()));
    front
}

/// The line of this number as it is told.
pub fn told_line(alloc: Global, text: &[u8], number: u32) -> Result<Bytes, NoMemory>
    ensures { IfOk result (λ line. line ≡ told_line number text.now) }
{
    let front = told_front(line_numbered(text, number));
    let mut line = List::new(alloc);
    for byte in front {
        line.push(printable(*byte))?;
    }
    Ok(line)
}
