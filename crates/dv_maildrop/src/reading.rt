//! The command of a line.

ghost use Rattle.std.specs.Prelude.{◌≡◌, ◌<◌, IfSome};
ghost use Rattle.dv_maildrop.specs.declared.types.PopLine.TheVariants.{Bad};
ghost use Rattle.dv_maildrop.specs.declared.types.PopLine.{PopLine as Command};
ghost use Rattle.dv_formats.specs.Parsing.{number_of};
ghost use Rattle.dv_maildrop.specs.Lines.{IsPopLine, line_of, message_number, numbered_line, plain_line};

use crate::types::PopLine;
use dv_commands::{behind, read_decimal};

// A command of its keyword alone.
fn plain_line(b: &[u8]) -> Option<PopLine>
    ensures { result ≡ plain_line b.now }
{
    if b == b"STAT".as_slice() {
        return Some(PopLine::Stat);
    }
    if b == b"LIST".as_slice() {
        return Some(PopLine::List(None));
    }
    if b == b"UIDL".as_slice() {
        return Some(PopLine::Uidl(None));
    }
    if b == b"NOOP".as_slice() {
        return Some(PopLine::Noop);
    }
    if b == b"RSET".as_slice() {
        return Some(PopLine::Rset);
    }
    if b == b"QUIT".as_slice() {
        return Some(PopLine::Quit);
    }
    None
}

// The number of a text of decimal digits without leading zeros, where it is below the limit.
fn number_below(b: &[u8], limit: u64) -> Option<u64>
    ensures number { result ≡ number_of limit b.now }
    ensures below { IfSome result (λ n. n < limit) }
{
    match read_decimal(b) {
        Some(n) if n < limit => Some(n),
        _ => None,
    }
}

fn message_number(b: &[u8]) -> Option<u32>
    ensures { result ≡ message_number b.now }
{
    let n = number_below(b, 1 << 32)?;
    Some(n as u32)
}

// A command with the number of a message.
#[tactic(auto, unfolding(crate::specs::Lines::numbered_line))]
fn numbered_line(b: &[u8]) -> Option<PopLine>
    ensures { result ≡ numbered_line b.now }
{
    if let Some(digits) = behind(b, b"LIST ") {
        return Some(PopLine::List(Some(message_number(digits)?)));
    }
    if let Some(digits) = behind(b, b"UIDL ") {
        return Some(PopLine::Uidl(Some(message_number(digits)?)));
    }
    if let Some(digits) = behind(b, b"RETR ") {
        return Some(PopLine::Retr(message_number(digits)?));
    }
    if let Some(digits) = behind(b, b"DELE ") {
        return Some(PopLine::Dele(message_number(digits)?));
    }
    None
}

/// The command of a line without its end (RFC 1939, sections 3, 5 and 7): a keyword in upper case,
/// with one space and a number from 0 to 4294967295 behind it where it has an argument. Where the
/// line is anything else, `Bad`.
pub fn parse_line(b: &[u8]) -> PopLine
    ensures is { result ≡ line_of b.now }
    // What is read has this text in the grammar, and each text of the grammar is read.
    ensures found { (result ≡ Bad → ⊥) → IsPopLine result b.now }
    ensures only { (line : Command) → IsPopLine line b.now → result ≡ line }
{
    read_line(b)
}

#[tactic(auto, unfolding(crate::specs::Lines::line_of))]
fn read_line(b: &[u8]) -> PopLine
    ensures { result ≡ line_of b.now }
{
    if let Some(line) = plain_line(b) {
        return line;
    }
    numbered_line(b).unwrap_or(PopLine::Bad)
}
