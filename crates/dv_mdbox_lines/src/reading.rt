//! A line is read.

ghost use Rattle.std.specs.Prelude.{◌≡◌, ◌<◌, ◌≤◌, IfOk, IfSome, MatchOption, MatchResult, None, Some, Ok, Err, length, option_map};
ghost use Rattle.std.specs.Str.Lines.{strip_carriage_return};
ghost use Rattle.dv_formats.specs.Parsing.{behind_line_end, first_line, is_skipped};
ghost use Rattle.dv_mdbox_lines.specs.Scripts.{line_at, line_of, message_at};
ghost use Rattle.dv_mdbox_lines.specs.Views.{fault_of, said};

use crate::Call;
use crate::lines::{call_of, size_of};
use dv_commands::{behind, split_at_byte};

/// The most bytes that a line may have before its line end.
const MAX_LINE: usize = 65_536;

/// Why a line has no call.
#[derive(Clone, Copy)]
pub(crate) enum LineFault {
    Bad,
    /// Its literal has fewer bytes than its number says.
    Short,
}

/// A text without the carriage return that ends it.
fn without_carriage_return(text: &[u8]) -> &[u8]
    ensures { result.now ≡ strip_carriage_return text.now }
{
    match text.strip_suffix(b"\r") {
        None => text,
        Some(front) => front,
    }
}

/// The first line without its end, and what stands behind that.
fn first_line(b: &[u8]) -> (&[u8], &[u8])
    ensures text { result.0.now ≡ (first_line b.now).0 }
    ensures rest { result.1.now ≡ (first_line b.now).1 }
    ensures shorter { 0 < length b.now → length result.1.now < length b.now }
{
    let (front, end) = split_at_byte(b, b'\n');
    match behind(end, b"\n") {
        None => (b, &[]),
        Some(rest) => (without_carriage_return(front), rest),
    }
}

/// What stands behind a line end, or behind the script's end.
fn behind_line_end(b: &[u8]) -> Option<&[u8]>
    ensures rest { MatchOption result (behind_line_end b.now ≡ None)
        (λ rest. behind_line_end b.now ≡ Some rest.now) }
    ensures within { IfSome result (λ rest. length rest.now ≤ length b.now) }
{
    if b.is_empty() {
        return Some(b);
    }
    match behind(b, b"\n") {
        Some(rest) => Some(rest),
        None => behind(b, b"\r\n"),
    }
}

/// Whether a line is empty or a comment.
fn is_skipped(text: &[u8]) -> bool
    ensures { result ≡ is_skipped text.now }
{
    match text.first() {
        None => true,
        Some(b) => *b == b'#',
    }
}

/// So many bytes are the message, and then the line ends.
#[tactic(auto, unfolding(crate::specs::Scripts::message_at))]
fn read_message(size: usize, b: &[u8]) -> Result<(Option<Call<'_>>, &[u8]), LineFault>
    ensures line { MatchResult result
        (λ taken. message_at size b.now ≡ Ok (option_map said taken.0, taken.1.now))
        (λ fault. message_at size b.now ≡ Err (fault_of fault)) }
    ensures within { IfOk result (λ taken. length taken.1.now ≤ length b.now) }
{
    if b.len() < size {
        return Err(LineFault::Short);
    }
    let (message, end) = b.split_at(size);
    match behind_line_end(end) {
        Some(next) => Ok((Some(Call::Save(message)), next)),
        None => Err(LineFault::Bad),
    }
}

/// A line without its end, behind which these bytes stand: its call, if it has one, and what stands
/// behind it.
#[tactic(auto, unfolding(crate::specs::Scripts::line_at))]
fn read_text<'a>(text: &[u8], b: &'a [u8]) -> Result<(Option<Call<'a>>, &'a [u8]), LineFault>
    ensures line { MatchResult result
        (λ taken. line_at text.now b.now ≡ Ok (option_map said taken.0, taken.1.now))
        (λ fault. line_at text.now b.now ≡ Err (fault_of fault)) }
    ensures within { IfOk result (λ taken. length taken.1.now ≤ length b.now) }
{
    if text.len() > MAX_LINE {
        return Err(LineFault::Bad);
    }
    if is_skipped(text) {
        return Ok((None, b));
    }
    if let Some(size) = size_of(text) {
        return read_message(size as usize, b);
    }
    match call_of(text) {
        Some(call) => Ok((Some(call), b)),
        None => Err(LineFault::Bad),
    }
}

/// The call of the first line, if it has one, and what stands behind the line.
pub(crate) fn read_line(b: &[u8]) -> Result<(Option<Call<'_>>, &[u8]), LineFault>
    ensures line { MatchResult result
        (λ taken. line_of b.now ≡ Ok (option_map said taken.0, taken.1.now))
        (λ fault. line_of b.now ≡ Err (fault_of fault)) }
    ensures shorter { 0 < length b.now → IfOk result
        (λ taken. length taken.1.now < length b.now) }
{
    let (text, rest) = first_line(b);
    read_text(text, rest)
}
