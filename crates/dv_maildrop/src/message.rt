//! A message as RETR sends it, and the lines of a text.

ghost use Rattle.std.specs.Prelude.{◌≡◌, ◌++◌, ◌∷◌, ◌<◌, ◌==◌, [], length, position, MatchOption, OnErr, OnOk};
ghost use Rattle.std.specs.Str.Lines.{strip_carriage_return};
ghost use Rattle.dv_script.specs.Extending.{Extends};
ghost use Rattle.dv_maildrop.specs.Messages.{crlf, lines_of, message_text, stuffed};

use crate::pieces::{put, put_crlf};
use dv_model::{Bytes, NoMemory};

fn place_of(text: &[u8], byte: u8) -> Option<usize>
    ensures { result ≡ position (λ b. b == byte) text.now }
{
    text.iter().position(|b| *b == byte)
}

fn without_return(line: &[u8]) -> &[u8]
    ensures { result.now ≡ strip_carriage_return line.now }
{
    match line {
        [front @ .., b'\r'] => front,
        _ => line,
    }
}

/// The first line of a text without its end, and what stands behind it. There is none in an empty
/// text.
pub(crate) fn split_line(text: &[u8]) -> Option<(&[u8], &[u8])>
    ensures { MatchOption result (text.now ≡ [])
        (λ x. (lines_of text.now ≡ x.0.now ∷ lines_of x.1.now)
        × (length x.1.now < length text.now)) }
{
    if text.is_empty() {
        return None;
    }
    match place_of(text, b'\n') {
        Some(end) => Some((without_return(&text[..end]), &text[end + 1..])),
        None => Some((text, &text[text.len()..])),
    }
}

// A line with its end, and with a period more where it begins with one.
fn put_line(text: &mut Bytes, line: &[u8]) -> Result<(), NoMemory>
    ensures ok { OnOk result (text.new ≡ text.old ++ (stuffed line.now ++ crlf)) }
    ensures err { OnErr result (Extends text.old text.new) }
{
    if let [b'.', ..] = line {
        put(text, b".")?;
    }
    put(text, line)?;
    put_crlf(text)
}

/// Adds a message as it is sent (RFC 1939, section 3): each line is ended by CRLF, the last one too,
/// and a line that begins with a period gets another before it. The message is gone over once, and
/// its bytes are copied once. `NoMemory` is the only error; some of it may have been added then.
pub fn put_message(text: &mut Bytes, message: &[u8]) -> Result<(), NoMemory>
    ensures ok { OnOk result (text.new ≡ text.old ++ message_text message.now) }
    ensures err { OnErr result (Extends text.old text.new) }
{
    let mut rest = message;
    'lines: while let Some((line, behind)) = split_line(rest) {
        put_line(text, line)?;
        rest = behind;
    }
    Ok(())
}
