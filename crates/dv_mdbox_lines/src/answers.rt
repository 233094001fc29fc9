//! What a call is answered, as text.

ghost use Rattle.std.specs.Prelude.{◌++◌, OnOk, decimal};
ghost use Rattle.dv_shelf.specs.Causes.{HasCause};
ghost use Rattle.dv_shelf.specs.Streams.{Appends, AppendsFront};
ghost use Rattle.dv_mdbox_lines.specs.Texts as texts;
ghost use Rattle.dv_mdbox_lines.specs.declared.answers.Answer.TheVariants as answer;

use dv_model::Bytes;
use dv_shelf::{Failed, Sink};
use itoa::Buffer;

/// What a call on a storage is answered.
#[derive(Drop)]
pub enum Answer {
    /// A message was saved under this id, or its count was changed.
    Done(u32),
    /// The bytes that were saved.
    Held(Bytes),
    /// So many ids went.
    Purged(u32),
    /// The message isn't whole in its file.
    Damaged,
    /// The id isn't there, or has no reference.
    None,
    /// The id has the most references that there can be.
    Full,
    /// No id is left.
    Ids,
    /// No number is left for a new file.
    Files,
    /// The message or the group has so many bytes, which are too many.
    TooLong(u64),
    /// The disk failed, so often until now.
    Disk(u64),
}

/// Writes three texts.
fn write_parts<O: Sink>(
    out: &mut O,
    before: &[u8],
    digits: &[u8],
    behind: &[u8],
) -> Result<(), Failed>
    ensures ok { O.sees.tells → OnOk result (Appends (O.sees.taken out.old) (O.sees.taken out.new)
        (before.now ++ digits.now ++ behind.now)) }
    ensures err { O.sees.tells → AppendsFront (O.sees.taken out.old) (O.sees.taken out.new)
        (before.now ++ digits.now ++ behind.now) }
    ensures cause { HasCause (O.sees.fault_count out.old) (O.sees.fault_count out.new) result }
{
    out.write_all(before)?;
    out.write_all(digits)?;
    out.write_all(behind)
}

/// Writes a text, a number and another text.
fn write_number<O: Sink>(
    out: &mut O,
    before: &[u8],
    number: u64,
    behind: &[u8],
) -> Result<(), Failed>
    ensures ok { O.sees.tells → OnOk result (Appends (O.sees.taken out.old) (O.sees.taken out.new)
        (before.now ++ decimal number ++ behind.now)) }
    ensures err { O.sees.tells → AppendsFront (O.sees.taken out.old) (O.sees.taken out.new)
        (before.now ++ decimal number ++ behind.now) }
    ensures cause { HasCause (O.sees.fault_count out.old) (O.sees.fault_count out.new) result }
{
    let mut buffer = Buffer::new();
    write_parts(out, before, buffer.format(number).as_bytes(), behind)
}

/// Writes the bytes of a message behind their number.
fn write_message<O: Sink>(out: &mut O, message: &[u8]) -> Result<(), Failed>
    ensures ok { O.sees.tells → OnOk result (Appends (O.sees.taken out.old) (O.sees.taken out.new)
        (texts.answer_text (answer.Held message.now))) }
    ensures err { O.sees.tells → AppendsFront (O.sees.taken out.old) (O.sees.taken out.new)
        (texts.answer_text (answer.Held message.now)) }
    ensures cause { HasCause (O.sees.fault_count out.old) (O.sees.fault_count out.new) result }
{
    write_number(out, b"OK {", message.len() as u64, b"}\n")?;
    out.write_all(message)?;
    out.write_all(b"\n")
}

impl Answer {
    /// Writes the line of the answer; that of a message has its bytes behind it, and a line feed.
    /// A failed output has taken a front of it. Takes no memory.
    pub fn write_to<O: Sink>(&self, out: &mut O) -> Result<(), Failed>
        ensures ok { O.sees.tells → OnOk result (Appends (O.sees.taken out.old)
            (O.sees.taken out.new) (texts.answer_text self.now)) }
        ensures err { O.sees.tells → AppendsFront (O.sees.taken out.old) (O.sees.taken out.new)
            (texts.answer_text self.now) }
        ensures cause { HasCause (O.sees.fault_count out.old) (O.sees.fault_count out.new) result }
    {
        match self {
            Answer::Done(id) => write_number(out, b"OK ", u64::from(*id), b"\n"),
            Answer::Held(message) => write_message(out, message.as_slice()),
            Answer::Purged(n) => write_number(out, b"OK PURGED ", u64::from(*n), b"\n"),
            Answer::Damaged => out.write_all(b"NO DAMAGED\n"),
            Answer::None => out.write_all(b"NO NONE\n"),
            Answer::Full => out.write_all(b"NO FULL\n"),
            Answer::Ids => out.write_all(b"NO IDS\n"),
            Answer::Files => out.write_all(b"NO FILES\n"),
            Answer::TooLong(bytes) => write_number(out, b"NO BYTES ", *bytes, b"\n"),
            Answer::Disk(faults) => write_number(out, b"NO DISK ", *faults, b"\n"),
        }
    }
}
