//! The answers to lines.

ghost use Rattle.std.specs.Prelude.{◌≡◌, ◌++◌, OnErr, OnOk};
ghost use Rattle.dv_maildrop.specs.declared.types.Asked.TheVariants.{Nothing};
ghost use Rattle.dv_maildrop.specs.declared.types.Found.TheVariants.{Held};
ghost use Rattle.dv_maildrop.specs.declared.types.PopLine.TheVariants as pop_line;
ghost use Rattle.dv_maildrop.specs.Answers.{Store, answer, found_answer, greeting, own_answer, removal_answer};
ghost use Rattle.dv_script.specs.Extending.{Extends};
ghost use Rattle.dv_maildrop.specs.Maildrops.{asked, behind};

use crate::Maildrop;
use crate::listing::Listing;
use crate::message::put_message;
use crate::pieces::{put_last_line, put_numbered_refusal, put_ok, put_ok_number, put_refusal};
use crate::types::{Found, Listed, PopLine, Removal};
use dv_model::{Bytes, NoMemory};

/// Adds what a session begins with (RFC 1939, section 4). `NoMemory` is the only error.
pub fn put_greeting(text: &mut Bytes) -> Result<(), NoMemory>
    ensures ok { OnOk result (text.new ≡ text.old ++ greeting) }
    ensures err { OnErr result (Extends text.old text.new) }
{
    put_ok(text)
}

/// Adds the answer to RETR of a message whose bytes are there. They are copied once. `NoMemory` is
/// the only error; some of the answer may have been added then.
pub fn put_held(text: &mut Bytes, row: Listed, message: &[u8]) -> Result<(), NoMemory>
    ensures ok { OnOk result (text.new ≡ text.old ++ found_answer row (Held message.now)) }
    ensures err { OnErr result (Extends text.old text.new) }
{
    put_ok_number(text, row.size)?;
    put_message(text, message)?;
    put_last_line(text)
}

/// Adds the answer to RETR of a message, by what the store says of it. `NoMemory` is the only
/// error; some of the answer may have been added then.
pub fn put_found(text: &mut Bytes, row: Listed, found: &Found) -> Result<(), NoMemory>
    ensures ok { OnOk result (text.new ≡ text.old ++ found_answer row found.now) }
    ensures err { OnErr result (Extends text.old text.new) }
{
    match found {
        Found::Held(message) => put_held(text, row, message.as_slice()),
        Found::Gone => put_refusal(text, b"GONE"),
        Found::Damaged => put_refusal(text, b"DAMAGED"),
        Found::Disk(n) => put_numbered_refusal(text, b"DISK ", *n),
    }
}

fn put_removal(text: &mut Bytes, removal: Removal) -> Result<(), NoMemory>
    ensures ok { OnOk result (text.new ≡ text.old ++ removal_answer removal) }
    ensures err { OnErr result (Extends text.old text.new) }
{
    match removal {
        Removal::Done => put_ok(text),
        Removal::Disk(n) => put_numbered_refusal(text, b"DISK ", n),
        Removal::TooLong(n) => put_numbered_refusal(text, b"BYTES ", n),
    }
}

impl Maildrop {
    // Adds the answer to a line of which the store isn't asked.
    fn answer_own(&mut self, line: PopLine, text: &mut Bytes) -> Result<(), NoMemory>
        ensures text { OnOk result (text.new ≡ text.old ++ own_answer self.old line) }
        ensures behind { OnOk result (self.new ≡ behind self.old line) }
        ensures same { OnErr result (self.new ≡ self.old) }
        ensures err { OnErr result (Extends text.old text.new) }
    {
        match line {
            PopLine::Stat => self.put_stat(text),
            PopLine::List(number) => self.put_listing(Listing::Sizes, number, text),
            PopLine::Uidl(number) => {
                self.put_listing(Listing::Ids(self.uid_validity()), number, text)
            }
            PopLine::Retr(_) => put_refusal(text, b"NONE"),
            PopLine::Dele(number) => self.delete(number, text),
            PopLine::Noop => put_ok(text),
            PopLine::Rset => {
                put_ok(text)?;
                self.reset();
                Ok(())
            }
            PopLine::Quit => {
                put_ok(text)?;
                self.end();
                Ok(())
            }
            PopLine::Bad => put_refusal(text, b"LINE"),
        }
    }

    /// Answers a line of which the store isn't asked, at the end of a text. After `NoMemory`, which
    /// is the only error, the maildrop is as before, and some of the answer may have been added.
    /// LIST and UIDL of all messages take time in proportion to them, RSET to the marks.
    pub fn answer(&mut self, line: &PopLine, text: &mut Bytes) -> Result<(), NoMemory>
        requires { asked self.old line.now ≡ Nothing }
        ensures text { OnOk result ((store : Store) →
            text.new ≡ text.old ++ answer store self.old line.now) }
        ensures behind { OnOk result (self.new ≡ behind self.old line.now) }
        ensures same { OnErr result (self.new ≡ self.old) }
        ensures err { OnErr result (Extends text.old text.new) }
    {
        self.answer_own(*line, text)
    }

    /// Answers QUIT by what the store says of the removal, at the end of a text; the session has
    /// ended then. After `NoMemory`, which is the only error, the maildrop is as before, and some
    /// of the answer may have been added.
    pub fn quit(&mut self, removal: Removal, text: &mut Bytes) -> Result<(), NoMemory>
        ensures text { OnOk result (text.new ≡ text.old ++ removal_answer removal) }
        ensures behind { OnOk result (self.new ≡ behind self.old pop_line.Quit) }
        ensures same { OnErr result (self.new ≡ self.old) }
        ensures err { OnErr result (Extends text.old text.new) }
    {
        put_removal(text, removal)?;
        self.end();
        Ok(())
    }
}
