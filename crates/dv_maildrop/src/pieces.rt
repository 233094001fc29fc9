//! The parts of answers.

ghost use Rattle.std.specs.Prelude.{◌≡◌, ◌++◌, [], codes, decimal, OnErr, OnOk};
ghost use Rattle.dv_maildrop.specs.Answers.{last_line, ok, refused};
ghost use Rattle.dv_script.specs.Extending.{Extends};
ghost use Rattle.dv_maildrop.specs.Messages.{crlf};

use dv_model::{Bytes, NoMemory};
use itoa::Buffer;

pub(crate) fn put(text: &mut Bytes, bytes: &[u8]) -> Result<(), NoMemory>
    ensures ok { OnOk result (text.new ≡ text.old ++ bytes.now) }
    ensures err { OnErr result (Extends text.old text.new) }
{
    text.extend(bytes)?;
    Ok(())
}

pub(crate) fn put_number(text: &mut Bytes, n: u64) -> Result<(), NoMemory>
    ensures ok { OnOk result (text.new ≡ text.old ++ decimal n) }
    ensures err { OnErr result (Extends text.old text.new) }
{
    let mut buffer = Buffer::new();
    put(text, buffer.format(n).as_bytes())
}

pub(crate) fn put_large_number(text: &mut Bytes, n: u128) -> Result<(), NoMemory>
    ensures ok { OnOk result (text.new ≡ text.old ++ decimal n) }
    ensures err { OnErr result (Extends text.old text.new) }
{
    let mut buffer = Buffer::new();
    put(text, buffer.format(n).as_bytes())
}

pub(crate) fn put_ok(text: &mut Bytes) -> Result<(), NoMemory>
    ensures ok { OnOk result (text.new ≡ text.old ++ ok []) }
    ensures err { OnErr result (Extends text.old text.new) }
{
    put(text, b"+OK\r\n")
}

pub(crate) fn put_refusal(text: &mut Bytes, reason: &[u8]) -> Result<(), NoMemory>
    ensures ok { OnOk result (text.new ≡ text.old ++ refused reason.now) }
    ensures err { OnErr result (Extends text.old text.new) }
{
    put(text, b"-ERR ")?;
    put(text, reason)?;
    put(text, b"\r\n")
}

/// A refusal with a number behind its reason.
pub(crate) fn put_numbered_refusal(text: &mut Bytes, reason: &[u8], n: u64) -> Result<(), NoMemory>
    ensures ok { OnOk result (text.new ≡ text.old ++ refused (reason.now ++ decimal n)) }
    ensures err { OnErr result (Extends text.old text.new) }
{
    put(text, b"-ERR ")?;
    put(text, reason)?;
    put_number(text, n)?;
    put(text, b"\r\n")
}

/// A number behind a positive answer's status.
pub(crate) fn put_ok_number(text: &mut Bytes, n: u64) -> Result<(), NoMemory>
    ensures ok { OnOk result (text.new ≡ text.old ++ ok (codes " " ++ decimal n)) }
    ensures err { OnErr result (Extends text.old text.new) }
{
    put(text, b"+OK ")?;
    put_number(text, n)?;
    put(text, b"\r\n")
}

pub(crate) fn put_crlf(text: &mut Bytes) -> Result<(), NoMemory>
    ensures ok { OnOk result (text.new ≡ text.old ++ crlf) }
    ensures err { OnErr result (Extends text.old text.new) }
{
    put(text, b"\r\n")
}

pub(crate) fn put_last_line(text: &mut Bytes) -> Result<(), NoMemory>
    ensures ok { OnOk result (text.new ≡ text.old ++ last_line) }
    ensures err { OnErr result (Extends text.old text.new) }
{
    put(text, b".\r\n")
}
