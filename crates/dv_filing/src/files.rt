//! The texts of messages in the files of a storage.

ghost use Rattle.std.specs.Prelude.{◌≡◌, ◌+◌, ◌^◌, ◌<◌, length};
ghost use Rattle.dv_shelf.specs.Causes.{HasCause};
ghost use Rattle.dv_logfile.specs.Settling.{StaysSettled};
ghost use Rattle.dv_filing.specs.Files.{HasRoom, WritesFiles};
ghost use Rattle.dv_filing.specs.declared.steps.Files.TheVariants as kind;

use crate::Files;
use dv_model::Bytes;
use dv_shelf::{Failed, Name, Shelf};

/// Writes a text at a place of a file, and makes it durable.
fn put_text<S: Shelf>(shelf: &mut S, file: u32, at: u32, text: &Bytes) -> Result<(), Failed>
    requires { at + length text.now < 2 ^ 32 }
    ensures writes { S.sees.tells →
        WritesFiles S.sees (kind.Text file at text.now) result shelf.old shelf.new }
    ensures settled { S.sees.tells → StaysSettled S.sees shelf.old shelf.new }
    ensures mail_reads { S.sees.mail_reads shelf.new ≡ S.sees.mail_reads shelf.old }
    ensures cause { HasCause (S.sees.fault_count shelf.old) (S.sees.fault_count shelf.new) result }
{
    shelf.write_at(Name::Mail(file), at, text.as_slice())?;
    shelf.sync(Name::Mail(file))
}

/// Replaces a file.
fn put_file<S: Shelf>(shelf: &mut S, file: u32, text: &Bytes) -> Result<(), Failed>
    ensures writes { S.sees.tells →
        WritesFiles S.sees (kind.File file text.now) result shelf.old shelf.new }
    ensures settled { S.sees.tells → StaysSettled S.sees shelf.old shelf.new }
    ensures mail_reads { S.sees.mail_reads shelf.new ≡ S.sees.mail_reads shelf.old }
    ensures cause { HasCause (S.sees.fault_count shelf.old) (S.sees.fault_count shelf.new) result }
{
    shelf.replace(Name::Mail(file), text.as_slice())
}

/// Writes the file before a group: a text at its place, and then durable; or a whole file, by one
/// replace. Takes no memory. After `Failed` a text may be torn, and a file is the old one or the
/// new one; every other file is as before.
pub fn write_files<S: Shelf>(shelf: &mut S, files: &Files) -> Result<(), Failed>
    requires { HasRoom files.now }
    // What it leaves, at any moment and behind it.
    ensures writes { S.sees.tells → WritesFiles S.sees files.now result shelf.old shelf.new }
    ensures settled { S.sees.tells → StaysSettled S.sees shelf.old shelf.new }
    // No message file is read; an error has its cause.
    ensures mail_reads { S.sees.mail_reads shelf.new ≡ S.sees.mail_reads shelf.old }
    ensures cause { HasCause (S.sees.fault_count shelf.old) (S.sees.fault_count shelf.new) result }
{
    match files {
        Files::Nothing => Ok(()),
        Files::Text(file, at, text) => put_text(shelf, *file, *at, text),
        Files::File(file, text) => put_file(shelf, *file, text),
    }
}
