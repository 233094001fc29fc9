//! What is listed of messages.

ghost use Rattle.std.specs.Prelude.{◌≡◌, ◌++◌, ◌<◌, codes, length, not, OnErr, OnOk};
ghost use Rattle.dv_maildrop.specs.Answers.{column_text, ok, row_text, rows_text};
ghost use Rattle.dv_maildrop.specs.Counts.{chosen};
ghost use Rattle.dv_script.specs.Extending.{Extends};
ghost use Rattle.dv_maildrop.specs.Messages.{crlf};

use crate::pieces::{put, put_crlf, put_number};
use crate::types::Listed;
use dv_model::{Bytes, NoMemory};

/// What a listing tells of each message.
#[derive(Clone, Copy)]
pub(crate) enum Listing {
    Sizes,
    /// Unique identifiers under this UIDVALIDITY.
    Ids(u32),
}

fn put_column(text: &mut Bytes, listing: Listing, row: Listed) -> Result<(), NoMemory>
    ensures ok { OnOk result (text.new ≡ text.old ++ column_text listing row) }
    ensures err { OnErr result (Extends text.old text.new) }
{
    match listing {
        Listing::Sizes => put_number(text, row.size),
        Listing::Ids(validity) => {
            put_number(text, u64::from(validity))?;
            put(text, b".")?;
            put_number(text, u64::from(row.uid))
        }
    }
}

fn put_row(text: &mut Bytes, listing: Listing, number: u64, row: Listed) -> Result<(), NoMemory>
    ensures ok { OnOk result (text.new ≡ text.old ++ (row_text listing (number, row) ++ crlf)) }
    ensures err { OnErr result (Extends text.old text.new) }
{
    put_number(text, number)?;
    put(text, b" ")?;
    put_column(text, listing, row)?;
    put_crlf(text)
}

/// The answer of one message.
pub(crate) fn put_one(
    text: &mut Bytes,
    listing: Listing,
    number: u32,
    row: Listed,
) -> Result<(), NoMemory>
    ensures ok { OnOk result
        (text.new ≡ text.old ++ ok (codes " " ++ row_text listing (number, row))) }
    ensures err { OnErr result (Extends text.old text.new) }
{
    put(text, b"+OK ")?;
    put_row(text, listing, u64::from(number), row)
}

/// A line of each message whose flag isn't set.
pub(crate) fn put_rows(
    text: &mut Bytes,
    listing: Listing,
    rows: &[Listed],
    flags: &[bool],
) -> Result<(), NoMemory>
    requires { length flags.now ≡ length rows.now }
    ensures ok { OnOk result
        (text.new ≡ text.old ++ rows_text listing (chosen not 1 rows.now flags.now)) }
    ensures err { OnErr result (Extends text.old text.new) }
{
    for place in 0..rows.len() {
        if !flags[place] {
            put_row(text, listing, place as u64 + 1, rows[place])?;
        }
    }
    Ok(())
}
