//! Replaces of files, with what they leave.

ghost use Rattle.std.specs.Prelude.{◌≡◌};
ghost use Rattle.dv_shelf.specs.Causes.{HasCause};
ghost use Rattle.dv_files.specs.Leavings.{IsBeforeLast, IsPut, Leaves, Puts, PutsBoth};

use crate::Turn;
use dv_model::Bytes;
use dv_shelf::{Failed, Name, Shelf};

/// Replaces a file by a text.
pub fn put<S: Shelf>(shelf: &mut S, name: Name, text: &Bytes) -> Result<(), Failed>
    ensures leaves { S.sees.tells → Leaves S.sees
        (Puts name text.now result) (IsPut name text.now) shelf.old shelf.new }
    ensures mail_reads { S.sees.mail_reads shelf.new ≡ S.sees.mail_reads shelf.old }
    ensures cause { HasCause (S.sees.fault_count shelf.old) (S.sees.fault_count shelf.new) result }
{
    shelf.replace(name, text.as_slice())
}

/// Replaces the index by a turn's snapshot, and then the rotated log by its old one.
pub fn put_both<S: Shelf>(shelf: &mut S, turn: &Turn) -> Result<(), Failed>
    ensures leaves { S.sees.tells → Leaves S.sees
        (PutsBoth turn.now result) (IsBeforeLast turn.now) shelf.old shelf.new }
    ensures mail_reads { S.sees.mail_reads shelf.new ≡ S.sees.mail_reads shelf.old }
    ensures cause { HasCause (S.sees.fault_count shelf.old) (S.sees.fault_count shelf.new) result }
{
    put(shelf, Name::Index, &turn.index)?;
    put(shelf, Name::Log2, &turn.old)
}
