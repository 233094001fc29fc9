//! What is read of a folder's files.

ghost use Rattle.std.specs.Prelude.{◌≡◌, IfErr, IfOk};
ghost use Rattle.dv_shelf.specs.Folders.{counted, mail_reads_of};
ghost use Rattle.dv_chain.specs.Openings.{HasCause, IsOutside, OnlyLooks};

use dv_model::{Bytes, OpenFault};
use dv_shelf::{Name, Shelf, ShelfFault};
use std::alloc::Global;

/// The bytes of a file, or None where there is none.
pub fn look<S: Shelf>(alloc: Global, shelf: &mut S, name: Name) -> Result<Option<Bytes>, OpenFault>
    ensures found { S.sees.tells → IfOk result (λ file. file ≡ S.sees.files shelf.old name) }
    ensures err { IfErr result IsOutside }
    ensures looks { S.sees.tells →
        OnlyLooks S.sees shelf.old shelf.new }
    ensures mail_reads { S.sees.mail_reads shelf.new
        ≡ counted (S.sees.mail_reads shelf.old) (mail_reads_of name) }
    ensures cause { HasCause (S.sees.fault_count shelf.old) (S.sees.fault_count shelf.new) result }
{
    match shelf.read(alloc, name) {
        Ok(file) => Ok(file),
        Err(ShelfFault::Failed) => Err(OpenFault::Disk(shelf.faults())),
        Err(ShelfFault::NoMemory) => Err(OpenFault::NoMemory),
    }
}
