//! What the log, the rotated log and the snapshot of a folder hold.

ghost use Rattle.std.specs.Prelude.{◌≡◌, IfOk, IfSome, Some};
ghost use Rattle.dv_model.specs.Mailboxes.{IsValid};
ghost use Rattle.dv_shelf.specs.Causes.{HasCauseOf};
ghost use Rattle.dv_logfile.specs.Layout.{IsHeader};
ghost use Rattle.dv_openings.specs.Openings.{IsIndex};
ghost use Rattle.dv_openings.specs.Rebuilds.{IsHeaderIn};
ghost use Rattle.dv_chain.specs.Files.{HasHeader, snapshot_in};
ghost use Rattle.dv_chain.specs.Openings.{OnlyLooks};
ghost use Rattle.dv_rebuild.specs.Reading.{AreTexts, IsCut, IsFrontOf, IsWholeIn};

use dv_chain::{File, Index, closed, measure, read_index};
use dv_logfile::{LogHeader, read_header};
use dv_model::{Bytes, List, OpenFault};
use dv_shelf::{Name, Shelf, ShelfFault};
use std::alloc::Global;

/// The names of a folder's files, and what stands in its log, its rotated log and its snapshot.
#[derive(Drop)]
pub struct Texts {
    pub names: List<Name>,
    pub log: Option<Bytes>,
    pub rotated: Option<Bytes>,
    pub index: Option<Bytes>,
}

/// Lists the folder and reads these files, one after another.
pub fn read_texts<S: Shelf>(alloc: Global, shelf: &mut S) -> Result<Texts, ShelfFault>
    ensures read { S.sees.tells → IfOk result (AreTexts (S.sees.files shelf.old)) }
    ensures looks { S.sees.tells →
        OnlyLooks S.sees shelf.old shelf.new }
    ensures cause { HasCauseOf ShelfFault.Failed
        (S.sees.fault_count shelf.old) (S.sees.fault_count shelf.new) result }
{
    let names = shelf.list(alloc)?;
    let log = shelf.read(alloc, Name::Log)?;
    let rotated = shelf.read(alloc, Name::Log2)?;
    let index = shelf.read(alloc, Name::Index)?;
    Ok(Texts {
        names,
        log,
        rotated,
        index,
    })
}

/// The bytes of a log with this header, cut in front of the first record with a fault, where one
/// has a fault.
fn cut(alloc: Global, bytes: Bytes, header: &LogHeader) -> Result<Bytes, OpenFault>
    requires { IsHeader header.now bytes }
    ensures { IfOk result (IsCut header.now bytes) }
{
    match measure(bytes.as_slice(), usize::from(header.hdr_size)) {
        Err(OpenFault::BadRecord { offset }) => closed(alloc, bytes.as_slice(), offset as usize),
        _ => Ok(bytes),
    }
}

/// The log of these bytes, up to the first record with a fault; None where its header isn't taken.
fn front(alloc: Global, bytes: Bytes) -> Result<Option<File>, OpenFault>
    ensures front { IfOk result (IsFrontOf (Some bytes)) }
    ensures header { IfOk result (λ log. IfSome log HasHeader) }
{
    match read_header(bytes.as_slice()) {
        Some(header) => Ok(Some(File::read(cut(alloc, bytes, &header)?)?)),
        None => Ok(None),
    }
}

/// The log, where there is one and its header is taken.
pub fn front_in(alloc: Global, bytes: Option<Bytes>) -> Result<Option<File>, OpenFault>
    ensures front { IfOk result (IsFrontOf bytes) }
    ensures header { IfOk result (λ log. IfSome log HasHeader) }
{
    match bytes {
        Some(bytes) => front(alloc, bytes),
        None => Ok(None),
    }
}

/// The rotated log, where there is one and it has no fault.
pub fn rotated_in(bytes: Option<Bytes>) -> Result<Option<File>, OpenFault>
    ensures whole { IfOk result (IsWholeIn bytes) }
    ensures header { IfOk result (λ rotated. IfSome rotated HasHeader) }
{
    match bytes {
        Some(bytes) => match File::read(bytes) {
            Ok(file) => Ok(Some(file)),
            Err(e) => match e {
                OpenFault::NoMemory => Err(e),
                _ => Ok(None),
            },
        },
        None => Ok(None),
    }
}

/// The header of a log, where it is taken.
pub fn header_in(bytes: &Option<Bytes>) -> Option<LogHeader>
    ensures { IsHeaderIn bytes.now result }
{
    match bytes {
        Some(bytes) => read_header(bytes.as_slice()),
        None => None,
    }
}

/// The snapshot, where there is one.
pub fn index_in(alloc: Global, bytes: &Option<Bytes>) -> Result<Option<Index>, OpenFault>
    ensures found { IfOk result (λ index. IsIndex bytes.now (snapshot_in index)) }
    ensures valid { IfOk result (λ index. IfSome index (λ i. IsValid i.mailbox)) }
{
    match bytes {
        Some(bytes) => read_index(alloc, bytes.as_slice()),
        None => Ok(None),
    }
}
