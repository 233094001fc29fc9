//! The end of a log, which is closed again where it was cut or stands open.

ghost use Rattle.std.specs.Prelude.{◌≡◌, ◌++◌, ◌||◌, ◌≤◌, Some, length, nat_eq, nat_le, slice_index, take, IfErr, IfOk};
ghost use Rattle.dv_model.specs.declared.types.OpenFault.TheVariants as fault;
ghost use Rattle.dv_shelf.specs.Crashes.{IsSettled, LeavesOnly};
ghost use Rattle.dv_shelf.specs.declared.shelf.Name.TheVariants.{Log};
ghost use Rattle.dv_logfile.specs.Layout.{closing};
ghost use Rattle.dv_chain.specs.Openings.{HasCause, IsMended, LeavesMended, UnlessDisk};

use crate::file::File;
use dv_model::{Bytes, List, OpenFault};
use dv_shelf::{Name, Shelf};
use std::alloc::Global;

/// The first byte of a record's size.
const OPEN_GATE: u8 = 0x80;

/// Whether the file ends at its end, or a record may seem to begin there.
fn is_open(log: &File) -> bool
    ensures { result ≡ (nat_le (length log.now.bytes) log.now.end
        || nat_eq (slice_index log.now.bytes log.now.end) 0x80) }
{
    let end = log.end as usize;
    let bytes = log.bytes.as_slice();
    bytes.len() <= end || bytes[end] == OPEN_GATE
}

/// The bytes up to a place, and four zero bytes.
pub fn closed(alloc: Global, bytes: &[u8], end: usize) -> Result<Bytes, OpenFault>
    requires { end ≤ length bytes.now }
    ensures ok { IfOk result (λ text. text ≡ take end bytes.now ++ closing) }
    ensures err { IfErr result (λ e. e ≡ fault.NoMemory) }
{
    let (front, _) = bytes.split_at(end);
    let mut text = List::from_slice(alloc, front)?;
    text.extend(&[0; 4])?;
    Ok(text)
}

/// Closes the end of the log where it has to be, by one replace.
pub fn mend<S: Shelf>(alloc: Global, shelf: &mut S, log: &File) -> Result<(), OpenFault>
    requires { log.now.end ≤ length log.now.bytes }
    ensures files { S.sees.tells → S.sees.files shelf.old Log ≡ Some log.now.bytes →
        LeavesMended (S.sees.files shelf.old) log.now (S.sees.files shelf.new) result }
    ensures since { S.sees.tells → S.sees.files shelf.old Log ≡ Some log.now.bytes →
        IsSettled S.sees shelf.old →
        LeavesOnly S.sees shelf.old shelf.new
        (IsMended (S.sees.files shelf.old) log.now) }
    ensures settled { S.sees.tells → IsSettled S.sees shelf.old →
        UnlessDisk result (IsSettled S.sees shelf.new) }
    ensures mail_reads { S.sees.mail_reads shelf.new ≡ S.sees.mail_reads shelf.old }
    ensures cause { HasCause (S.sees.fault_count shelf.old) (S.sees.fault_count shelf.new) result }
{
    if !is_open(log) {
        return Ok(());
    }
    let text = closed(alloc, log.bytes.as_slice(), log.end as usize)?;
    match shelf.replace(Name::Log, text.as_slice()) {
        Ok(()) => Ok(()),
        Err(_) => Err(OpenFault::Disk(shelf.faults())),
    }
}
