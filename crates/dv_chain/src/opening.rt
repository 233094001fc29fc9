ghost use Rattle.std.specs.Prelude.{◌≡◌, Some, IfErr, IfOk, IfSome};
ghost use Rattle.dv_model.specs.declared.types.OpenFault.TheVariants as fault;
ghost use Rattle.dv_model.specs.Mailboxes.{IsValid};
ghost use Rattle.dv_shelf.specs.Crashes.{IsSettled, LeavesOnly};
ghost use Rattle.dv_shelf.specs.Folders.{counted};
ghost use Rattle.dv_shelf.specs.declared.shelf.Name.TheVariants as name;
ghost use Rattle.dv_openings.specs.Openings.{IsFound};
ghost use Rattle.dv_chain.specs.Files.{HasHeader, IsWhole};
ghost use Rattle.dv_chain.specs.Openings.{Answers, AreFilesOf, AreWhole, FaultFound, HasBounds, HasCause, IsChainOf, IsEndOf, IsIndexOf, IsLogOf, IsOutside, IsQuiet, IsRotatedOf, LeavesFolder, OnlyLooks, UnlessDisk, found_of};
ghost use Rattle.dv_chain.specs.Rest.{Nothing, Rests};

use crate::Chain;
use crate::file::File;
use crate::index::{Index, read_index};
use crate::joining::{goes_before, join};
use crate::looking::look;
use crate::mending::mend;
use dv_apply::Live;
use dv_logfile::{Debt, LogFile};
use dv_model::{Bytes, OpenFault};
use dv_shelf::{Name, Shelf};
use std::alloc::Global;

/// What a folder's files hold: the log, and the rotated log and the snapshot where they count.
#[derive(Drop)]
pub struct Files {
    pub log: File,
    pub rotated: Option<File>,
    pub index: Option<Index>,
}

/// The log.
fn read_log<S: Shelf>(alloc: Global, shelf: &mut S) -> Result<File, OpenFault>
    ensures ok { S.sees.tells → IfOk result (IsLogOf (S.sees.files shelf.old)) }
    ensures err { S.sees.tells →
        IfErr result (λ e. FaultFound e (IsFound (S.sees.files shelf.old))) }
    ensures whole { IfOk result IsWhole }
    ensures looks { S.sees.tells →
        OnlyLooks S.sees shelf.old shelf.new }
    ensures mail_reads { S.sees.mail_reads shelf.new ≡ counted (S.sees.mail_reads shelf.old) 0 }
    ensures cause { HasCause (S.sees.fault_count shelf.old) (S.sees.fault_count shelf.new) result }
{
    match look(alloc, shelf, Name::Log)? {
        Some(bytes) => File::read(bytes),
        None => Err(OpenFault::NoLog),
    }
}

/// The file of these bytes, where it is a good one that goes before the log.
fn rotated_of(bytes: Bytes, log: &File) -> Result<Option<File>, OpenFault>
    ensures ok { IfOk result (IsRotatedOf (Some bytes) log.now) }
    ensures whole { IfOk result (λ rotated. IfSome rotated HasHeader) }
    ensures err { IfErr result (λ e. e ≡ fault.NoMemory) }
{
    match File::read(bytes) {
        Ok(file) => {
            if goes_before(log, &file) {
                Ok(Some(file))
            } else {
                Ok(None)
            }
        }
        Err(e) => match e {
            OpenFault::NoMemory => Err(e),
            _ => Ok(None),
        },
    }
}

/// The rotated log, where it goes before the log.
fn read_rotated<S: Shelf>(
    alloc: Global,
    shelf: &mut S,
    log: &File,
) -> Result<Option<File>, OpenFault>
    ensures ok { S.sees.tells →
        IfOk result (IsRotatedOf (S.sees.files shelf.old name.Log2) log.now) }
    ensures err { IfErr result IsOutside }
    ensures whole { IfOk result (λ rotated. IfSome rotated HasHeader) }
    ensures looks { S.sees.tells →
        OnlyLooks S.sees shelf.old shelf.new }
    ensures mail_reads { S.sees.mail_reads shelf.new ≡ counted (S.sees.mail_reads shelf.old) 0 }
    ensures cause { HasCause (S.sees.fault_count shelf.old) (S.sees.fault_count shelf.new) result }
{
    match look(alloc, shelf, Name::Log2)? {
        Some(bytes) => rotated_of(bytes, log),
        None => Ok(None),
    }
}

/// The snapshot in these bytes, where it is of the log's mailbox.
fn counted_of(alloc: Global, bytes: &[u8], log: &File) -> Result<Option<Index>, OpenFault>
    ensures ok { IfOk result (IsIndexOf (Some bytes.now) log.now) }
    ensures valid { IfOk result (λ index. IfSome index (λ i. IsValid i.mailbox)) }
    ensures err { IfErr result (λ e. e ≡ fault.NoMemory) }
{
    match read_index(alloc, bytes)? {
        Some(index) => {
            if index.indexid == log.header.indexid {
                Ok(Some(index))
            } else {
                Ok(None)
            }
        }
        None => Ok(None),
    }
}

/// The snapshot, where it is of the log's mailbox.
fn read_snapshot<S: Shelf>(
    alloc: Global,
    shelf: &mut S,
    log: &File,
) -> Result<Option<Index>, OpenFault>
    ensures ok { S.sees.tells →
        IfOk result (IsIndexOf (S.sees.files shelf.old name.Index) log.now) }
    ensures err { IfErr result IsOutside }
    ensures valid { IfOk result (λ index. IfSome index (λ i. IsValid i.mailbox)) }
    ensures looks { S.sees.tells →
        OnlyLooks S.sees shelf.old shelf.new }
    ensures mail_reads { S.sees.mail_reads shelf.new ≡ counted (S.sees.mail_reads shelf.old) 0 }
    ensures cause { HasCause (S.sees.fault_count shelf.old) (S.sees.fault_count shelf.new) result }
{
    match look(alloc, shelf, Name::Index)? {
        Some(bytes) => counted_of(alloc, bytes.as_slice(), log),
        None => Ok(None),
    }
}

/// The files, each read only where no fault came before it.
fn read_files<S: Shelf>(alloc: Global, shelf: &mut S) -> Result<Files, OpenFault>
    ensures ok { S.sees.tells → IfOk result (AreFilesOf (S.sees.files shelf.old)) }
    ensures err { S.sees.tells →
        IfErr result (λ e. FaultFound e (IsFound (S.sees.files shelf.old))) }
    ensures whole { IfOk result AreWhole }
    ensures looks { S.sees.tells →
        OnlyLooks S.sees shelf.old shelf.new }
    ensures mail_reads { S.sees.mail_reads shelf.new ≡ counted (S.sees.mail_reads shelf.old) 0 }
    ensures cause { HasCause (S.sees.fault_count shelf.old) (S.sees.fault_count shelf.new) result }
{
    let log = read_log(alloc, shelf)?;
    let rotated = read_rotated(alloc, shelf, &log)?;
    let index = read_snapshot(alloc, shelf, &log)?;
    Ok(Files {
        log,
        rotated,
        index,
    })
}

/// The log, and the mailbox that the files give at its end.
fn find<S: Shelf>(alloc: Global, shelf: &mut S) -> Result<(File, Live), OpenFault>
    ensures ok { S.sees.tells →
        IfOk result (λ x. IsEndOf (S.sees.files shelf.old) x.0 x.1.mailbox) }
    ensures err { S.sees.tells →
        IfErr result (λ e. FaultFound e (IsFound (S.sees.files shelf.old))) }
    ensures whole { IfOk result (λ x. IsWhole x.0) }
    ensures looks { S.sees.tells →
        OnlyLooks S.sees shelf.old shelf.new }
    ensures mail_reads { S.sees.mail_reads shelf.new ≡ counted (S.sees.mail_reads shelf.old) 0 }
    ensures cause { HasCause (S.sees.fault_count shelf.old) (S.sees.fault_count shelf.new) result }
{
    let Files {
        log,
        rotated,
        index,
    } = read_files(alloc, shelf)?;
    let live = join(alloc, &log, rotated, index)?;
    Ok((log, live))
}

/// Opens a mailbox folder: its log, and its rotated log and snapshot where they count, give the
/// mailbox at the log's end. Where the log was cut there, or a record may seem to begin there, its
/// end is closed by one replace. So a crash at any moment leaves a folder that opens to the same.
pub fn open<S: Shelf>(alloc: Global, shelf: &mut S) -> Result<Chain, OpenFault>
    // What is answered is found, and the chain stands on the log.
    ensures found { S.sees.tells → Answers found_of result (IsFound (S.sees.files shelf.old)) }
    ensures chain { S.sees.tells → IfOk result (IsChainOf (S.sees.files shelf.old)) }
    ensures bounds { IfOk result HasBounds }
    // What it leaves of the files, and what a crash leaves, at any moment and behind it.
    ensures files { S.sees.tells →
        LeavesFolder (S.sees.files shelf.old) (S.sees.files shelf.new) result }
    ensures quiet { S.sees.tells → IsSettled S.sees shelf.old →
        LeavesOnly S.sees shelf.old shelf.new (IsQuiet (S.sees.files shelf.old)) }
    ensures settled { S.sees.tells → IsSettled S.sees shelf.old →
        UnlessDisk result (IsSettled S.sees shelf.new) }
    // Behind Ok the chain is at rest, and owes nothing.
    ensures rests { S.sees.tells → IsSettled S.sees shelf.old →
        IfOk result (λ chain. Rests S.sees Nothing chain shelf.new) }
    // No message file is read; a fault of the disk has its cause.
    ensures mail_reads { S.sees.mail_reads shelf.new ≡ counted (S.sees.mail_reads shelf.old) 0 }
    ensures cause { HasCause (S.sees.fault_count shelf.old) (S.sees.fault_count shelf.new) result }
{
    let (log, live) = find(alloc, shelf)?;
    mend(alloc, shelf, &log)?;
    Ok(Chain {
        live,
        log: LogFile {
            file_seq: log.header.file_seq,
            end: log.end,
            count: log.count,
            debt: Debt::None,
        },
        indexid: log.header.indexid,
        records: log.header.initial_modseq,
    })
}
