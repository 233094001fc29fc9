//! A mailbox folder that is made: its log stands alone in it.

ghost use Rattle.std.specs.Prelude.{◌≡◌, ◌≤◌, [], ◌∷◌, IfErr, IfOk};
ghost use Rattle.dv_model.specs.Appends.{validity_record};
ghost use Rattle.dv_shelf.specs.Crashes.{IsSettled, LeavesOnly};
ghost use Rattle.dv_logfile.specs.Layout.{log_text, new_header};
ghost use Rattle.dv_openings.specs.Openings.{IsFound};
ghost use Rattle.dv_openings.specs.Rebuilds.{stamp_of};
ghost use Rattle.dv_chain.specs.Creations.{HasNone, IsFirst, IsOldOrCreated, LeavesCreated, first_log};
ghost use Rattle.dv_chain.specs.Openings.{HasBounds, HasCause, IsChainOf, IsOutside, UnlessDisk, found_of};
ghost use Rattle.dv_chain.specs.Rest.{Nothing, Rests};

use crate::Chain;
use dv_apply::Live;
use dv_logfile::{Debt, LogFile, LogHeader};
use dv_model::{Body, Bytes, List, NoMemory, OpenFault, Part, Record};
use dv_shelf::{Name, Shelf};
use std::alloc::Global;

/// The header of a mailbox's first log file.
pub fn first_header(indexid: u32) -> LogHeader
    ensures { result ≡ new_header indexid }
{
    LogHeader {
        major_version: 1,
        minor_version: 3,
        hdr_size: 40,
        indexid,
        file_seq: 1,
        prev_file_seq: 0,
        prev_file_offset: 0,
        create_stamp: indexid,
        initial_modseq: 1,
        compat_flags: 1,
    }
}

/// The header update that gives a mailbox its UIDVALIDITY.
fn first_record(alloc: Global, validity: u32) -> Result<Record, NoMemory>
    ensures { IfOk result (λ r. r ≡ validity_record validity) }
{
    let mut parts = List::new(alloc);
    parts.push(Part {
        offset: 24,
        bytes: List::from_slice(alloc, &validity.to_le_bytes())?,
    })?;
    Ok(Record {
        top: 0,
        body: Body::HeaderUpdate(parts),
    })
}

/// A mailbox's first log file.
fn first_log(alloc: Global, indexid: u32) -> Result<Bytes, NoMemory>
    ensures { IfOk result (λ text. text ≡ first_log indexid) }
{
    let mut records = List::new(alloc);
    records.push(first_record(alloc, indexid)?)?;
    dv_logfile::create(alloc, &first_header(indexid), &records)
}

/// The chain at the end of that file. Takes no memory.
fn first_chain(alloc: Global, indexid: u32) -> Chain
    ensures { IsFirst indexid result }
{
    let mut live = Live::empty(alloc, indexid);
    live.raise(2);
    Chain {
        live,
        log: LogFile {
            file_seq: 1,
            end: 56,
            count: 1,
            debt: Debt::None,
        },
        indexid,
        records: 1,
    }
}

/// Makes the mailbox of a folder that has none, by one replace: its log, whose number and
/// UIDVALIDITY are a clock's reading, in which 0 counts as 1. `Disk` and `NoMemory` are the only
/// errors. The folder has neither log nor rotated log nor index before, where clauses speak of what
/// is found.
pub fn create<S: Shelf>(alloc: Global, shelf: &mut S, now: u32) -> Result<Chain, OpenFault>
    // What is answered is found, the chain stands on the log and is within its bounds.
    ensures first { IfOk result (λ chain. IsFirst (stamp_of now) chain × HasBounds chain) }
    ensures found { S.sees.tells → HasNone (S.sees.files shelf.old) →
        IfOk result (λ chain. IsFound (S.sees.files shelf.new) (found_of chain)) }
    ensures chain { S.sees.tells → IfOk result (IsChainOf (S.sees.files shelf.new)) }
    // What it leaves of the files, and what a crash leaves, at any moment and behind it.
    ensures files { S.sees.tells →
        LeavesCreated (S.sees.files shelf.old) now (S.sees.files shelf.new)
        result }
    ensures since { S.sees.tells → IsSettled S.sees shelf.old →
        LeavesOnly S.sees shelf.old shelf.new
        (IsOldOrCreated (S.sees.files shelf.old) now) }
    ensures settled { S.sees.tells → IsSettled S.sees shelf.old →
        UnlessDisk result (IsSettled S.sees shelf.new) }
    // Behind Ok the chain is at rest, and owes nothing.
    ensures rests { S.sees.tells → HasNone (S.sees.files shelf.old) →
        IsSettled S.sees shelf.old →
        IfOk result (λ chain. Rests S.sees Nothing chain shelf.new) }
    // Errors, and no message file is read; a fault of the disk has its cause.
    ensures err { IfErr result IsOutside }
    ensures mail_reads { S.sees.mail_reads shelf.new ≡ S.sees.mail_reads shelf.old }
    ensures cause { HasCause (S.sees.fault_count shelf.old) (S.sees.fault_count shelf.new) result }
{
    let indexid = now.max(1);
    let text = first_log(alloc, indexid)?;
    match shelf.replace(Name::Log, text.as_slice()) {
        Ok(()) => Ok(first_chain(alloc, indexid)),
        Err(_) => Err(OpenFault::Disk(shelf.faults())),
    }
}
