ghost use Rattle.std.specs.Prelude.{◌≡◌, ◌^◌, ◌<◌, ◌≤◌, IfErr, IfOk, unwrap_or, []};
ghost use Rattle.dv_shelf.specs.Folders.{contents, counted};
ghost use Rattle.dv_shelf.specs.declared.shelf.Name.TheVariants as name;
ghost use Rattle.dv_chain.specs.Openings.{OnlyLooks};
ghost use Rattle.dv_chain.specs.Rest.{Owed, Rests};
ghost use Rattle.dv_files.specs.declared.fault.ChainFault.TheVariants as fault;
ghost use Rattle.dv_files.specs.Leavings.{HasFaultCause};
ghost use Rattle.dv_files.specs.Texts.{IsTurnOf, closed_at, next_log};

use crate::{ChainFault, Turn, snapshot};
use dv_chain::Chain;
use dv_logfile::{LogHeader, create};
use dv_model::{Bytes, List};
use dv_shelf::{Name, Shelf, ShelfFault};
use std::alloc::Global;

/// The log's bytes; a missing log has none.
fn read_log<S: Shelf>(alloc: Global, shelf: &mut S) -> Result<Bytes, ChainFault>
    ensures found { S.sees.tells →
        IfOk result (λ b. b ≡ contents (S.sees.files shelf.old) name.Log) }
    ensures looks { S.sees.tells →
        OnlyLooks S.sees shelf.old shelf.new }
    ensures mail_reads { S.sees.mail_reads shelf.new ≡ counted (S.sees.mail_reads shelf.old) 0 }
    ensures cause { HasFaultCause (S.sees.fault_count shelf.old) (S.sees.fault_count shelf.new)
        result }
{
    match shelf.read(alloc, Name::Log) {
        Ok(Some(bytes)) => Ok(bytes),
        Ok(None) => Ok(List::new(alloc)),
        Err(ShelfFault::Failed) => Err(ChainFault::Disk(shelf.faults())),
        Err(ShelfFault::NoMemory) => Err(ChainFault::NoMemory),
    }
}

/// The log up to a place, with zero bytes where it ends before that, and four zero bytes.
fn closed(log: Bytes, end: u32) -> Result<Bytes, ChainFault>
    ensures text { IfOk result (λ text. text ≡ closed_at end log) }
    ensures err { IfErr result (λ e. e ≡ fault.NoMemory) }
{
    let mut bytes = log.into_vec();
    bytes.resize(end as usize, 0)?;
    bytes.extend_from_slice(&[0; 4])?;
    Ok(List::from_vec(bytes))
}

/// The file behind the chain's, without a record. Its stamp is the time, in which 0 counts as 1.
fn next_file(alloc: Global, chain: &Chain, now: u32) -> Result<Bytes, ChainFault>
    requires { chain.now.log.file_seq < 4294967295 }
    ensures text { IfOk result (λ text. text ≡ next_log chain.now now) }
    ensures err { IfErr result (λ e. e ≡ fault.NoMemory) }
{
    let header = LogHeader {
        major_version: 1,
        minor_version: 3,
        hdr_size: 40,
        indexid: chain.indexid,
        file_seq: chain.log.file_seq + 1,
        prev_file_seq: chain.log.file_seq,
        prev_file_offset: chain.log.end,
        create_stamp: now.max(1),
        initial_modseq: chain.live.highest(),
        compat_flags: 1,
    };
    Ok(create(alloc, &header, &List::new(alloc))?)
}

/// The three texts of a rotation of a chain's log, whose new file is made at `now`, in seconds
/// since 1970 (0 counts as 1): the snapshot, the old log closed at its end, and the new log. Reads
/// the log once and writes nothing. A log that is missing or shorter than the chain's end counts as
/// filled up with zero bytes.
pub fn turn<S: Shelf>(
    alloc: Global,
    chain: &Chain,
    shelf: &mut S,
    now: u32,
) -> Result<Turn, ChainFault>
    requires room { chain.now.log.file_seq < 4294967295 }
    requires named { 1 ≤ chain.now.indexid }
    // The three texts.
    ensures is { IfOk result (IsTurnOf chain.now) }
    ensures old { S.sees.tells → IfOk result (λ turn. turn.old
        ≡ closed_at chain.now.log.end (contents (S.sees.files shelf.old) name.Log)) }
    ensures new { IfOk result (λ turn. turn.new ≡ next_log chain.now now) }
    // Nothing is changed; from rest to rest, whatever is owed.
    ensures looks { S.sees.tells →
        OnlyLooks S.sees shelf.old shelf.new }
    ensures rests { S.sees.tells → (owed : Owed) → Rests S.sees owed chain.now shelf.old →
        Rests S.sees owed chain.now shelf.new }
    // No message file is read; a fault of the disk has its cause.
    ensures mail_reads { S.sees.mail_reads shelf.new ≡ counted (S.sees.mail_reads shelf.old) 0 }
    ensures cause { HasFaultCause (S.sees.fault_count shelf.old) (S.sees.fault_count shelf.new)
        result }
{
    let log = read_log(alloc, shelf)?;
    let index = snapshot(alloc, chain)?;
    let old = closed(log, chain.log.end)?;
    let new = next_file(alloc, chain, now)?;
    Ok(Turn { index, old, new })
}
