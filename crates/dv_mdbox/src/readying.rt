//! A group is made ready over a storage's chain, before anything is written.

ghost use Rattle.std.specs.Prelude.{◌≡◌, ◌<◌, ◌≤◌, All, IfOk, IfSome, IsSome, IsSomeAnd, false, is_some, length, true};
ghost use Rattle.dv_model.specs.Effects.{applied};
ghost use Rattle.dv_model.specs.Spelling.{IsRecord};
ghost use Rattle.dv_chain.specs.Openings.{OnlyLooks};
ghost use Rattle.dv_apply.specs.Preparing.{Makes};
ghost use Rattle.dv_plans.specs.Begins.{turns};
ghost use Rattle.dv_plans.specs.Counts.{CountsReads};
ghost use Rattle.dv_files.specs.Leavings.{HasFaultCause};
ghost use Rattle.dv_files.specs.Texts.{ClosesLog, IsTurnOf};
ghost use Rattle.dv_writing.specs.Opening.{AreEqual};
ghost use Rattle.dv_writing.specs.Repairing.{IsOwing};
ghost use Rattle.dv_filing.specs.Files.{HasRoom};
ghost use Rattle.dv_mdbox.specs.Answers.{HasStorageCause, IsFailure};
ghost use Rattle.dv_mdbox.specs.Readying.{IsGroupFor, IsReadyFor, LooksAtLog};
ghost use Rattle.std.specs.Prelude.{IfErr};

use crate::StorageFault;
use crate::fault::chain_fault;
use dv_apply::{ApplyFault, Live, Prepared};
use dv_chain::Chain;
use dv_files::{ChainFault, Turn, turn};
use dv_filing::{Files, Steps};
use dv_logfile::group_text;
use dv_model::{Bytes, Group, NoMemory};
use dv_shelf::Shelf;
use std::alloc::Global;

/// A group that is ready to be written.
#[derive(Drop)]
pub(crate) struct Ready {
    /// The text of its records, and four zero bytes.
    pub(crate) text: Bytes,
    /// What is done behind what is owed.
    pub(crate) steps: Steps,
}

/// The map with the records of a group. `NoMemory` is the only error, since they apply to it.
fn prepare(live: &mut Live, group: &Group) -> Result<Prepared, NoMemory>
    requires records { All IsRecord group.now.records }
    requires applies { IsSome (applied live.old.mailbox group.now.records) }
    ensures mailbox { live.new.mailbox ≡ live.old.mailbox }
    ensures ok { IfOk result (λ prepared.
        IsSomeAnd (applied live.new.mailbox group.now.records) (Makes live.new prepared)) }
{
    match live.prepare(group.records.as_slice()) {
        Ok(prepared) => Ok(prepared),
        Err(ApplyFault::NoMemory) => Err(NoMemory),
        Err(ApplyFault::BadAppend { .. }) => unreachable!(),
    }
}

/// The texts of the rotation whose new log file is made at a time, in seconds since 1970; none
/// without such a time. Reads the log once where there is one, and writes nothing.
fn turn_at<S: Shelf>(
    alloc: Global,
    chain: &Chain,
    shelf: &mut S,
    time: Option<u32>,
) -> Result<Option<Turn>, ChainFault>
    requires room { IfSome time (λ _. chain.now.log.file_seq < 4294967295) }
    requires named { 1 ≤ chain.now.indexid }
    ensures is { IfOk result (λ made. (is_some made ≡ is_some time)
        × IfSome made (IsTurnOf chain.now)) }
    ensures closes { S.sees.tells → IfOk result (λ made. IfSome made
        (λ turn. ClosesLog chain.now turn (S.sees.files shelf.old))) }
    ensures looks { S.sees.tells → OnlyLooks S.sees shelf.old shelf.new }
    ensures mail_reads { CountsReads 0 (S.sees.mail_reads shelf.old) (S.sees.mail_reads shelf.new) }
    ensures cause { HasFaultCause (S.sees.fault_count shelf.old) (S.sees.fault_count shelf.new)
        result }
{
    match time {
        Some(now) => Ok(Some(turn(alloc, chain, shelf, now)?)),
        None => Ok(None),
    }
}

/// Takes all memory that the write of a group needs, and reads the log where it is rotated, at a
/// time that was read for it. Nothing is written.
pub(crate) fn make_ready<S: Shelf>(
    alloc: Global,
    chain: &mut Chain,
    shelf: &mut S,
    owed: &Option<Turn>,
    group: &Group,
    files: Files,
    time: Option<u32>,
) -> Result<Ready, StorageFault>
    requires group { IsGroupFor chain.old group.now.records }
    requires owing { IsOwing chain.old owed.now }
    requires time { is_some time ≡ turns owed.now chain.old }
    requires room { HasRoom files }
    // The chain stays, but for spare rows; the text and the steps, over any shelf.
    ensures chain { AreEqual chain.new chain.old }
    ensures ready { IfOk result (λ r.
        IsReadyFor owed.now chain.new group.now.records files r.text r.steps) }
    ensures closes { S.sees.tells → IfOk result (λ r. IfSome r.steps.turn
        (λ turn. ClosesLog chain.new turn (S.sees.files shelf.old))) }
    // Nothing is changed; a fault has its cause.
    ensures looks { LooksAtLog S.sees shelf.old shelf.new }
    ensures err { IfErr result IsFailure }
    ensures cause { HasStorageCause (S.sees.fault_count shelf.old) (S.sees.fault_count shelf.new)
        result }
{
    let prepared = prepare(&mut chain.live, group)?;
    let text = group_text(alloc, group)?;
    match turn_at(alloc, chain, shelf, time) {
        Ok(turn) => Ok(Ready {
            text,
            steps: Steps {
                turn,
                files,
                prepared,
            },
        }),
        Err(fault) => Err(chain_fault(fault)),
    }
}
