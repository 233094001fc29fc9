//! The rotation before a group.

ghost use Rattle.std.specs.Prelude.{◌≡◌, ◌<◌, ◌≤◌, IfOk, IfSome, is_some};
ghost use Rattle.dv_chain.specs.Openings.{OnlyLooks};
ghost use Rattle.dv_files.specs.Leavings.{HasFaultCause};
ghost use Rattle.dv_files.specs.Texts.{ClosesLog, IsTurnOf};
ghost use Rattle.dv_plans.specs.Begins.{IsMadeAt};
ghost use Rattle.dv_plans.specs.Counts.{CountsReads};

use dv_chain::Chain;
use dv_files::{ChainFault, Turn, turn};
use dv_shelf::Shelf;
use std::alloc::Global;

/// The texts of the rotation whose new log file is made at a time, in seconds since 1970; none
/// without such a time. Reads the log once where there is one, and writes nothing.
pub fn turn_at<S: Shelf>(
    alloc: Global,
    chain: &Chain,
    shelf: &mut S,
    time: Option<u32>,
) -> Result<Option<Turn>, ChainFault>
    requires room { IfSome time (λ _. chain.now.log.file_seq < 4294967295) }
    requires named { 1 ≤ chain.now.indexid }
    // The texts.
    ensures is { IfOk result (λ made. (is_some made ≡ is_some time)
        × IfSome made (IsTurnOf chain.now)) }
    ensures new { IfOk result (IsMadeAt chain.now time) }
    ensures closes { S.sees.tells → IfOk result (λ made. IfSome made
        (λ turn. ClosesLog chain.now turn (S.sees.files shelf.old))) }
    // Nothing is changed.
    ensures looks { S.sees.tells →
        OnlyLooks S.sees shelf.old shelf.new }
    // No message file is read; a fault of the disk has its cause.
    ensures mail_reads { CountsReads 0 (S.sees.mail_reads shelf.old) (S.sees.mail_reads shelf.new) }
    ensures cause { HasFaultCause (S.sees.fault_count shelf.old) (S.sees.fault_count shelf.new)
        result }
{
    match time {
        Some(now) => Ok(Some(turn(alloc, chain, shelf, now)?)),
        None => Ok(None),
    }
}
