//! What a CHECK removes and replaces.

ghost use Rattle.std.specs.Prelude.{◌≡◌, ◌≤◌, All, IfOk, List as Listed, is_some, length, ℕ};
ghost use Rattle.dv_chain.specs.Openings.{OnlyLooks};
ghost use Rattle.dv_openings.specs.TrueCaches.{HasTrueCache};
ghost use Rattle.dv_lookups.specs.Checks.{row_uids};
ghost use Rattle.dv_lookups.specs.Commands.{SparesEach};
ghost use Rattle.dv_writing.specs.Repairing.{IsOwing};
ghost use Rattle.dv_writing.specs.Removals.{IsFree};
ghost use Rattle.dv_files.specs.Leavings.{HasFaultCause};
ghost use Rattle.dv_plans.specs.Befores.{IsBefore, IsRead};
ghost use Rattle.dv_plans.specs.Begins.{turns};
ghost use Rattle.dv_plans.specs.Counts.{CountsReads, CountsUpTo};
ghost use Rattle.dv_plans.specs.Files.{AreGone, IsNextCache};

use crate::before::Before;
use crate::fault::told;
use crate::places::beginning;
use crate::times::Times;
use crate::turns::turn_at;
use dv_apply::Live;
use dv_chain::Chain;
use dv_files::{ChainFault, Turn, snapshot_at};
use dv_groups::next_cache_number;
use dv_lookups::cache_of_messages;
use dv_model::{Bytes, Command, List};
use dv_shelf::Shelf;
use dv_writing::{Files, Renewal, unlisted};
use std::alloc::Global;

/// The UIDs of the message files that no row has, rising, of those that were given out. Lists the
/// folder once, and writes nothing.
fn gone_uids<S: Shelf>(alloc: Global, live: &Live, shelf: &mut S) -> Result<List<u32>, ChainFault>
    ensures free { IfOk result (All (IsFree live.now.mailbox)) }
    ensures gone { S.sees.tells → IfOk result (AreGone live.now.mailbox (S.sees.files shelf.old)) }
    // Nothing is changed.
    ensures looks { S.sees.tells →
        OnlyLooks S.sees shelf.old shelf.new }
    // No message file is read; a fault of the disk has its cause.
    ensures mail_reads { CountsReads 0 (S.sees.mail_reads shelf.old) (S.sees.mail_reads shelf.new) }
    ensures cause { HasFaultCause (S.sees.fault_count shelf.old) (S.sees.fault_count shelf.new)
        result }
{
    let names = match shelf.list(alloc) {
        Ok(names) => names,
        Err(fault) => return Err(told(shelf, fault)),
    };
    Ok(unlisted(alloc, live, &names)?)
}

/// The cache file of the messages of a chain's rows, under its next sequence: what the folder's
/// cache file has of them, or else by their files, each read once, by rising UID. Writes nothing.
fn next_cache<S: Shelf>(alloc: Global, chain: &Chain, shelf: &mut S) -> Result<Bytes, ChainFault>
    requires { length chain.now.live.mailbox.rows ≤ 8388608 }
    // It is of the rows' messages, where the folder's cache file is true.
    ensures text { S.sees.tells →
        HasTrueCache (S.sees.files shelf.old) chain.now.indexid chain.now.live.mailbox →
        IfOk result (IsNextCache chain.now (S.sees.files shelf.old)) }
    // Nothing is changed.
    ensures looks { S.sees.tells →
        OnlyLooks S.sees shelf.old shelf.new }
    // A message file is read at most for each row, and none for one that the cache file has; a
    // fault of the disk has its cause.
    ensures most { CountsUpTo (length chain.now.live.mailbox.rows)
        (S.sees.mail_reads shelf.old) (S.sees.mail_reads shelf.new) }
    ensures spares { S.sees.tells →
        SparesEach (S.sees.files shelf.old) chain.now.indexid chain.now.live.mailbox
        (row_uids chain.now.live.mailbox)
        (S.sees.mail_reads shelf.old) (S.sees.mail_reads shelf.new) }
    ensures cause { HasFaultCause (S.sees.fault_count shelf.old) (S.sees.fault_count shelf.new)
        result }
{
    match cache_of_messages(alloc, shelf, chain, next_cache_number(&chain.live)) {
        Ok(text) => Ok(text),
        Err(fault) => Err(told(shelf, fault)),
    }
}

/// What comes before the group of a CHECK: reads the cache file, and by rising UID the messages of
/// the rows that it lacks, then the log, where it is rotated, and lists the folder.
pub fn before_check<S: Shelf>(
    alloc: Global,
    chain: &Chain,
    owed: &Option<Turn>,
    times: Times,
    shelf: &mut S,
) -> Result<Before, ChainFault>
    requires few { length chain.now.live.mailbox.rows ≤ 8388608 }
    requires owing { IsOwing chain.now owed.now }
    requires turn { is_some times.turn ≡ turns owed.now chain.now }
    ensures is { (uids : Listed ℕ) →
        IfOk result (IsBefore Command.Check uids owed.now chain.now times) }
    ensures read { S.sees.tells → (uids : Listed ℕ) → IfOk result
        (IsRead Command.Check uids chain.now times.received (S.sees.files shelf.old)) }
    // Nothing is changed.
    ensures looks { S.sees.tells →
        OnlyLooks S.sees shelf.old shelf.new }
    // A message file is read at most for each row, and none for one that the cache file has; a
    // fault of the disk has its cause.
    ensures most { CountsUpTo (length chain.now.live.mailbox.rows)
        (S.sees.mail_reads shelf.old) (S.sees.mail_reads shelf.new) }
    ensures spares { S.sees.tells →
        SparesEach (S.sees.files shelf.old) chain.now.indexid chain.now.live.mailbox
        (row_uids chain.now.live.mailbox)
        (S.sees.mail_reads shelf.old) (S.sees.mail_reads shelf.new) }
    ensures cause { HasFaultCause (S.sees.fault_count shelf.old) (S.sees.fault_count shelf.new)
        result }
{
    let cache = next_cache(alloc, chain, shelf)?;
    let turn = turn_at(alloc, chain, shelf, times.turn)?;
    let gone = gone_uids(alloc, &chain.live, shelf)?;
    let mark = beginning(chain, owed.is_some() || turn.is_some());
    let index = snapshot_at(alloc, &chain.live, chain.indexid, mark)?;
    Ok(Before {
        guids: List::new(alloc),
        turn,
        files: Files::Check(Renewal { gone, index, cache }),
    })
}
