ghost use Rattle.std.specs.Prelude.{◌≡◌, IfOk, filter};
ghost use Rattle.dv_model.specs.Sessions.{deleted_uids, has_row, is_deleted, is_unchanged};
ghost use Rattle.dv_groups.specs.Changes.{changed_uids, expunged_uids, removes};

use dv_model::{Command, List, NoMemory, Row};
use dv_responses::named_uids;
use dv_view::{Live, View};
use std::alloc::Global;

// How many messages an EXPUNGE removes at most.
const EXPUNGE_LIMIT: usize = 100_000;

// The flag Deleted.
const DELETED: u8 = 4;

// Whether the message has the flag Deleted (RFC 3501, section 2.3.2).
fn is_deleted(row: &Row) -> bool
    ensures { result ≡ is_deleted row.now }
{
    row.flags & DELETED != 0
}

// The UIDs of the first 100,000 messages with the flag. Where there is none, no row is looked at.
fn deleted_uids(alloc: Global, live: &Live) -> Result<List<u32>, NoMemory>
    ensures { IfOk result (λ uids. uids ≡ deleted_uids live.now.mailbox) }
{
    let mut uids = List::new(alloc);
    if live.deleted() == 0 {
        return Ok(uids);
    }
    for k in 0..live.count() {
        if uids.len() == EXPUNGE_LIMIT {
            return Ok(uids);
        }
        let row = live.row(k);
        if is_deleted(row) {
            uids.push(row.uid)?;
        }
    }
    Ok(uids)
}

// UNCHANGEDSINCE lets a message be changed whose modification sequence is at most the number
// (RFC 7162, section 3.1.3).
fn is_unchanged(since: Option<u64>, row: &Row) -> bool
    ensures { result ≡ is_unchanged since row.now }
{
    match since {
        Some(n) => row.modseq <= n,
        None => true,
    }
}

// Whether the mailbox has a row of this UID that may be changed.
fn has_unchanged(live: &Live, since: Option<u64>, uid: u32) -> bool
    ensures { result ≡ has_row live.now.mailbox (is_unchanged since) uid }
{
    // No UID from the UIDNEXT on was given out.
    if uid >= live.next_uid() {
        return false;
    }
    match live.position(uid) {
        Some(at) => is_unchanged(since, live.row(at)),
        None => false,
    }
}

// Those of the UIDs of which the mailbox has such a row.
fn unchanged_uids(
    alloc: Global,
    live: &Live,
    since: Option<u64>,
    uids: &[u32],
) -> Result<List<u32>, NoMemory>
    ensures { IfOk result (λ found. found
        ≡ filter (has_row live.now.mailbox (is_unchanged since)) uids.now) }
{
    let mut found = List::new(alloc);
    for uid in uids {
        if has_unchanged(live, since, *uid) {
            found.push(*uid)?;
        }
    }
    Ok(found)
}

/// The UIDs of the messages that a command changes or removes, by rising UID: of a STORE and a UID
/// REMOVE those named in the view of which the mailbox has a row, of an EXPUNGE the first 100,000
/// with the flag Deleted. `NoMemory` is the only error. The time is that of a set's ranges, their
/// sorting, and the rows that it names, each found by halves; that of an EXPUNGE one look at the
/// flags, where some message has the flag.
pub fn changed_uids(
    alloc: Global,
    c: &Command,
    view: &View,
    live: &Live,
) -> Result<List<u32>, NoMemory>
    ensures { IfOk result (λ uids. uids ≡ changed_uids c.now view.now live.now.mailbox) }
{
    match c {
        Command::Store {
            by_uid,
            set,
            unchanged_since,
            ..
        } => {
            let named = named_uids(alloc, *by_uid, set, view)?;
            unchanged_uids(alloc, live, *unchanged_since, named.as_slice())
        }
        Command::UidRemove { set } => {
            let named = named_uids(alloc, true, set, view)?;
            unchanged_uids(alloc, live, None, named.as_slice())
        }
        Command::Expunge => deleted_uids(alloc, live),
        _ => Ok(List::new(alloc)),
    }
}

/// Whether the command removes messages.
pub fn removes(c: &Command) -> bool
    ensures { result ≡ removes c.now }
{
    matches!(c, Command::Expunge | Command::UidRemove { .. })
}

/// The UIDs of the messages that a command removes, whose GUIDs its group has, by rising UID.
/// `NoMemory` is the only error.
pub fn expunged_uids(
    alloc: Global,
    c: &Command,
    view: &View,
    live: &Live,
) -> Result<List<u32>, NoMemory>
    ensures { IfOk result (λ uids. uids ≡ expunged_uids c.now view.now live.now.mailbox) }
{
    if !removes(c) {
        return Ok(List::new(alloc));
    }
    changed_uids(alloc, c, view, live)
}
