ghost use Rattle.std.specs.Prelude.{◌≡◌, ◌≤◌, IfOk, OnErr, OnOk, vec_capacity, vec_len};
ghost use Rattle.dv_interleavings.specs.Worlds.{happens};
ghost use Rattle.dv_interleavings.specs.Worlds as happening;
ghost use Rattle.dv_world.specs.Adding.{AddsEntry, running_author, stored_by, stored_with};
ghost use Rattle.dv_world.specs.Keeping.{IsKept};
ghost use Rattle.dv_world.specs.Shapes.{kept_world, plain_of};

use crate::between::ready;
use crate::kept::{Kept, Logged, Pending, Stored, Wrote};
use crate::messages::new_guid;
use crate::seats::place_of;
use dv_apply::Live;
use dv_model::{Command, Duplicate, Entry, NoMemory};
use std::alloc::Global;

// The message of a pending APPEND, which gets the UID that the mailbox gives next.
fn stored_by(
    alloc: Global,
    p: &Pending,
    live: &Live,
    indexid: u32,
) -> Result<Option<Stored>, NoMemory>
    ensures { IfOk result (λ made. made ≡ stored_by indexid live.now.mailbox p.now) }
{
    match &p.command {
        Command::Append { message, .. } => {
            let uid = live.next_uid();
            let guid = new_guid(indexid, live.uid_validity(), uid, p.received);
            Ok(Some((uid, Some(message.duplicate(alloc)?), guid)))
        }
        _ => Ok(None),
    }
}

// A message stands before those that were kept.
fn keep(stored: &mut Vec<Stored>, message: Option<Stored>) -> Result<(), NoMemory>
    ensures ok { OnOk result (stored.new.items ≡ stored_with message stored.old.items) }
    ensures err { OnErr result (vec_capacity stored.old ≤ vec_len stored.old) }
{
    if let Some(message) = message {
        stored.insert(0, message)?;
    }
    Ok(())
}

/// The pending entry, where there is one, is the last of the log, and is given back. After
/// `NoMemory`, which is the only error, all is as before.
pub fn add_entry(kept: &mut Kept) -> Result<Option<Wrote>, NoMemory>
    requires { IsKept kept.old }
    ensures ok { IfOk result (AddsEntry kept.old kept.new) }
    ensures err { OnErr result (IsKept kept.new × (plain_of kept.new ≡ plain_of kept.old)) }
{
    let Some(p) = &kept.pending else {
        return Ok(None);
    };
    let message = stored_by(kept.alloc, p, &kept.end, kept.indexid)?;
    kept.stored.reserve(1)?;
    kept.logged.reserve(1)?;
    let prepared = ready(&mut kept.end, p.group.records.as_slice())?;
    let Some(p) = kept.pending.take() else {
        return Ok(None);
    };
    keep(&mut kept.stored, message)?;
    let touched = kept.end.complete(prepared);
    let met = kept.logged.len();
    let Pending {
        author,
        command,
        group,
        behind,
        taken,
        ..
    } = p;
    kept.logged.push(Logged {
        entry: Entry { author, group },
        behind,
        touched,
    })?;
    Ok(Some(Wrote {
        place: met + 1,
        met,
        command,
        taken,
    }))
}

// Whose entry is pending and runs.
fn running_author(pending: &Option<Pending>) -> Option<u32>
    ensures { result ≡ running_author pending.now }
{
    match pending {
        Some(p) => { if p.running { Some(p.author) } else { None } }
        None => None,
    }
}

/// A running entry is durable, and its author knows so. After `NoMemory`, which is the only error,
/// all is as before.
pub fn sync(kept: &mut Kept) -> Result<(), NoMemory>
    requires { IsKept kept.old }
    ensures ok { OnOk result (kept_world kept.new ≡ happens (kept_world kept.old)
        (happening.Sync)) }
    ensures kept { IsKept kept.new }
    ensures err { OnErr result (plain_of kept.new ≡ plain_of kept.old) }
{
    let Some(author) = running_author(&kept.pending) else {
        return Ok(());
    };
    let wrote = add_entry(kept)?;
    if let Some(at) = place_of(&kept.seats, author) {
        kept.seats[at].wrote = wrote;
    }
    Ok(())
}
