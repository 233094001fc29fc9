ghost use Rattle.std.specs.Prelude.{◌≡◌, ◌+◌, ◌<◌, ◌≤◌, IfOk, None, OnErr, OnOk, Some, false, length, map, nat_eq, option_map, slice_get, slice_set, true};
ghost use Rattle.dv_interleavings.specs.Worlds.{guid_of, happens, may_write};
ghost use Rattle.dv_interleavings.specs.Worlds as happening;
ghost use Rattle.dv_world.specs.Keeping.{IsKept, Stays, kept_log};
ghost use Rattle.dv_world.specs.Writing.{IsWritten, done_at, halted, tried_by};
ghost use Rattle.dv_world.specs.declared.kept.Seat.{Seat as Seated};
ghost use Rattle.dv_world.specs.Shapes.{kept_world, plain_of, session_of, state_of, stored_of};
ghost use Rattle.dv_model.specs.declared.types.Group.{Group as AnyGroup};
ghost use Rattle.dv_model.specs.Journals.{last_file_seq, mark_behind};
ghost use Rattle.dv_model.specs.Sessions.{IsCommand, group_limit, is_write, log_limit};
ghost use Rattle.dv_model.specs.Spelling.{group_text};
ghost use Rattle.dv_answer.specs.Refusing.{own_refusal};
ghost use Rattle.dv_groups.specs.Changes.{expunged_uids, guid_rows};

use crate::kept::{Kept, Pending, Seat, Stored, Wrote};
use crate::marks::mark_of;
use crate::messages::guid_of;
use crate::seats::place_of;
use dv_apply::Live;
use dv_groups::{expunged_uids, group_of, limit_of, need};
use dv_model::{Command, Group, GuidRow, List, Mark, NoMemory};
use dv_responses::{Met, is_write, meet};
use dv_view::View;
use std::alloc::Global;

// The UIDs that the command removes, with their GUIDs.
fn guid_rows(
    alloc: Global,
    c: &Command,
    view: &View,
    live: &Live,
    stored: &[Stored],
) -> Result<List<GuidRow>, NoMemory>
    ensures { IfOk result (λ rows. rows ≡ guid_rows (guid_of (map stored_of stored.now))
        (expunged_uids c.now view.now live.now.mailbox)) }
{
    let uids = expunged_uids(alloc, c, view, live)?;
    let mut rows = List::new(alloc);
    for uid in uids.as_slice() {
        rows.push(GuidRow {
            uid: *uid,
            guid: guid_of(stored, *uid),
        })?;
    }
    Ok(rows)
}

// A file that ends here or later is rotated before the next group, but for the last number.
const ROTATE_AT: u32 = 131_072;

const LAST_FILE_SEQ: u32 = 4_294_967_295;

const HEADER_SIZE: u32 = 40;

// The place behind a group of so many bytes that is written at this one.
fn mark_behind(mark: Mark, size: u32) -> Mark
    requires short { size ≤ group_limit }
    requires fits { mark.file_seq ≡ last_file_seq → mark.offset + size ≤ log_limit }
    ensures { (g : AnyGroup) → length (group_text g) ≡ size → result ≡ mark_behind true mark g }
{
    if mark.offset >= ROTATE_AT && mark.file_seq < LAST_FILE_SEQ {
        return Mark {
            file_seq: mark.file_seq + 1,
            offset: HEADER_SIZE + size,
        };
    }
    Mark {
        file_seq: mark.file_seq,
        offset: mark.offset + size,
    }
}

// Whether the session may write now.
fn may_write(kept: &Kept, seat: &Seat, c: &Command) -> bool
    ensures { result ≡ may_write (kept_world kept.now) (session_of seat.now) c.now }
{
    is_write(c) && kept.published == kept.logged.len() && seat.wrote.is_none()
}

// What a command writes: its group, the place behind it, and what it takes.
#[derive(Drop)]
struct Made {
    group: Group,
    behind: Mark,
    taken: Met,
    command: Command,
}

// What the session writes, unless it is refused.
fn written(kept: &Kept, seat: &Seat, c: &Command) -> Result<Option<Made>, NoMemory>
    requires kept { IsKept kept.now }
    requires named { IsCommand c.now }
    requires write { is_write c.now ≡ true }
    requires allowed { own_refusal seat.now.session.state c.now ≡ None }
    ensures { IfOk result (λ made. IsWritten (kept_log kept.now) (state_of seat.now) c.now
        kept.now.end.mailbox made) }
{
    let view = seat.session.view();
    let live = &kept.end;
    let mark = mark_of(kept, kept.logged.len());
    let size = need(kept.alloc, c, view, live)?;
    if size == u64::MAX {
        return Err(NoMemory);
    }
    if limit_of(c, live, true, mark, size).is_some() {
        return Ok(None);
    }
    let guids = guid_rows(kept.alloc, c, view, live, &kept.stored)?;
    Ok(Some(Made {
        group: group_of(kept.alloc, c, view, live, guids.as_slice())?,
        behind: mark_behind(mark, size as u32),
        taken: meet(kept.alloc, c, view, live)?,
        command: c.copy(kept.alloc)?,
    }))
}

/// A session writes the group of its command, which is pending then, in place of an older one; an
/// empty group is done at once. After `NoMemory`, which is the only error, all is as before.
pub fn write(kept: &mut Kept, number: u32, c: &Command, received: u32) -> Result<(), NoMemory>
    requires kept { IsKept kept.old }
    requires named { IsCommand c.now }
    ensures ok { OnOk result (kept_world kept.new ≡ happens (kept_world kept.old)
        (happening.Write number c.now received)) }
    ensures kept { IsKept kept.new }
    ensures err { OnErr result (plain_of kept.new ≡ plain_of kept.old) }
{
    let Some(at) = place_of(&kept.seats, number) else {
        return Ok(());
    };
    let seat = &kept.seats[at];
    if !may_write(kept, seat, c) {
        return Ok(());
    }
    if seat.session.refuse(c).is_some() {
        return Ok(());
    }
    let Some(made) = written(kept, seat, c)? else {
        return Ok(());
    };
    take_made(kept, at, number, received, made);
    Ok(())
}

// What is pending no longer runs.
fn halt(pending: &mut Option<Pending>)
    ensures { pending.new ≡ option_map halted pending.old }
{
    if let Some(p) = pending {
        p.running = false;
    }
}

// What was written is pending, or done.
fn take_made(kept: &mut Kept, at: usize, author: u32, received: u32, made: Made)
    requires { at < length kept.old.seats.items }
    ensures stays { Stays kept.old kept.new }
    ensures tried { nat_eq (length made.group.records) 0 ≡ false →
        (kept.new.pending ≡ Some (tried_by author received made))
        × (kept.new.seats ≡ kept.old.seats) }
    ensures done { nat_eq (length made.group.records) 0 ≡ true →
        (kept.new.pending ≡ option_map halted kept.old.pending)
        × ((seat : Seated) → slice_get kept.old.seats.items at ≡ Some seat →
        kept.new.seats.items ≡ slice_set kept.old.seats.items at
        (record seat { wrote = Some (done_at (length kept.old.logged.items) made) })) }
{
    let Made {
        group,
        behind,
        taken,
        command,
    } = made;
    if !group.records.is_empty() {
        kept.pending = Some(Pending {
            author,
            command,
            group,
            received,
            running: true,
            behind,
            taken,
        });
        return;
    }
    halt(&mut kept.pending);
    let place = kept.logged.len();
    kept.seats[at].wrote = Some(Wrote {
        place,
        met: place,
        command,
        taken,
    });
}
