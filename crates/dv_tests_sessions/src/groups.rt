ghost use Rattle.std.specs.Prelude.{IfOk};
ghost use Rattle.dv_model.specs.Sessions.{IsCommand};

use crate::cases::{Case, all_hold};
use crate::mailboxes::live_of;
use dv_apply::Live;
use dv_groups::{Limit, expunged_uids, group_of, limit_of, need};
use dv_model::{Body, Command, End, GuidRow, List, Mark, NoMemory, Record, Span};
use dv_view::View;
use std::alloc::Global;
use std::test::Fail;

const APPEND_1: &[u8] = b"\x80\x80\x80\x84\x02\0\0\x10\x01\0\0\0\0\0\0\0";

// UID 1 gets the flag Seen.
const SEE_1: &[u8] = b"\x80\x80\x80\x85\x04\0\0\x10\x01\0\0\0\x01\0\0\0\x08\0\0\0";

// Nine messages, of which the last five have the flag Deleted.
const NINE: &[u8] = &[
    0x80, 0x80, 0x80, 0x94, 2, 0, 0, 0x10, //
    1, 0, 0, 0, 0, 0, 0, 0, 2, 0, 0, 0, 0, 0, 0, 0, 3, 0, 0, 0, 0, 0, 0, 0, //
    4, 0, 0, 0, 0, 0, 0, 0, 5, 0, 0, 0, 4, 0, 0, 0, 6, 0, 0, 0, 4, 0, 0, 0, //
    7, 0, 0, 0, 4, 0, 0, 0, 8, 0, 0, 0, 4, 0, 0, 0, 9, 0, 0, 0, 4, 0, 0, 0,
];

// The GUID of UID 1 that came at 1001 into the mailbox 1000 with the UIDVALIDITY 1000.
const GUID_1: [u8; 16] = [0, 0, 3, 0xe8, 0, 0, 3, 0xe8, 0, 0, 0, 1, 0, 0, 3, 0xe9];

/// A command that removes messages.
#[derive(Clone, Copy)]
pub enum Asked {
    Expunge,
    /// The first and the last UID.
    Remove(u32, u32),
}

/// The records of a mailbox and what is asked of it; the UIDs that leave then, how many bytes the
/// group has, and where that is looked at, the message of its only record, which has that GUID.
pub struct Removal {
    pub records: &'static [&'static [u8]],
    pub asked: Asked,
    pub uids: &'static [u32],
    pub bytes: u64,
    pub removed: Option<u32>,
}

fn command_of(alloc: Global, asked: Asked) -> Result<Command, NoMemory>
    ensures { IfOk result IsCommand }
{
    match asked {
        Asked::Expunge => Ok(Command::Expunge),
        Asked::Remove(first, last) => {
            let span = Span {
                from: End::Number(first),
                to: End::Number(last),
            };
            let set = List::from_slice(alloc, &[span])?;
            Ok(Command::UidRemove { set })
        }
    }
}

// Whether the record removes one message, with this GUID.
fn removes_one(record: &Record, uid: u32, guid: &[u8; 16]) -> bool {
    match &record.body {
        Body::ExpungeGuid(rows) => match rows.as_slice() {
            [row] => row.uid == uid && row.guid.as_slice() == guid.as_slice(),
            _ => false,
        },
        _ => false,
    }
}

// Whether the group has one record, which removes this message.
fn removes(
    alloc: Global,
    c: &Command,
    view: &View,
    live: &Live,
    removed: Option<u32>,
) -> Result<bool, NoMemory> {
    let Some(uid) = removed else {
        return Ok(true);
    };
    let rows = [GuidRow { uid, guid: GUID_1 }];
    let group = group_of(alloc, c, view, live, &rows)?;
    match group.records.as_slice() {
        [record] => Ok(removes_one(record, uid, &GUID_1)),
        _ => Ok(false),
    }
}

fn are_expunged(
    alloc: Global,
    c: &Command,
    view: &View,
    live: &Live,
    expected: &[u32],
) -> Result<bool, NoMemory> {
    let uids = expunged_uids(alloc, c, view, live)?;
    Ok(uids.as_slice() == expected)
}

fn is_group(
    alloc: Global,
    c: &Command,
    view: &View,
    live: &Live,
    removal: &Removal,
) -> Result<bool, NoMemory>
    requires { IsCommand c.now }
{
    Ok(
        need(alloc, c, view, live)? == removal.bytes
            && are_expunged(alloc, c, view, live, removal.uids)?
            && removes(alloc, c, view, live, removal.removed)?,
    )
}

// Of a view, a mailbox and a command each has one owner, so that each is let go in one place.
fn leaves_of(alloc: Global, view: &View, live: &Live, removal: &Removal) -> Result<bool, NoMemory> {
    let c = command_of(alloc, removal.asked)?;
    is_group(alloc, &c, view, live, removal)
}

fn leaves_in(alloc: Global, live: &Live, removal: &Removal) -> Result<bool, NoMemory> {
    let view = View::of(alloc, live)?;
    leaves_of(alloc, &view, live, removal)
}

/// Whether these messages leave, in a group of so many bytes.
pub fn leaves(alloc: Global, removal: &Removal) -> Result<bool, NoMemory> {
    let live = live_of(alloc, 1, removal.records)?;
    leaves_in(alloc, &live, removal)
}

/// The limit that a CHECK of so many bytes meets near the end of the last file.
pub fn limit_at(alloc: Global, bytes: u64) -> Option<Limit> {
    let live = Live::empty(alloc, 1000);
    let last = Mark {
        file_seq: 4_294_967_295,
        offset: 1_073_741_800,
    };
    limit_of(&Command::Check, &live, true, last, bytes)
}

const CASES: [(&str, Case); 4] = [
    (
        "nine messages lose the deleted ones",
        Case::Removes(Removal {
            records: &[NINE],
            asked: Asked::Expunge,
            uids: &[5, 6, 7, 8, 9],
            bytes: 108,
            removed: None,
        }),
    ),
    (
        "a named message is removed",
        Case::Removes(Removal {
            records: &[APPEND_1, SEE_1],
            asked: Asked::Remove(1, 5),
            uids: &[1],
            bytes: 28,
            removed: Some(1),
        }),
    ),
    ("the longest group", Case::Fits(20)),
    ("a group that is too long", Case::IsTooLong(21)),
];

#[test]
fn groups_remove_messages_and_end_at_the_limit(rt: HostRuntime) -> Result<(), Fail> {
    all_hold(rt.alloc(), &CASES)
}
