//! The GUIDs of messages: of those that a command removes, and of the one that it appends.

ghost use Rattle.std.specs.Prelude.{◌≡◌, IfOk, length};
ghost use Rattle.dv_model.specs.Journals.{new_guid};
ghost use Rattle.dv_chain.specs.Openings.{OnlyLooks};
ghost use Rattle.dv_files.specs.Reading.{guid_rows};
ghost use Rattle.dv_files.specs.Leavings.{HasFaultCause};
ghost use Rattle.dv_plans.specs.Counts.{CountsMails};
ghost use Rattle.dv_plans.specs.Guids.{AreGuidsOf, removed_of};

use crate::fault::told;
use dv_files::{ChainFault, guids_of};
use dv_groups::removes;
use dv_model::{Command, GuidRow, List};
use dv_shelf::Shelf;
use std::alloc::Global;

/// Of the messages that a command changes those that it removes, each with the GUID of its message
/// file: sixteen zero bytes where that is damaged or has none. Reads each file once, in the order
/// of the UIDs, and writes nothing.
pub fn removed_guids<S: Shelf>(
    alloc: Global,
    c: &Command,
    uids: &[u32],
    shelf: &mut S,
) -> Result<List<GuidRow>, ChainFault>
    // The GUIDs beside the UIDs.
    ensures beside { IfOk result (AreGuidsOf (removed_of c.now uids.now)) }
    ensures rows { S.sees.tells → IfOk result
        (λ rows. rows ≡ guid_rows (S.sees.files shelf.old) (removed_of c.now uids.now)) }
    // Nothing is changed.
    ensures looks { S.sees.tells →
        OnlyLooks S.sees shelf.old shelf.new }
    // Each of these message files is read once; a fault of the disk has its cause.
    ensures mail_reads { CountsMails (length (removed_of c.now uids.now))
        (S.sees.mail_reads shelf.old) (S.sees.mail_reads shelf.new) result }
    ensures cause { HasFaultCause (S.sees.fault_count shelf.old) (S.sees.fault_count shelf.new)
        result }
{
    if !removes(c) {
        return Ok(List::new(alloc));
    }
    match guids_of(alloc, shelf, uids) {
        Ok(rows) => Ok(rows),
        Err(fault) => Err(told(shelf, fault)),
    }
}

/// The GUID of an appended message: which mailbox, by the numbers of its index and its UIDVALIDITY,
/// which UID, and when it came, in seconds since 1970, each as four bytes, the most significant
/// first.
pub fn message_guid(indexid: u32, uid_validity: u32, uid: u32, received: u32) -> [u8; 16]
    ensures { result ≡ new_guid indexid uid_validity uid received }
{
    let [a, b, c, d] = indexid.to_be_bytes();
    let [e, f, g, h] = uid_validity.to_be_bytes();
    let [i, j, k, l] = uid.to_be_bytes();
    let [m, n, o, p] = received.to_be_bytes();
    [a, b, c, d, e, f, g, h, i, j, k, l, m, n, o, p]
}
