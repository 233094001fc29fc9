//! What comes before a group: the rotation that is due, and the files.

ghost use Rattle.std.specs.Prelude.{◌≡◌, IfOk, is_some, length};
ghost use Rattle.dv_chain.specs.Openings.{HasBounds, OnlyLooks};
ghost use Rattle.dv_writing.specs.Repairing.{IsOwing};
ghost use Rattle.dv_files.specs.Writing.{IsFileOf};
ghost use Rattle.dv_files.specs.Leavings.{HasFaultCause};
ghost use Rattle.dv_plans.specs.Befores.{HasFewRows, IsBefore, IsRead, ReadsFor};
ghost use Rattle.dv_plans.specs.Begins.{turns};
ghost use Rattle.dv_plans.specs.Counts.{CountsMails};
ghost use Rattle.dv_plans.specs.Files.{AreFewFiles, guid_for, new_file};
ghost use Rattle.dv_plans.specs.Guids.{removed_of};

use crate::guids::{message_guid, removed_guids};
use crate::renewals::before_check;
use crate::times::Times;
use crate::turns::turn_at;
use dv_chain::Chain;
use dv_files::{ChainFault, Turn, mail_text};
use dv_model::{Bytes, Command, GuidRow, List, NoMemory};
use dv_shelf::Shelf;
use dv_writing::Files;
use std::alloc::Global;

/// What is read and made before a group.
#[derive(Drop)]
pub struct Before {
    /// The messages that the command removes, with the GUIDs of their files.
    pub guids: List<GuidRow>,
    /// The rotation, where one is due.
    pub turn: Option<Turn>,
    /// The files that are written or removed.
    pub files: Files,
}

/// The file of an appended message, which is made and received now, in seconds since 1970.
fn message_file(
    alloc: Global,
    chain: &Chain,
    message: &Bytes,
    received: u32,
) -> Result<Bytes, NoMemory>
    ensures text { IfOk result (λ text. text ≡ new_file chain.now received message.now) }
    ensures file { IfOk result (IsFileOf message.now (guid_for chain.now received)) }
{
    let live = &chain.live;
    let guid = message_guid(
        chain.indexid,
        live.uid_validity(),
        live.next_uid(),
        received,
    );
    mail_text(alloc, &guid, received, message.as_slice())
}

/// The files of a command that is no CHECK: that of an appended message.
fn files_of(alloc: Global, c: &Command, chain: &Chain, received: u32) -> Result<Files, NoMemory>
    ensures { IfOk result (AreFewFiles chain.now received c.now) }
{
    match c {
        Command::Append { message, .. } => {
            let text = message_file(alloc, chain, message, received)?;
            Ok(Files::Message(text))
        }
        _ => Ok(Files::Nothing),
    }
}

/// What comes before the group of a command that is no CHECK: reads the files of the messages that
/// it removes, by rising UID, and then the log, where it is rotated.
fn before_change<S: Shelf>(
    alloc: Global,
    c: &Command,
    uids: &[u32],
    chain: &Chain,
    owed: &Option<Turn>,
    times: Times,
    shelf: &mut S,
) -> Result<Before, ChainFault>
    requires change { c.now ≡ Command.Check → ⊥ }
    requires owing { IsOwing chain.now owed.now }
    requires turn { is_some times.turn ≡ turns owed.now chain.now }
    ensures is { IfOk result (IsBefore c.now uids.now owed.now chain.now times) }
    ensures read { S.sees.tells → IfOk result
        (IsRead c.now uids.now chain.now times.received (S.sees.files shelf.old)) }
    // Nothing is changed.
    ensures looks { S.sees.tells →
        OnlyLooks S.sees shelf.old shelf.new }
    // Each of these message files is read once; a fault of the disk has its cause.
    ensures mail_reads { CountsMails (length (removed_of c.now uids.now))
        (S.sees.mail_reads shelf.old) (S.sees.mail_reads shelf.new) result }
    ensures cause { HasFaultCause (S.sees.fault_count shelf.old) (S.sees.fault_count shelf.new)
        result }
{
    let guids = removed_guids(alloc, c, uids, shelf)?;
    let turn = turn_at(alloc, chain, shelf, times.turn)?;
    let files = files_of(alloc, c, chain, times.received)?;
    Ok(Before { guids, turn, files })
}

/// What comes before the group of a command, where the messages that it changes were found before.
/// Takes all memory for it; reads for a CHECK the cache file, then message files by rising UID,
/// then the log, where it is rotated, and for a CHECK lists the folder.
pub fn read_before<S: Shelf>(
    alloc: Global,
    c: &Command,
    uids: &[u32],
    chain: &Chain,
    owed: &Option<Turn>,
    times: Times,
    shelf: &mut S,
) -> Result<Before, ChainFault>
    requires few { HasFewRows c.now chain.now.live.mailbox }
    requires owing { IsOwing chain.now owed.now }
    requires turn { is_some times.turn ≡ turns owed.now chain.now }
    ensures is { IfOk result (IsBefore c.now uids.now owed.now chain.now times) }
    ensures read { S.sees.tells → IfOk result
        (IsRead c.now uids.now chain.now times.received (S.sees.files shelf.old)) }
    // Nothing is changed.
    ensures looks { S.sees.tells →
        OnlyLooks S.sees shelf.old shelf.new }
    // Each of these message files is read once, by a CHECK at most those that the cache file lacks;
    // a fault of the disk has its cause.
    ensures mail_reads { ReadsFor S.sees c.now chain.now uids.now shelf.old shelf.new
        (λ n before now. CountsMails n before now result) }
    ensures cause { HasFaultCause (S.sees.fault_count shelf.old) (S.sees.fault_count shelf.new)
        result }
{
    match c {
        Command::Check => before_check(alloc, chain, owed, times, shelf),
        _ => before_change(alloc, c, uids, chain, owed, times, shelf),
    }
}
