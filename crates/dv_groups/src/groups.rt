ghost use Rattle.std.specs.Prelude.{◌≡◌, ◌-◌, ◌^◌, ℕ, All, IfOk, IsSome, List as Listed, length, min};
ghost use Rattle.dv_model.specs.Effects.{applied};
ghost use Rattle.dv_model.specs.Sessions.{IsCommand, group_of};
ghost use Rattle.dv_model.specs.Spelling.{IsRecord, group_text};
ghost use Rattle.dv_model.specs.Views.{View as Shown};
ghost use Rattle.dv_groups.specs.Changes.{changed_uids, expunged_uids, guid_rows};
ghost use Rattle.dv_groups.specs.Groups.{IsWrite, HasSizes};

use crate::changing::changed_uids;
use crate::checks::check_records;
use crate::lengths::{keywords_length, records_length, store_length};
use crate::ranges::{range_count, ranges_of};
use crate::records::{append_records, expunge_records, store_records};
use dv_model::{Command, Group, GuidRow, List, NoMemory};
use dv_view::{Live, View};
use std::alloc::Global;

/// The group that a command writes, where the messages that it changes were found before:
/// `changed_uids`, and for those that it removes their GUIDs beside the same UIDs. `NoMemory` is
/// the only error.
pub fn group_from(
    alloc: Global,
    c: &Command,
    live: &Live,
    uids: &[u32],
    guids: &[GuidRow],
) -> Result<Group, NoMemory>
    ensures { (view : Shown) (guid : ℕ → Listed ℕ)
        → uids.now ≡ changed_uids c.now view live.now.mailbox
        → guids.now ≡ guid_rows guid (expunged_uids c.now view live.now.mailbox)
        → IfOk result (λ group. group ≡ group_of c.now view live.now.mailbox guid) }
{
    let records = match c {
        Command::Append {
            flags,
            keywords,
            ..
        } => append_records(alloc, live.next_uid(), *flags, keywords.as_slice())?,
        Command::Store {
            how,
            flags,
            keywords,
            ..
        } => {
            let pairs = ranges_of(alloc, uids)?;
            store_records(alloc, *how, *flags, keywords.as_slice(), pairs.as_slice())?
        }
        Command::Expunge => expunge_records(alloc, guids)?,
        Command::UidRemove { .. } => expunge_records(alloc, guids)?,
        Command::Check => check_records(alloc, live)?,
        _ => List::new(alloc),
    };
    Ok(Group { records })
}

/// The group that a command writes over this mailbox, from the view of its session and the GUIDs of
/// the messages that it removes (`expunged_uids`). `NoMemory` is the only error.
pub fn group_of(
    alloc: Global,
    c: &Command,
    view: &View,
    live: &Live,
    guids: &[GuidRow],
) -> Result<Group, NoMemory>
    ensures is { (guid : ℕ → Listed ℕ)
        → guids.now ≡ guid_rows guid (expunged_uids c.now view.now live.now.mailbox)
        → IfOk result (λ group. group ≡ group_of c.now view.now live.now.mailbox guid) }
    // Each record of a write that is allowed has a spelling in bytes.
    ensures records { (guid : ℕ → Listed ℕ) → IsWrite c.now live.now.mailbox guid
        → guids.now ≡ guid_rows guid (expunged_uids c.now view.now live.now.mailbox)
        → IfOk result (λ group. All IsRecord group.records) }
    // The group applies to the mailbox that it was made of.
    ensures applies { (guid : ℕ → Listed ℕ) → IsCommand c.now
        → guids.now ≡ guid_rows guid (expunged_uids c.now view.now live.now.mailbox)
        → IfOk result (λ group. IsSome (applied live.now.mailbox group.records)) }
{
    let uids = changed_uids(alloc, c, view, live)?;
    group_from(alloc, c, live, uids.as_slice(), guids)
}

/// The length of a group's text, where the messages that its command changes were found before. The
/// GUIDs don't count. 2^64 - 1 stands for any larger number. Takes no memory.
pub fn group_length(c: &Command, live: &Live, uids: &[u32]) -> u64
    requires { IsCommand c.now }
    ensures { (view : Shown) (guid : ℕ → Listed ℕ)
        → uids.now ≡ changed_uids c.now view live.now.mailbox → HasSizes guid
        → result ≡ min (length (group_text (group_of c.now view live.now.mailbox guid)))
        (2 ^ 64 - 1) }
{
    match c {
        Command::Append { keywords, .. } => {
            keywords_length(keywords.as_slice(), 1).saturating_add(16)
        }
        Command::Store {
            how,
            flags,
            keywords,
            ..
        } => store_length(*how, *flags, keywords.as_slice(), range_count(uids) as u64),
        Command::Expunge => records_length(0, 20, uids.len() as u64),
        Command::UidRemove { .. } => records_length(0, 20, uids.len() as u64),
        Command::Check => records_length(0, 8, u64::from(live.count())).saturating_add(52),
        _ => 0,
    }
}

/// The length of the text of the group that a command writes over this mailbox, whatever the GUIDs.
/// 2^64 - 1 stands for any larger number. `NoMemory` is the only error. The group isn't made.
pub fn need(alloc: Global, c: &Command, view: &View, live: &Live) -> Result<u64, NoMemory>
    requires { IsCommand c.now }
    ensures { (guid : ℕ → Listed ℕ) → HasSizes guid → IfOk result (λ need. need
        ≡ min (length (group_text (group_of c.now view.now live.now.mailbox guid)))
        (2 ^ 64 - 1)) }
{
    let uids = changed_uids(alloc, c, view, live)?;
    Ok(group_length(c, live, uids.as_slice()))
}
