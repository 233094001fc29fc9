//! The message files that no row has any more.

ghost use Rattle.std.specs.Prelude.{◌≡◌, All, IfOk, option_to_list};
ghost use Rattle.dv_model.specs.Journals.{Log};
ghost use Rattle.dv_shelf.specs.Causes.{HasCause};
ghost use Rattle.dv_files.specs.Leavings.{Leaves};
ghost use Rattle.dv_files.specs.Writing.{IsSweeping, Sweeps};
ghost use Rattle.dv_writing.specs.Debts.{Nothing, Stands};
ghost use Rattle.dv_writing.specs.Quiet.{IsQuiet};
ghost use Rattle.dv_writing.specs.Removals as gone;
ghost use Rattle.dv_writing.specs.Removals.{AreUnlisted, IsFree, uid_in, uids_in};

use dv_apply::Live;
use dv_chain::Chain;
use dv_files::sweep;
use dv_model::{List, NoMemory};
use dv_rows::sort_uids;
use dv_shelf::{Failed, Name, Shelf};
use std::alloc::Global;

/// Whether a UID was given out and has no row.
fn is_gone(live: &Live, uid: u32) -> bool
    ensures { result ≡ gone.is_gone live.now.mailbox uid }
{
    let free = live.position(uid).is_none();
    uid < live.next_uid() && free
}

/// The UID of a message file that no row has.
fn gone_uid(live: &Live, name: Name) -> Option<u32>
    ensures { option_to_list result ≡ uid_in live.now.mailbox name }
{
    if let Name::Mail(uid) = name
        && is_gone(live, uid)
    {
        return Some(uid);
    }
    None
}

/// The UIDs of all these files, in the order of their names.
fn gone_uids(alloc: Global, live: &Live, names: &[Name]) -> Result<List<u32>, NoMemory>
    ensures { IfOk result (λ uids. uids ≡ uids_in live.now.mailbox names.now) }
{
    let mut uids = List::new(alloc);
    for name in names {
        if let Some(uid) = gone_uid(live, *name) {
            uids.push(uid)?;
        }
    }
    Ok(uids)
}

/// The UIDs below the UIDNEXT whose message files are among the names of a listing and that have no
/// row, rising, each once. `NoMemory` is the only error.
pub fn unlisted(alloc: Global, live: &Live, names: &List<Name>) -> Result<List<u32>, NoMemory>
    ensures { IfOk result (AreUnlisted live.now.mailbox names.now) }
{
    let mut uids = gone_uids(alloc, live, names.as_slice())?.into_vec();
    sort_uids(&mut uids);
    Ok(List::from_vec(uids))
}

/// Removes the message files of these UIDs, which have no row, in their order. Takes no memory.
/// After `Failed` the files of the first UIDs are gone, of some or all.
pub fn clear<S: Shelf>(chain: &Chain, shelf: &mut S, uids: &[u32]) -> Result<(), Failed>
    requires { All (IsFree chain.now.live.mailbox) uids.now }
    // Behind Ok they are gone; every other file stays.
    ensures leaves { S.sees.tells → Leaves S.sees
        (Sweeps uids.now result) (IsSweeping uids.now) shelf.old shelf.new }
    // What the folder gives stays, at any moment.
    ensures quiet { S.sees.tells → (log : Log) →
        Stands S.sees log Nothing chain.now shelf.old →
        IsQuiet S.sees log chain.now shelf.old shelf.new }
    // No message file is read; an error has its cause.
    ensures mail_reads { S.sees.mail_reads shelf.new ≡ S.sees.mail_reads shelf.old }
    ensures cause { HasCause (S.sees.fault_count shelf.old) (S.sees.fault_count shelf.new) result }
{
    sweep(shelf, uids)
}
