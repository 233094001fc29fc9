//! Which of the kept messages have each keyword: found in one pass over them, whatever the table.

ghost use Rattle.std.specs.Prelude.{◌≡◌, ◌<◌, ◌++◌, ℕ, All, IfOk, OnOk, List as Listed, length, flat_map};
ghost use Rattle.std.specs.List.{enumerate_from};
ghost use Rattle.std.specs.List.Sorted.{IsStrictlyIncreasing};
ghost use Rattle.dv_model.specs.Mailboxes.{IsValid};
ghost use Rattle.dv_openings.specs.Salvages.{keyword_records};
ghost use Rattle.dv_rebuild.specs.Keywords.{AreEmpty, AreUids, Notes};

use dv_apply::Live;
use dv_groups::{add_keyword_update, ranges_of};
use dv_model::{How, List, NoMemory, Record};
use std::alloc::Global;

/// So many empty lists.
fn empty_lists(alloc: Global, count: u32) -> Result<Vec<List<u32>>, NoMemory>
    ensures { IfOk result (λ lists. AreEmpty count lists.items) }
{
    let mut lists = Vec::new(alloc);
    for _k in 0..count {
        lists.push(List::new(alloc))?;
    }
    Ok(lists)
}

/// Adds a UID to the lists at these places.
fn note(lists: &mut [List<u32>], uid: u32, places: &[u32]) -> Result<(), NoMemory>
    requires rising { IsStrictlyIncreasing places.now }
    requires inside { All (λ p. p < length lists.old) places.now }
    ensures { OnOk result (Notes uid places.now lists.old lists.new) }
{
    for place in places {
        lists[*place as usize].push(uid)?;
    }
    Ok(())
}

/// For each keyword of the table, the UIDs of the kept messages that have it. `NoMemory` is the
/// only error. The time is that of finding each message by halves, and of their keywords.
fn uids_by_keyword(alloc: Global, live: &Live, kept: &[u32]) -> Result<Vec<List<u32>>, NoMemory>
    requires { IsValid live.now.mailbox }
    ensures { IfOk result (λ lists. AreUids live.now.mailbox kept.now lists.items) }
{
    let mut lists = empty_lists(alloc, live.names().count())?;
    for uid in kept {
        if let Some(at) = live.position(*uid) {
            note(&mut lists, *uid, live.row(at).keywords.as_slice())?;
        }
    }
    Ok(lists)
}

/// Adds the records that give the kept messages their keywords, in the table's order.
pub fn add_keywords(
    alloc: Global,
    live: &Live,
    kept: &[u32],
    records: &mut List<Record>,
) -> Result<(), NoMemory>
    requires { IsValid live.now.mailbox }
    ensures { OnOk result (records.new ≡ records.old
        ++ flat_map (keyword_records live.now.mailbox kept.now)
        (enumerate_from 0 live.now.mailbox.keywords)) }
{
    let lists = uids_by_keyword(alloc, live, kept)?;
    for k in 0..live.names().count() {
        let pairs = ranges_of(alloc, lists[k as usize].as_slice())?;
        let name = live.names().name(k);
        add_keyword_update(alloc, How::Add, name, pairs.as_slice(), records)?;
    }
    Ok(())
}
