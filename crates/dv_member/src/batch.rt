ghost use Rattle.std.specs.Prelude.{◌≡◌, ◌++◌, ℕ, All, IfOk, OnOk, Some, flat_map};
ghost use Rattle.dv_model.specs.declared.types.Mailbox.{Mailbox};
ghost use Rattle.dv_model.specs.Effects.{applied};
ghost use Rattle.dv_model.specs.Spelling.{IsRecord};
ghost use Rattle.dv_apply.specs.Preparing.{IsPrepared, Makes};
ghost use Rattle.dv_feed.specs.Feeds.{AreWordsFrom};
ghost use Rattle.dv_member.specs.Batches.{Adds, Leads};

use crate::mirror::Mirror;
use dv_apply::Prepared;
use dv_feed::{groups_of, mark_behind_words};
use dv_model::{Entry, List, Mark, NoMemory, Record};
use dv_touched::Touched;
use std::alloc::Global;

/// Records of entries that a session is yet to see, in turn, and where they end.
#[derive(Drop)]
pub(crate) struct Batch {
    pub(crate) records: Vec<Record>,
    /// The place behind them.
    pub(crate) mark: Mark,
    /// How many entries the log has up to there.
    pub(crate) seen: u64,
}

/// What makes a session see entries: it takes no memory to show it.
#[derive(Drop)]
pub(crate) struct Ready {
    pub(crate) prepared: Prepared,
    /// All UIDs of which it is to be told then.
    pub(crate) touched: Touched,
    pub(crate) mark: Mark,
    pub(crate) seen: u64,
}

// Adds the records of these entries.
fn add_records(entries: List<Entry>, records: &mut Vec<Record>) -> Result<(), NoMemory>
    ensures { OnOk result (records.new.items
        ≡ records.old.items ++ flat_map (λ e. e.group.records) entries) }
{
    for entry in entries.into_vec() {
        let mut more = entry.group.records.into_vec();
        records.append(&mut more)?;
    }
    Ok(())
}

/// Adds the entries that have these words. `NoMemory` is the only error; it comes also where the
/// log has more entries than 64 bits count.
pub(crate) fn add_words(alloc: Global, batch: &mut Batch, words: &List<u32>) -> Result<(), NoMemory>
    requires { AreWordsFrom batch.old.mark words.now }
    ensures { OnOk result (Adds words.now batch.old batch.new) }
{
    let entries = groups_of(alloc, words)?;
    let Some(seen) = batch.seen.checked_add(entries.len() as u64) else {
        return Err(NoMemory);
    };
    add_records(entries, &mut batch.records)?;
    batch.mark = mark_behind_words(batch.mark, words);
    batch.seen = seen;
    Ok(())
}

/// Takes all the memory that the batch asks for. After `NoMemory`, which is the only error, the
/// mailbox and what was told are as before.
pub(crate) fn make_ready(m: &mut Mirror, batch: Batch) -> Result<Ready, NoMemory>
    requires { All IsRecord batch.records.items }
    ensures mailbox { m.new.live.mailbox ≡ m.old.live.mailbox }
    ensures same { m.new ≡ record m.old { live = m.new.live } }
    ensures ends { IfOk result (λ r. (r.mark ≡ batch.mark) × (r.seen ≡ batch.seen)) }
    ensures leads { IfOk result (λ r. (after : Mailbox)
        → applied m.old.live.mailbox batch.records.items ≡ Some after → Leads m.new after r) }
{
    let Batch {
        records,
        mark,
        seen,
    } = batch;
    let prepared = match m.live.prepare(&records) {
        Ok(prepared) => prepared,
        // An entry's records aren't refused.
        Err(_) => return Err(NoMemory),
    };
    let touched = m.session.touched_with(prepared.touched())?;
    Ok(Ready {
        prepared,
        touched,
        mark,
        seen,
    })
}

/// Shows what was made ready. Takes no memory.
pub(crate) fn show(m: &mut Mirror, ready: Ready)
    requires { IsPrepared m.old.live ready.prepared }
    ensures live { (after : Mailbox) → Makes m.old.live ready.prepared after
        → m.new.live.mailbox ≡ after }
    ensures rest { m.new ≡ record m.old {
      seen = ready.seen;
      live = m.new.live;
      mark = ready.mark;
      session = record m.old.session { touched = ready.touched };
    } }
{
    let Ready {
        prepared,
        touched,
        mark,
        seen,
    } = ready;
    m.live.complete(prepared);
    m.session.replace_touched(touched);
    m.mark = mark;
    m.seen = seen;
}
