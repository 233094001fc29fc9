ghost use Rattle.std.specs.Prelude.{◌≡◌, ◌≤◌, [], IfOk};
ghost use Rattle.dv_model.specs.Mailboxes.{IsValid};
ghost use Rattle.dv_formats.specs.Snapshots.{IsSnapshot};
ghost use Rattle.dv_index.specs.Fronts.{HasCounts, with_rows};
ghost use Rattle.dv_files.specs.Texts.{IsSnapshotOf};

use dv_chain::{Chain, Live};
use dv_index::{Tally, begin, write_row};
use dv_model::{Bytes, Duplicate, List, Mailbox, Mark, NoMemory};
use std::alloc::Global;

// A copy of the mailbox without its rows.
fn head_of(alloc: Global, live: &Live) -> Result<Mailbox, NoMemory>
    ensures is { IfOk result (λ head. head ≡ with_rows [] live.now.mailbox) }
    ensures valid { IsValid live.now.mailbox }
{
    let extensions = live.extensions();
    Ok(Mailbox {
        uid_validity: live.uid_validity(),
        next_uid: live.next_uid(),
        rows: List::new(alloc),
        keywords: live.names().list(alloc)?,
        extensions: extensions.list().duplicate(alloc)?,
        current: extensions.current(),
        highest: live.highest(),
    })
}

fn tally_of(live: &Live) -> Tally
    ensures { HasCounts result live.now.mailbox.rows }
{
    Tally {
        rows: live.count(),
        seen: live.seen(),
        deleted: live.deleted(),
    }
}

/// The text of the snapshot of a live mailbox at a place of the log, written row by row.
/// `NoMemory` is the only error; that is the answer too where the keywords and extensions would
/// pass 4294967295 bytes.
pub fn snapshot_at(alloc: Global, live: &Live, indexid: u32, mark: Mark) -> Result<Bytes, NoMemory>
    requires { 1 ≤ indexid }
    ensures { IfOk result (IsSnapshot 2 live.now.mailbox indexid mark) }
{
    let head = head_of(alloc, live)?;
    let mut text = begin(alloc, &head, tally_of(live), indexid, mark)?;
    for k in 0..live.count() {
        write_row(alloc, &head, live.row(k), &mut text)?;
    }
    Ok(text)
}

/// The text of the snapshot of a chain's mailbox at the end of its log. `NoMemory` is the only
/// error; that is the answer too where the keywords and extensions would pass 4294967295 bytes.
pub fn snapshot(alloc: Global, chain: &Chain) -> Result<Bytes, NoMemory>
    requires named { 1 ≤ chain.now.indexid }
    ensures text { IfOk result (IsSnapshotOf chain.now) }
{
    let mark = Mark {
        file_seq: chain.log.file_seq,
        offset: chain.log.end,
    };
    snapshot_at(alloc, &chain.live, chain.indexid, mark)
}
