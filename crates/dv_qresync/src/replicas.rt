ghost use Rattle.std.specs.Prelude.{◌≡◌, IfOk, OnErr, OnOk, map, reverse};
ghost use Rattle.dv_model.specs.declared.types.Mailbox.{Mailbox};
ghost use Rattle.dv_qresync.specs.Laws.{Hears};
ghost use Rattle.dv_qresync.specs.Replicas.{cached, caught_up, heard, old_of, replica_of, span_of};

use crate::merging::Merge;
use crate::ranges::put_before;
use crate::types::{Answer, Cached, Old, Replica};
use dv_model::{End, List, NoMemory, Pair, Row, Span};
use dv_view::{Live, names_at};
use std::alloc::Global;

fn cached(alloc: Global, live: &Live, row: &Row) -> Result<Cached, NoMemory>
    ensures { IfOk result (λ made. made ≡ cached live.now.mailbox row.now) }
{
    Ok(Cached {
        uid: row.uid,
        flags: row.flags % 32,
        keywords: names_at(alloc, live.names(), row.keywords.as_slice())?,
        modseq: row.modseq,
    })
}

/// The replica of a mailbox. `NoMemory` is the only error.
pub fn replica_of(alloc: Global, live: &Live) -> Result<Replica, NoMemory>
    ensures { IfOk result (λ made. made ≡ replica_of live.now.mailbox) }
{
    let mut rows = List::new(alloc);
    for place in 0..live.count() {
        rows.push(cached(alloc, live, live.row(place))?)?;
    }
    Ok(Replica {
        uid_validity: live.uid_validity(),
        highest: live.highest(),
        rows,
    })
}

// Ranges, of which the first stands last, as a set.
fn set_of(alloc: Global, ranges: Vec<Pair>) -> Result<List<Span>, NoMemory>
    ensures { IfOk result (λ set. set ≡ map span_of (reverse ranges.items)) }
{
    let mut ranges = ranges;
    let mut set = List::new(alloc);
    while let Some(range) = ranges.pop() {
        set.push(Span {
            from: End::Number(range.first),
            to: End::Number(range.last),
        })?;
    }
    Ok(set)
}

impl Replica {
    /// Hears one thing. After `NoMemory` all is as before.
    pub fn hear(&mut self, alloc: Global, a: &Answer) -> Result<(), NoMemory>
        ensures ok { OnOk result (self.new ≡ heard self.old a.now) }
        ensures err { OnErr result (self.new ≡ self.old) }
    {
        let mut merge = Merge::of(alloc, self)?;
        merge.hear(alloc, a)?;
        *self = merge.finish()?;
        Ok(())
    }

    /// The state that a client tells of: its numbers, and its UIDs in ranges, as few as there can
    /// be where they rise. `NoMemory` is the only error.
    pub fn old(&self, alloc: Global) -> Result<Old, NoMemory>
        ensures { IfOk result (λ old. old ≡ old_of self.now) }
    {
        let rows = self.rows.as_slice();
        let mut ranges = Vec::new(alloc);
        let mut left = rows.len();
        while left > 0 {
            left -= 1;
            let uid = rows[left].uid;
            put_before(
                &mut ranges,
                Pair {
                    first: uid,
                    last: uid,
                },
            )?;
        }
        Ok(Old {
            uid_validity: self.uid_validity,
            modseq: self.highest,
            uids: set_of(alloc, ranges)?,
        })
    }

    /// Hears all answers in turn (RFC 7162, section 3.2.5). After `NoMemory` all is as before. The
    /// time is that of the rows, the ranges that vanished and the answers, where the FETCHes come
    /// by rising UID, as those of [crate::resync] do.
    pub fn catch_up(&mut self, alloc: Global, answers: &List<Answer>) -> Result<(), NoMemory>
        ensures ok { OnOk result (self.new ≡ caught_up self.old answers.now) }
        // That of a log's mailbox that hears what its state asks becomes that of the later one.
        ensures equal { (m : Mailbox) → Hears self.old answers.now m →
            OnOk result (self.new ≡ replica_of m) }
        ensures err { OnErr result (self.new ≡ self.old) }
    {
        let mut merge = Merge::of(alloc, self)?;
        for a in answers.as_slice() {
            merge.hear(alloc, a)?;
        }
        *self = merge.finish()?;
        Ok(())
    }
}
