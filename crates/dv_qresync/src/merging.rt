ghost use Rattle.std.specs.Prelude.{◌≡◌, ◌++◌, ◌∷◌, [], ℕ, IfOk, OnOk, not, filter, reverse};
ghost use Rattle.dv_model.specs.Effects.{is_in_pairs};
ghost use Rattle.dv_model.specs.Sets.{is_in_set};
ghost use Rattle.dv_sets.specs.Joined.{AreApart};
ghost use Rattle.dv_qresync.specs.Merging.{IsAt, IsMerge, merged, rows_in};
ghost use Rattle.dv_qresync.specs.Replicas.{heard, with_cached};
ghost use Rattle.dv_qresync.specs.declared.types.Cached.{Cached};

use crate::types::{Answer, Cached, Replica};
use dv_model::{Duplicate, End, List, NoMemory, Pair, Span};
use dv_sets::{is_in_joined, join_set};
use std::alloc::Global;

/// A replica while it hears answers: its rows before a place, and those from it on, of which the
/// first stands last. So rows that come by rising UID are put in with one move of each.
#[derive(Drop)]
pub struct Merge {
    pub uid_validity: u32,
    pub highest: u64,
    pub before: Vec<Cached>,
    pub after: Vec<Cached>,
    /// The rows before the place have lower UIDs.
    pub bound: u64,
}

fn copy_of(alloc: Global, row: &Cached) -> Result<Cached, NoMemory>
    ensures { IfOk result (λ made. made ≡ row.now) }
{
    Ok(Cached {
        uid: row.uid,
        flags: row.flags,
        keywords: row.keywords.duplicate(alloc)?,
        modseq: row.modseq,
    })
}

// Ranges of UIDs as a set, without those that have none.
fn spans_of(alloc: Global, pairs: &[Pair]) -> Result<Vec<Span>, NoMemory>
    ensures { IfOk result (λ spans. (star uid : ℕ) →
        is_in_set star spans.items uid ≡ is_in_pairs pairs.now uid) }
{
    let mut spans = Vec::new(alloc);
    for pair in pairs {
        if pair.first <= pair.last {
            spans.push(Span {
                from: End::Number(pair.first),
                to: End::Number(pair.last),
            })?;
        }
    }
    Ok(spans)
}

// Ranges of UIDs as a set in which a UID is found by halves.
fn set_of(alloc: Global, pairs: &[Pair]) -> Result<List<Span>, NoMemory>
    ensures apart { IfOk result AreApart }
    ensures same { IfOk result (λ set. (star uid : ℕ) →
        is_in_set star set uid ≡ is_in_pairs pairs.now uid) }
{
    let spans = spans_of(alloc, pairs)?;
    join_set(alloc, &spans, 0)
}

// Removes the rows whose UIDs are in a set.
fn remove(rows: &mut Vec<Cached>, set: &[Span])
    requires { AreApart set.now }
    ensures { rows.new.items ≡ filter (λ row. not (is_in_set 0 set.now row.uid)) rows.old.items }
{
    rows.retain(|row| !is_in_joined(set, row.uid));
}

// Moves the place to the front of all rows.
fn rewind(merge: &mut Merge) -> Result<(), NoMemory>
    ensures same { OnOk result (merged merge.new ≡ merged merge.old) }
    ensures front { OnOk result (merge.new.before.items ≡ []) }
{
    while let Some(row) = merge.before.pop() {
        merge.after.push(row)?;
    }
    Ok(())
}

// Moves the place to where the rows before it have UIDs below this one.
fn reach(merge: &mut Merge, uid: u32) -> Result<(), NoMemory>
    requires { IsMerge merge.old }
    ensures same { OnOk result (merged merge.new ≡ merged merge.old) }
    ensures at { OnOk result (IsAt uid merge.new) }
{
    if u64::from(uid) >= merge.bound {
        return Ok(());
    }
    rewind(merge)
}

// Moves the place in front of the first row that has a UID or a higher one, and takes that row out
// where it has the UID.
fn pass(merge: &mut Merge, uid: u32) -> Result<(), NoMemory>
    requires { IsAt uid merge.old }
    ensures at { OnOk result (IsAt uid merge.new) }
    ensures rows { OnOk result ((row : Cached) → row.uid ≡ uid →
        with_cached row (rows_in merge.old)
        ≡ merge.new.before.items ++ row ∷ reverse merge.new.after.items) }
    ensures numbers { (merge.new.uid_validity ≡ merge.old.uid_validity)
        × (merge.new.highest ≡ merge.old.highest) }
{
    while let Some(row) = merge.after.pop() {
        if row.uid == uid {
            return Ok(());
        }
        if row.uid > uid {
            merge.after.push(row)?;
            return Ok(());
        }
        merge.before.push(row)?;
    }
    Ok(())
}

impl Merge {
    /// A replica that hears answers from now on.
    pub fn of(alloc: Global, replica: &Replica) -> Result<Merge, NoMemory>
        ensures is { IfOk result (λ merge. merged merge ≡ replica.now) }
        ensures at { IfOk result IsMerge }
    {
        let rows = replica.rows.as_slice();
        let mut after = Vec::with_capacity(alloc, rows.len())?;
        let mut left = rows.len();
        while left > 0 {
            left -= 1;
            after.push(copy_of(alloc, &rows[left])?)?;
        }
        Ok(Merge {
            uid_validity: replica.uid_validity,
            highest: replica.highest,
            before: Vec::new(alloc),
            after,
            bound: 0,
        })
    }

    // Puts a row in the place of the one that has its UID, or in front of those with higher UIDs.
    fn put(&mut self, row: Cached) -> Result<(), NoMemory>
        requires { IsMerge self.old }
        ensures is { OnOk result (merged self.new ≡ record {
          uid_validity = self.old.uid_validity;
          highest = self.old.highest;
          rows = with_cached row (rows_in self.old);
        }) }
        ensures at { OnOk result (IsMerge self.new) }
    {
        reach(self, row.uid)?;
        pass(self, row.uid)?;
        self.bound = u64::from(row.uid) + 1;
        self.before.push(row)?;
        Ok(())
    }

    /// Hears one answer.
    pub fn hear(&mut self, alloc: Global, a: &Answer) -> Result<(), NoMemory>
        requires { IsMerge self.old }
        ensures is { OnOk result (merged self.new ≡ heard (merged self.old) a.now) }
        ensures at { OnOk result (IsMerge self.new) }
    {
        match a {
            Answer::Stale(validity) => {
                self.uid_validity = *validity;
                self.before.clear();
                self.after.clear();
            }
            Answer::Vanished(pairs) => {
                let set = set_of(alloc, pairs.as_slice())?;
                remove(&mut self.before, set.as_slice());
                remove(&mut self.after, set.as_slice());
            }
            Answer::Highest(n) => self.highest = *n,
            Answer::Fetch {
                number: _,
                uid,
                flags,
                keywords,
                modseq,
            } => {
                return self.put(Cached {
                    uid: *uid,
                    flags: *flags,
                    keywords: keywords.duplicate(alloc)?,
                    modseq: *modseq,
                });
            }
        }
        Ok(())
    }

    /// The replica that it has become.
    pub fn finish(self) -> Result<Replica, NoMemory>
        ensures { IfOk result (λ replica. replica ≡ merged self) }
    {
        let Merge {
            uid_validity,
            highest,
            before,
            after,
            bound: _,
        } = self;
        let mut rows = before;
        let mut rest = after;
        while let Some(row) = rest.pop() {
            rows.push(row)?;
        }
        Ok(Replica {
            uid_validity,
            highest,
            rows: List::from_vec(rows),
        })
    }
}
