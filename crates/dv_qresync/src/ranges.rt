ghost use Rattle.std.specs.Prelude.{◌≡◌, ◌<◌, ◌≤◌, ℕ, All, IfNone, IfOk, IfSome, OnOk, length, reverse, ◌-◌};
ghost use Rattle.dv_model.specs.Effects.{is_in_pairs};
ghost use Rattle.dv_model.specs.Mailboxes.{IsValid};
ghost use Rattle.dv_model.specs.Sets.{end_value, is_in_set};
ghost use Rattle.dv_ranges.specs.Ranges.{ArePairsApart};
ghost use Rattle.dv_qresync.specs.Answers.{gone_ranges};
ghost use Rattle.dv_qresync.specs.Ranges.{AreBefore, AreBehind, IsUidBefore, IsWithin, free_uids, uids_of, with_uids};

use dv_model::{End, List, NoMemory, Pair, Span};
use dv_ranges::join_pairs;
use dv_view::Live;
use std::alloc::Global;

// The number that an end of a range is, where `*` is this one.
fn end_value(end: End, star: u32) -> u32
    ensures { result ≡ end_value star end }
{
    match end {
        End::Number(n) => n,
        End::Star => star,
    }
}

// The ranges of a set, the lower end first, as far as they are of numbers from 1 on up to one,
// which is also what `*` is.
fn pairs_within(alloc: Global, set: &[Span], star: u32) -> Result<Vec<Pair>, NoMemory>
    ensures within { IfOk result (λ pairs. All (IsWithin star) pairs.items) }
    ensures same { IfOk result (λ pairs. (n : ℕ) → 1 ≤ n → n ≤ star →
        is_in_pairs pairs.items n ≡ is_in_set star set.now n) }
{
    let mut pairs = Vec::new(alloc);
    for span in set {
        let from = end_value(span.from, star);
        let to = end_value(span.to, star);
        let first = from.min(to).max(1);
        let last = from.max(to).min(star);
        if first <= last {
            pairs.push(Pair { first, last })?;
        }
    }
    Ok(pairs)
}

// Those ranges, apart and rising.
fn known_pairs(alloc: Global, set: &[Span], star: u32) -> Result<Vec<Pair>, NoMemory>
    ensures apart { IfOk result (λ pairs. ArePairsApart pairs.items) }
    ensures within { IfOk result (λ pairs. All (IsWithin star) pairs.items) }
    ensures same { IfOk result (λ pairs. (n : ℕ) → 1 ≤ n → n ≤ star →
        is_in_pairs pairs.items n ≡ is_in_set star set.now n) }
{
    let pairs = pairs_within(alloc, set, star)?;
    match join_pairs(alloc, &pairs)? {
        Some(joined) => Ok(joined),
        None => Ok(pairs),
    }
}

/// Puts a range, unless it is empty, in front of ranges that stand the first one last: where that
/// begins right behind it, both are one.
pub fn put_before(ranges: &mut Vec<Pair>, range: Pair) -> Result<(), NoMemory>
    ensures { OnOk result (reverse ranges.new.items
        ≡ with_uids (uids_of range) (reverse ranges.old.items)) }
{
    if range.last < range.first {
        return Ok(());
    }
    let Some(next) = ranges.pop() else {
        ranges.push(range)?;
        return Ok(());
    };
    if u64::from(range.last) + 1 == u64::from(next.first) {
        ranges.push(Pair {
            first: range.first,
            last: next.last,
        })?;
        return Ok(());
    }
    ranges.push(next)?;
    ranges.push(range)?;
    Ok(())
}

// The UID of the row before a place, unless it is below this one.
fn uid_before(live: &Live, place: u32, first: u32) -> Option<u32>
    requires valid { IsValid live.now.mailbox }
    requires place { place ≤ length live.now.mailbox.rows }
    ensures some { IfSome result (IsUidBefore live.now.mailbox place first) }
    ensures none { IfNone result (AreBefore first place live.now.mailbox.rows) }
{
    if place == 0 {
        return None;
    }
    let uid = live.row(place - 1).uid;
    if uid < first {
        return None;
    }
    Some(uid)
}

// Puts the UIDs of a range that no row has in front, from the last one down. The rows from a place
// on are behind the range; the answer is the place of the first row that isn't before it.
fn put_free(live: &Live, range: Pair, place: u32, ranges: &mut Vec<Pair>) -> Result<u32, NoMemory>
    requires valid { IsValid live.now.mailbox }
    requires range { IsWithin (live.now.mailbox.next_uid - 1) range }
    requires place { place ≤ length live.now.mailbox.rows }
    requires behind { AreBehind range.last place live.now.mailbox.rows }
    ensures free { OnOk result (reverse ranges.new.items
        ≡ with_uids (free_uids live.now.mailbox range) (reverse ranges.old.items)) }
    ensures place { IfOk result (λ at. at ≤ length live.now.mailbox.rows) }
    ensures behind { IfOk result (λ at. (low : ℕ) → low < range.first →
        AreBehind low at live.now.mailbox.rows) }
{
    let mut place = place;
    let mut last = range.last;
    while let Some(uid) = uid_before(live, place, range.first) {
        place -= 1;
        if uid <= last {
            let first = uid + 1;
            put_before(ranges, Pair { first, last })?;
            last = uid - 1;
        }
    }
    let first = range.first;
    put_before(ranges, Pair { first, last })?;
    Ok(place)
}

/// Which of the known UIDs are gone, in ranges. `NoMemory` is the only error. The time is that of
/// sorting the known ranges, and of one look at each row.
pub fn gone_ranges(alloc: Global, live: &Live, known: &List<Span>) -> Result<List<Pair>, NoMemory>
    ensures { IfOk result (λ ranges. ranges ≡ gone_ranges live.now.mailbox known.now) }
{
    let mut pairs = known_pairs(alloc, known.as_slice(), live.next_uid() - 1)?;
    let mut place = live.count();
    let mut ranges = Vec::new(alloc);
    while let Some(pair) = pairs.pop() {
        place = put_free(live, pair, place, &mut ranges)?;
    }
    ranges.reverse();
    Ok(List::from_vec(ranges))
}
