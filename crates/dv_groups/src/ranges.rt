ghost use Rattle.std.specs.Prelude.{◌≡◌, ◌+◌, IfOk, length, nat_eq};
ghost use Rattle.dv_model.specs.Sessions.{ranges_of};

use dv_model::{List, NoMemory, Pair};
use std::alloc::Global;

// Whether a UID stands right behind another.
fn is_next(last: u32, uid: u32) -> bool
    ensures { result ≡ nat_eq (last + 1) uid }
{
    u64::from(last) + 1 == u64::from(uid)
}

// The range of one UID.
fn range_of(uid: u32) -> Pair
    ensures { result ≡ record { first = uid; last = uid } }
{
    Pair {
        first: uid,
        last: uid,
    }
}

/// UIDs in ranges of consecutive ones, as few as there can be where the UIDs rise. `NoMemory` is
/// the only error.
pub fn ranges_of(alloc: Global, uids: &[u32]) -> Result<List<Pair>, NoMemory>
    ensures { IfOk result (λ pairs. pairs ≡ ranges_of uids.now) }
{
    let mut pairs = List::new(alloc);
    let Some((first, others)) = uids.split_first() else {
        return Ok(pairs);
    };
    let mut range = range_of(*first);
    for uid in others {
        if is_next(range.last, *uid) {
            range.last = *uid;
        } else {
            pairs.push(range)?;
            range = range_of(*uid);
        }
    }
    pairs.push(range)?;
    Ok(pairs)
}

/// How many ranges `ranges_of` gives. Takes no memory.
pub fn range_count(uids: &[u32]) -> usize
    ensures { result ≡ length (ranges_of uids.now) }
{
    let Some((first, others)) = uids.split_first() else {
        return 0;
    };
    let mut count = 1;
    let mut last = *first;
    for uid in others {
        if !is_next(last, *uid) {
            count += 1;
        }
        last = *uid;
    }
    count
}
