use crate::mailboxes::{APPEND_1, APPEND_3, NEXT_4000000, apply, new_mailbox};
use dv_model::{End, List, NoMemory, Span};
use dv_qresync::{Answer, Old, resync};
use std::alloc::Global;
use std::test::*;

const COUNT: u32 = 1_000_000;

// Every third UID, in disorder, as ranges from a UID to the one before it.
fn ranges(alloc: Global) -> Result<List<Span>, NoMemory> {
    let mut uids = Vec::with_capacity(alloc, COUNT as usize)?;
    for n in 0..COUNT {
        let k = (u64::from(n) * 700_001 % 1_000_000) as u32;
        uids.push(Span {
            from: End::Number(3 * k + 3),
            to: End::Number(3 * k + 2),
        })?;
    }
    Ok(List::from_vec(uids))
}

// How many ranges have vanished, and the first and the last of them.
fn vanished(alloc: Global) -> Result<Option<(usize, (u32, u32), (u32, u32))>, Fail> {
    let mut live = new_mailbox(alloc);
    apply(alloc, &mut live, &[APPEND_1, APPEND_3, NEXT_4000000])?;
    let old = Old {
        uid_validity: 1000,
        modseq: 5,
        uids: ranges(alloc)?,
    };
    let answers = resync(alloc, &live, &old)?;
    match answers.as_slice() {
        [Answer::Vanished(pairs), Answer::Highest(5)] => {
            match pairs.as_slice() {
                [first, .., last] => Ok(Some((
                    pairs.len(),
                    (first.first, first.last),
                    (last.first, last.last),
                ))),
                _ => Ok(None),
            }
        }
        _ => Ok(None),
    }
}

#[test]
fn a_million_ranges_in_disorder_vanish(rt: HostRuntime) -> Result<(), Fail> {
    // The row of UID 3 leaves 2 alone.
    let expected = Some((1_000_000, (2, 2), (2_999_999, 3_000_000)));
    assert!(rt; vanished(rt.alloc())? == expected);
    Ok(())
}
