//! A call of the folder is the last, and each folder that may be left keeps what was answered.

use crate::runs::{Shown, calls_of, check_images, faults_of, run, shown_behind_each};
use crate::script::{ASKS, OPENING, WRITES, shelf};
use std::alloc::Global;
use std::sync::Wait;
use std::test::Fail;

// Fails unless each folder that a crash may leave, of which so many calls were answered, has all
// writes that were answered, and at most the next one.
fn check_stopped<R: Wait>(rt: &R, alloc: Global, stop: u32, behind: &[Shown]) -> Result<(), Fail> {
    let ran = run(rt, alloc, shelf(alloc, &[], Some(stop))?, &ASKS, &WRITES)?;
    if ran.unavailable == 0 || ran.unavailable != faults_of(&ran) {
        return Err(Fail::from("other commands were unavailable"));
    }
    let (first, last) = match ran.failed {
        Some(at) => (at, at.saturating_add(1)),
        None => (ASKS.len(), ASKS.len()),
    };
    if last >= behind.len() || first > last {
        return Err(Fail::from("no such command"));
    }
    check_images(
        rt,
        alloc,
        &ran,
        &behind[first].mailbox,
        &behind[last].mailbox,
    )
}

#[test]
fn each_call_is_the_last(rt: HostRuntime) -> Result<(), Fail> {
    let alloc = rt.alloc();
    let behind = shown_behind_each(&rt, alloc)?;
    for stop in OPENING..calls_of(&rt, alloc)? {
        check_stopped(&rt, alloc, stop, &behind)?;
    }
    Ok(())
}
