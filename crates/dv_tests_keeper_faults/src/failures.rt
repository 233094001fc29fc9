//! A call of the folder fails, and all others are as before.

use crate::runs::{
    Ran, Shown, calls_of, check_images, faults_of, is_opened, run, show_mailbox, shown_behind,
    shown_without_each,
};
use crate::script::{ASKS, CALLS, OPENING, TOLD, WRITES, shelf};
use dv_tests_keeper::Ask;
use std::alloc::Global;
use std::sync::Wait;
use std::test::Fail;

// How many entries the log has when all is asked.
const ENTRIES: u64 = 8;

// All is asked over a folder of which this call fails. Of a replace or a removal that fails, reads
// may see what it made.
fn run_failing<R: Wait>(
    rt: &R,
    alloc: Global,
    call: u32,
    shows_failed: bool,
    asks: &[Ask<'_>],
) -> Result<Ran, Fail> {
    let all = each_place(alloc)?;
    let shelf = shelf(alloc, &[call], None)?;
    let shelf = if shows_failed {
        shelf.showing_failed()
    } else {
        shelf
    };
    let ran = run(rt, alloc, shelf, asks, &all)?;
    if ran.unavailable != 1 || faults_of(&ran) != 1 {
        return Err(Fail::from("not one command was unavailable"));
    }
    Ok(ran)
}

fn each_place(alloc: Global) -> Result<Vec<usize>, Fail> {
    let mut all = Vec::new(alloc);
    for at in 0..ASKS.len() {
        all.push(at)?;
    }
    Ok(all)
}

#[test]
fn calls_and_answers_are_as_expected(rt: HostRuntime) -> Result<(), Fail> {
    let alloc = rt.alloc();
    let ran = run(&rt, alloc, shelf(alloc, &[], None)?, &ASKS, &WRITES)?;
    assert_eq!(rt;
        std::str::from_utf8(ran.told.as_slice()).unwrap_or("?"),
        TOLD
    );
    assert_eq!(rt; ran.entries, ENTRIES);
    assert_eq!(rt; ran.unavailable, 0);
    assert_eq!(rt; faults_of(&ran), 0);
    assert_eq!(rt; ran.shelf.call_count(), CALLS);
    Ok(())
}

#[test]
fn each_failed_call_of_the_opening_ends_it(rt: HostRuntime) -> Result<(), Fail> {
    let alloc = rt.alloc();
    for call in 0..OPENING {
        assert!(rt; !is_opened(&rt, alloc, shelf(alloc, &[call + 1], None)?));
    }
    Ok(())
}

// Fails unless the failed call costs one command, without which all is answered and kept. A crash
// may leave the group of the last write, which failed.
fn check_failed<R: Wait>(
    rt: &R,
    alloc: Global,
    call: u32,
    shows_failed: bool,
    without: &[Shown],
    whole: &Shown,
) -> Result<(), Fail> {
    let ran = run_failing(rt, alloc, call, shows_failed, &ASKS)?;
    let Some(at) = ran.failed else {
        return Err(Fail::from("no command was unavailable"));
    };
    if at >= without.len() {
        return Err(Fail::from("no such command"));
    }
    let like = &without[at];
    if ran.told.as_slice() != like.told.as_slice() || ran.entries != like.entries {
        return Err(Fail::from("another answer behind a failed command"));
    }
    let tried = if WRITES.last() == Some(&at) {
        whole
    } else {
        like
    };
    check_images(rt, alloc, &ran, &like.mailbox, &tried.mailbox)
}

fn check_each_failed<R: Wait>(rt: &R, alloc: Global, shows_failed: bool) -> Result<(), Fail> {
    let without = shown_without_each(rt, alloc)?;
    let whole = shown_behind(rt, alloc, &ASKS)?;
    for call in OPENING..calls_of(rt, alloc)? {
        check_failed(
            rt,
            alloc,
            call.saturating_add(1),
            shows_failed,
            &without,
            &whole,
        )?;
    }
    Ok(())
}

#[test]
fn each_failed_call_costs_one_command(rt: HostRuntime) -> Result<(), Fail> {
    check_each_failed(&rt, rt.alloc(), false)
}

#[test]
fn each_failed_call_that_is_seen_costs_one_command(rt: HostRuntime) -> Result<(), Fail> {
    check_each_failed(&rt, rt.alloc(), true)
}

// The same, each once more where the disk fails it.
fn again(alloc: Global) -> Result<Vec<Ask<'static>>, Fail> {
    let mut asks = Vec::new(alloc);
    for ask in &ASKS {
        asks.push(match ask {
            Ask::Line(text) => Ask::Again(text),
            other => *other,
        })?;
    }
    Ok(asks)
}

// Fails unless all is answered and kept where the command of the failed call is asked once more.
fn check_again<R: Wait>(
    rt: &R,
    alloc: Global,
    call: u32,
    asks: &[Ask<'_>],
    whole: &Shown,
) -> Result<(), Fail> {
    let ran = run_failing(rt, alloc, call, false, asks)?;
    if ran.told.as_slice() != whole.told.as_slice() || ran.entries != whole.entries {
        return Err(Fail::from("another answer to a command that was asked again"));
    }
    if show_mailbox(rt, alloc, ran.shelf)?.as_slice() != whole.mailbox.as_slice() {
        return Err(Fail::from("another mailbox"));
    }
    Ok(())
}

#[test]
fn each_failed_command_may_be_asked_again(rt: HostRuntime) -> Result<(), Fail> {
    let alloc = rt.alloc();
    let asks = again(alloc)?;
    let whole = shown_behind(&rt, alloc, &ASKS)?;
    for call in OPENING..calls_of(&rt, alloc)? {
        check_again(&rt, alloc, call.saturating_add(1), &asks, &whole)?;
    }
    Ok(())
}
