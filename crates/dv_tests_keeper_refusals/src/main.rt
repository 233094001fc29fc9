//! Asks sessions of a keeper for all that takes its lock, and says whether they are answered, and
//! the folder holds, what has to be, whichever allocation is refused.
#![tactic(auto)]

mod asks;
mod folders;
mod refusals;

use crate::refusals::{Outcome, try_asks};
use std::alloc::Global;
use std::io;
use std::io::Read;
use std::process::ExitCode;

// As many allocations as there are bytes on standard input, at most 4,096, so that a refused one
// comes so much earlier in what follows.
fn allocate_before(rt: HostRuntime) -> io::Result<()> {
    let mut bytes = [0; 4096];
    let count = rt.stdin().read(&mut bytes)?;
    for _ in 0..count {
        allocate_one(rt.alloc());
    }
    Ok(())
}

// One allocation, which may be refused.
fn allocate_one(alloc: Global) {
    let mut one = Vec::new(alloc);
    let _ = one.push(0u8);
}

// What is said of an outcome, and whether it is right.
fn say(rt: HostRuntime, outcome: Outcome) -> io::Result<bool> {
    match outcome {
        Outcome::Right { spent, refused } => {
            println!(rt; "answered and left as they have to be, {spent} spent, {refused} refused")?;
            Ok(true)
        }
        Outcome::Wrong => {
            println!(rt; "not answered or left as they have to be")?;
            Ok(false)
        }
    }
}

/// The status is 1 where an answer or the folder isn't as it has to be, or the input or the output
/// failed.
fn main(rt: HostRuntime) -> ExitCode {
    let Ok(()) = allocate_before(rt) else {
        return ExitCode::from(1);
    };
    match say(rt, try_asks(&rt, rt.alloc())) {
        Ok(true) => ExitCode::from(0),
        _ => ExitCode::from(1),
    }
}
