//! Shows and applies records of each kind, and says whether the mailbox is as it has to be behind
//! each, whichever allocation is refused.
#![tactic(auto)]

mod steps;

use crate::steps::{Outcome, try_records};
use std::alloc::Global;
use std::io;
use std::io::Read;
use std::process::ExitCode;

// As many allocations as there are bytes on standard input, at most 4,096, so that a refused one
// comes so much earlier in what follows.
fn allocate_before(rt: HostRuntime) -> io::Result<()> {
    let mut bytes = [0; 4096];
    let count = rt.stdin().read(&mut bytes)?;
    for _ in 0..count {
        allocate_one(rt.alloc());
    }
    Ok(())
}

// One allocation, which may be refused.
fn allocate_one(alloc: Global) {
    let mut one = Vec::new(alloc);
    let _ = one.push(0u8);
}

// What is said of an outcome, and whether it is right.
fn say(rt: HostRuntime, did: &str, outcome: Outcome) -> io::Result<bool> {
    match outcome {
        Outcome::Right(refusals) => {
            println!(rt; "{did} as they have to be, {refusals} refused")?;
            Ok(true)
        }
        Outcome::Wrong => {
            println!(rt; "not {did} as they have to be")?;
            Ok(false)
        }
    }
}

fn all(rt: HostRuntime) -> io::Result<bool> {
    allocate_before(rt)?;
    let shown = try_records(rt.alloc(), true);
    let applied = try_records(rt.alloc(), false);
    let one = say(rt, "shown", shown)?;
    let other = say(rt, "applied", applied)?;
    Ok(one && other)
}

/// The status is 1 where a mailbox isn't as it has to be, or the input or the output failed.
fn main(rt: HostRuntime) -> ExitCode {
    match all(rt) {
        Ok(true) => ExitCode::from(0),
        _ => ExitCode::from(1),
    }
}
