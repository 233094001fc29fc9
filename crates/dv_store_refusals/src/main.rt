//! Writes commands of each kind to a store, and says whether the mailbox is as it has to be behind
//! each, whichever allocation is refused.
#![tactic(auto)]

mod stores;

use crate::stores::{Outcome, try_commands};
use std::alloc::Global;
use std::io;
use std::io::Read;
use std::process::ExitCode;

// As many allocations as there are bytes on standard input, at most 4,096, so that a refused one
// comes so much earlier in what follows.
fn allocate_before(rt: HostRuntime) -> io::Result<()> {
    let mut bytes = [0; 4096];
    let count = rt.stdin().read(&mut bytes)?;
    for _ in 0..count {
        allocate_one(rt.alloc());
    }
    Ok(())
}

// One allocation, which may be refused.
fn allocate_one(alloc: Global) {
    let mut one = Vec::new(alloc);
    let _ = one.push(0u8);
}

// Whether all is as it has to be, which is said.
fn all(rt: HostRuntime) -> io::Result<bool> {
    allocate_before(rt)?;
    match try_commands(rt.alloc()) {
        Outcome::Right(refusals) => {
            println!(rt; "written as they have to be, {refusals} refused")?;
            Ok(true)
        }
        Outcome::Wrong => {
            println!(rt; "not written as they have to be")?;
            Ok(false)
        }
    }
}

/// The status is 1 where the mailbox isn't as it has to be, or the input or the output failed.
fn main(rt: HostRuntime) -> ExitCode {
    match all(rt) {
        Ok(true) => ExitCode::from(0),
        _ => ExitCode::from(1),
    }
}
