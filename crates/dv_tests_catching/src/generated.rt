//! Clients of generated scripts, which catch up from one place of a script to another.

use crate::runs::play;
use dv_chain::{Chain, open};
use dv_model::List;
use dv_qresync::{Replica, replica_of};
use dv_shelf::MemShelf;
use dv_tests_resync::catch_up;
use std::alloc::Global;
use std::test::Fail;

// What is written in the folder, at most.
const ROOM: u32 = 200_000;

const SEEDS: u32 = 1000;

// The folder behind so many commands of the script of a seed, which are the first of more.
fn folder_behind(alloc: Global, seed: u32, count: u32) -> Result<MemShelf, Fail> {
    let shelf = MemShelf::new(alloc, ROOM, List::new(alloc), None)?;
    let seed = format!(in alloc; "{seed}")?;
    let count = format!(in alloc; "{count}")?;
    let words = ["gen", seed.as_str(), count.as_str(), "3"];
    let left = play(alloc, &words, b"", shelf, &[])?;
    if left.status != 0 {
        return Err(Fail::from("a script that isn't answered"));
    }
    Ok(left.shelf)
}

fn opened(alloc: Global, seed: u32, count: u32) -> Result<Chain, Fail> {
    let mut shelf = folder_behind(alloc, seed, count)?;
    match open(alloc, &mut shelf) {
        Ok(chain) => Ok(chain),
        Err(_) => Err(Fail::from("a folder that isn't opened")),
    }
}

fn replica_behind(alloc: Global, seed: u32, count: u32) -> Result<Replica, Fail> {
    let chain = opened(alloc, seed, count)?;
    Ok(replica_of(alloc, &chain.live)?)
}

// The places at which the script of a seed is cut.
fn places(seed: u32) -> (u32, u32) {
    let first = seed % 8;
    (first, first + 1 + seed % 9)
}

// Fails unless the client of the first place has the mailbox of the second one then.
fn follow(alloc: Global, seed: u32) -> Result<(), Fail> {
    let (first, second) = places(seed);
    let mut replica = replica_behind(alloc, seed, first)?;
    let chain = opened(alloc, seed, second)?;
    catch_up(alloc, &mut replica, &chain.live)
}

#[test]
fn clients_of_generated_scripts_catch_up(rt: HostRuntime) -> Result<(), Fail> {
    for seed in 0..SEEDS {
        follow(rt.alloc(), seed)?;
    }
    Ok(())
}
