//! The sessions of a script over one keeper, each in a thread of its own.

ghost use Rattle.std.specs.Prelude.{◌≡◌, ◌≤◌, [], All, false};
ghost use Rattle.dv_member.specs.Members.{Member};
ghost use Rattle.dv_shared.specs.Beginning.{Begins};

use crate::fault::Fault;
use crate::rounds::{Plan, Round, run_session};
use dv_beginning::open_folder;
use dv_keeper::Keeper;
use dv_member::Session;
use dv_naming::{Keeping, Names, Tally, new_names};
use dv_shelf::{Clock, Shelf};
use dv_store::Store;
use std::alloc::Global;
use std::io::Eprint;
use std::marker::Brand;
use std::sync::Wait;
use std::thread::Threads;
use std::{io, thread, time};

// Tells the rounds that a session kept.
fn tell_rounds<R: Eprint>(rt: &R, number: usize, kept: &[Round]) -> io::Result<()> {
    for (begun, ended) in kept {
        eprintln!(rt; "session {number} from {begun} to {ended} ns")?;
    }
    Ok(())
}

// Tells the rounds of all sessions, in the order of their numbers, up to one with a fault.
fn tell_all<R: Eprint>(rt: &R, sessions: &[Result<Vec<Round>, Fault>]) -> Result<(), Fault> {
    for at in 0..sessions.len() {
        match &sessions[at] {
            Ok(kept) => tell_rounds(rt, at + 1, kept)?,
            Err(fault) => return Err(*fault),
        }
    }
    Ok(())
}

// Runs each session in a thread of its own, and tells their rounds once all have ended.
fn run_sessions<
    S: Shelf + Send,
    C: Clock + Send,
    K: Keeping + Send + Sync,
    L: Tally + Send + Sync,
    M: Tally + Send + Sync,
    R: Threads + Wait + time::Clock + Eprint + Sync,
>(
    rt: &R,
    alloc: Global,
    keeper: &Keeper<S, C, K, L, M>,
    plan: Plan,
    text: &[u8],
    sessions: Vec<Session<K, L, M>>,
) -> Result<(), Fault>
    requires fresh { All (λ (s : Member). s.spent ≡ false) sessions.items }
{
    let Ok(kept) = thread::map_vec(
        rt,
        sessions,
        &|s| run_session(rt, alloc, keeper, plan, text, s),
    ) else {
        return Err(Fault::NoMemory);
    };
    tell_all(rt, &kept)
}

// Makes a keeper under these names, with so many sessions, and runs them. The number of groups that
// they wrote is given.
fn run_named<
    S: Shelf + Send + Drop,
    C: Clock + Send + Drop,
    K: Keeping + Send + Sync,
    L: Tally + Send + Sync,
    M: Tally + Send + Sync,
    R: Threads + Wait + time::Clock + Eprint + Sync,
>(
    rt: &R,
    alloc: Global,
    names: Names,
    store: Store<S, C>,
    start_count: u64,
    count: u32,
    plan: Plan,
    text: &[u8],
) -> Result<u64, Fault>
    requires names { (names.roll.table ≡ K.roll) × (names.roll.items ≡ [])
        × (names.writes.name ≡ L.name) × (names.refusals.name ≡ M.name) }
    requires ledgers { (names.writes.parts ≡ L.parts) × (names.refusals.parts ≡ M.parts)
        × (L.parts ≡ count) × (M.parts ≡ count) }
    requires begins { Begins S.sees K.start K.moment K.past K.honest store }
    requires count { (start_count ≡ K.count) × (K.count ≤ S.sees.fault_count store.shelf) }
    requires few { (1 ≤ count) × (count ≤ 64) }
{
    match Keeper::<S, C, K, L, M>::new(alloc, names, store, start_count, count) {
        Ok((keeper, sessions)) => {
            let ran = run_sessions(rt, alloc, &keeper, plan, text, sessions);
            let (_, groups) = keeper.close(Vec::new(alloc));
            ran?;
            Ok(groups)
        }
        Err(_) => Err(Fault::NoMemory),
    }
}

/// Opens the mailbox of a folder, or makes one, and has the sessions of a script run over it. The
/// rounds that they kept are told on standard error, and the number of groups that they wrote is
/// given.
pub fn run_script<
    S: Shelf + Send + Drop,
    C: Clock + Send + Drop,
    R: Threads + Wait + time::Clock + Eprint + Sync,
>(
    rt: &R,
    alloc: Global,
    shelf: S,
    clock: C,
    count: u32,
    plan: Plan,
    text: &[u8],
) -> Result<u64, Fault>
    requires few { (1 ≤ count) × (count ≤ 64) }
{
    let start_count = shelf.faults();
    let Ok(store) = open_folder(alloc, shelf, clock) else {
        return Err(Fault::NotOpened);
    };
    match new_names(alloc, u64::from(count)) {
        Ok(names) => run_named::<S, C, Brand, Brand, Brand, R>(
            rt,
            alloc,
            names,
            store,
            start_count,
            count,
            plan,
            text,
        ),
        Err(_) => Err(Fault::NoMemory),
    }
}
