//! A script served by sessions in threads.

ghost use Rattle.std.specs.Prelude.{◌≡◌, ◌≤◌, ◌<◌, ◌^◌, [], All, List, length};
ghost use Rattle.std.specs.Vec.{vec_capacity};
ghost use Rattle.dv_formats.specs.Scripts.{NamedLine};
ghost use Rattle.dv_keeper.specs.Sessions.{AreNewSessions};
ghost use Rattle.dv_parts.specs.declared.parts.Part.{Part as OnePart};
ghost use Rattle.dv_parts.specs.Parts.{AreParts};
ghost use Rattle.dv_serving.specs.Faults.{faults_between};
ghost use Rattle.dv_serving.specs.Outputs.{output_of};
ghost use Rattle.dv_serving.specs.Servable.{IsServable};
ghost use Rattle.dv_shared.specs.Beginning.{Begins};
ghost use Rattle.dv_threads.specs.Jobs.{IsCaused};
ghost use Rattle.dv_threads.specs.Serves.{ServesSessions};

use crate::ending::{Served, ThreadsEnd, conclude, unserved};
use crate::jobs::{Handed, hand_in, make_jobs};
use crate::laws::folder_laws;
use dv_keeper::Keeper;
use dv_member::Session;
use dv_naming::{Keeping, Names, Tally};
use dv_parts::Part;
use dv_runner::{Job, run_threads};
use dv_shelf::{Clock, Gate, Shelf, Sink};
use dv_store::Store;
use std::alloc::Global;
use std::sync::Wait;
use std::thread::Threads;

/// Runs the jobs of the parts by the sessions of a keeper, joins all threads, hands all in, and
/// writes the replies. There is room for jobs and for sessions, so that memory doesn't end it.
fn serve_sessions<
    S: Shelf + Send,
    C: Clock + Send,
    K: Keeping + Send + Sync,
    L: Tally + Send + Sync,
    M: Tally + Send + Sync,
    O: Sink,
    G: Gate + Sync,
    R: Threads + Wait + Sync,
>(
    rt: &R,
    alloc: Global,
    keeper: Keeper<S, C, K, L, M>,
    sessions: Vec<Session<K, L, M>>,
    parts: Vec<Part>,
    mut jobs: Vec<Job<K, L, M>>,
    done: Vec<Session<K, L, M>>,
    gate: &G,
    out: &mut O,
) -> Served<S, C>
    requires none { (jobs.items ≡ []) × (done.items ≡ []) }
    requires room { (length parts.items ≤ vec_capacity jobs)
        × (length parts.items ≤ vec_capacity done) }
    requires pairs { length sessions.items ≡ length parts.items }
    requires ledgers { (L.parts ≡ length parts.items) × (M.parts ≡ length parts.items)
        × (length parts.items ≤ 64) × (K.count < 2 ^ 64) }
    requires new { AreNewSessions K.start 1 sessions.items }
    requires servable { All (λ (p : OnePart). All IsServable p.commands) parts.items }
    ensures serves { K.honest → (lines : List NamedLine) → AreParts lines parts.items →
        All (λ (line : NamedLine). IsServable line.1) lines →
        ServesSessions S.sees C.sees.tells K.start K.moment K.past
        (faults_between K.count (S.sees.fault_count result.shelf)) lines result.end
        (output_of O.sees out.old out.new) result.shelf }
    ensures cause { IsCaused (O.sees.fault_count out.old) (O.sees.fault_count out.new)
        result.end }
    ensures later { (K.count ≤ S.sees.fault_count result.shelf)
        × (O.sees.fault_count out.old ≤ O.sees.fault_count out.new) }
{
    folder_laws::<S>();
    make_jobs(alloc, sessions, parts, &mut jobs);
    run_threads(rt, alloc, &keeper, jobs.as_mut_slice(), gate);
    let Handed {
        sessions,
        whole,
        failed,
    } = hand_in(jobs, done, out);
    let (store, groups) = keeper.close(sessions);
    conclude(store, groups, whole, failed, out)
}

/// Makes a keeper with a session for each part, and serves them. Memory that the end needs is taken
/// first. Where it runs out before the first command, the folder is as it was.
pub(crate) fn serve_named<
    S: Shelf + Send,
    C: Clock + Send,
    K: Keeping + Send + Sync,
    L: Tally + Send + Sync,
    M: Tally + Send + Sync,
    O: Sink,
    G: Gate + Sync,
    R: Threads + Wait + Sync,
>(
    rt: &R,
    alloc: Global,
    names: Names,
    store: Store<S, C>,
    start_count: u64,
    parts: Vec<Part>,
    gate: &G,
    out: &mut O,
) -> Served<S, C>
    requires names { (names.roll.table ≡ K.roll) × (names.roll.items ≡ [])
        × (names.writes.name ≡ L.name) × (names.refusals.name ≡ M.name) }
    requires ledgers { (names.writes.parts ≡ L.parts) × (names.refusals.parts ≡ M.parts)
        × (L.parts ≡ length parts.items) × (M.parts ≡ length parts.items) }
    requires begins { Begins S.sees K.start K.moment K.past K.honest store }
    requires count { (start_count ≡ K.count) × (K.count ≤ S.sees.fault_count store.shelf) }
    requires few { (1 ≤ length parts.items) × (length parts.items ≤ 64) }
    requires servable { All (λ (p : OnePart). All IsServable p.commands) parts.items }
    ensures serves { K.honest → (lines : List NamedLine) → AreParts lines parts.items →
        All (λ (line : NamedLine). IsServable line.1) lines →
        ServesSessions S.sees C.sees.tells K.start K.moment K.past
        (faults_between K.count (S.sees.fault_count result.shelf)) lines result.end
        (output_of O.sees out.old out.new) result.shelf }
    ensures cause { IsCaused (O.sees.fault_count out.old) (O.sees.fault_count out.new)
        result.end }
    ensures later { (start_count ≤ S.sees.fault_count result.shelf)
        × (O.sees.fault_count out.old ≤ O.sees.fault_count out.new) }
{
    folder_laws::<S>();
    let count = parts.len();
    let Ok(jobs) = Vec::with_capacity(alloc, count) else {
        return unserved(store, ThreadsEnd::NoMemory);
    };
    let Ok(done) = Vec::with_capacity(alloc, count) else {
        return unserved(store, ThreadsEnd::NoMemory);
    };
    match Keeper::<S, C, K, L, M>::new(alloc, names, store, start_count, count as u32) {
        Ok((keeper, sessions)) => {
            serve_sessions(rt, alloc, keeper, sessions, parts, jobs, done, gate, out)
        }
        Err((store, _)) => unserved(store, ThreadsEnd::NoMemory),
    }
}
