//! A whole script served by sessions in threads.

ghost use Rattle.std.specs.Prelude.{◌≤◌, ℕ, All, List, length};
ghost use Rattle.dv_beginning.specs.Begins.{IsBegun, start_of};
ghost use Rattle.dv_formats.specs.Scripts.{NamedLine, sessions_of};
ghost use Rattle.dv_model.specs.Journals.{IsSound};
ghost use Rattle.dv_parts.specs.declared.parts.Part.{Part as OnePart};
ghost use Rattle.dv_parts.specs.Parts.{AreParts};
ghost use Rattle.dv_serving.specs.Faults.{faults_between};
ghost use Rattle.dv_serving.specs.Outputs.{output_of};
ghost use Rattle.dv_serving.specs.Servable.{IsServable};
ghost use Rattle.dv_shared.specs.Beginning.{BeginsFolder};
ghost use Rattle.dv_store.specs.Opening.{IsFresh};
ghost use Rattle.dv_threads.specs.Jobs.{IsCaused};
ghost use Rattle.dv_threads.specs.Serves.{ServesSessions, ServesThreads};

use crate::ending::{Served, ThreadsEnd, unserved};
use crate::laws::folder_laws;
use crate::serving::serve_named;
use dv_naming::new_names;
use dv_parts::{Part, part_lines};
use dv_script::Lines;
use dv_shelf::{Clock, Gate, Shelf, Sink};
use dv_store::Store;
use std::alloc::Global;
use std::marker::Brand;
use std::sync::Wait;
use std::thread::Threads;

/// Serves a script in the mailbox that a store was opened or made with just now: the commands of
/// each session in a thread of its own. Before each command the gate is called, with its session's
/// number and its own, from 1 on. All threads are joined; then the replies are written, session by
/// session in the order of their numbers, which is that of their first lines. Where memory ran out
/// they are written too, up to the last whole answer of a session that is short. `start_count` is
/// the folder's count of failures when the run began.
pub fn serve_threads<
    S: Shelf + Send,
    C: Clock + Send,
    L: Lines,
    O: Sink,
    G: Gate + Sync,
    R: Threads + Wait + Sync,
>(
    rt: &R,
    alloc: Global,
    store: Store<S, C>,
    start_count: u64,
    lines: &mut L,
    gate: &G,
    out: &mut O,
) -> Served<S, C>
    requires fresh { IsFresh store }
    requires sound { IsSound (start_of S.sees store) }
    requires servable { All (λ (line : NamedLine). IsServable line.1) (L.left lines.old) }
    requires sessions { length (sessions_of (L.left lines.old)) ≤ 64 }
    requires count { start_count ≤ S.sees.fault_count store.shelf }
    // Where the store is one from which a run begins: what is answered, written and left.
    ensures runs { S.sees.tells → (clock : ℕ → ℕ) (old : S) →
        IsBegun S.sees C.sees clock old store →
        ServesThreads S.sees clock C.sees.tells
        (faults_between start_count (S.sees.fault_count result.shelf)) (L.left lines.old)
        result.end (output_of O.sees out.old out.new) old result.shelf }
    // The counts of failures never fall, and an output that failed has its cause.
    ensures cause { IsCaused (O.sees.fault_count out.old) (O.sees.fault_count out.new)
        result.end }
    ensures later { (start_count ≤ S.sees.fault_count result.shelf)
        × (O.sees.fault_count out.old ≤ O.sees.fault_count out.new) }
{
    folder_laws::<S>();
    match part_lines(alloc, lines) {
        Ok(parts) => serve_parts(rt, alloc, store, start_count, parts.into_vec(), gate, out),
        Err(_) => unserved(store, ThreadsEnd::NoMemory),
    }
}

/// Serves the parts of a script, under names that are picked here.
fn serve_parts<S: Shelf + Send, C: Clock + Send, O: Sink, G: Gate + Sync, R: Threads + Wait + Sync>(
    rt: &R,
    alloc: Global,
    store: Store<S, C>,
    start_count: u64,
    parts: Vec<Part>,
    gate: &G,
    out: &mut O,
) -> Served<S, C>
    requires fresh { IsFresh store }
    requires sound { IsSound (start_of S.sees store) }
    requires few { length parts.items ≤ 64 }
    requires servable { All (λ (p : OnePart). All IsServable p.commands) parts.items }
    requires count { start_count ≤ S.sees.fault_count store.shelf }
    ensures serves { BeginsFolder S.sees (start_of S.sees store) (S.sees.moment store.shelf)
        (S.sees.left_since store.shelf) store →
        (lines : List NamedLine) → AreParts lines parts.items →
        All (λ (line : NamedLine). IsServable line.1) lines →
        ServesSessions S.sees C.sees.tells (start_of S.sees store) (S.sees.moment store.shelf)
        (S.sees.left_since store.shelf)
        (faults_between start_count (S.sees.fault_count result.shelf)) lines result.end
        (output_of O.sees out.old out.new) result.shelf }
    ensures cause { IsCaused (O.sees.fault_count out.old) (O.sees.fault_count out.new)
        result.end }
    ensures later { (start_count ≤ S.sees.fault_count result.shelf)
        × (O.sees.fault_count out.old ≤ O.sees.fault_count out.new) }
{
    folder_laws::<S>();
    if parts.is_empty() {
        let mark = store.mark();
        return unserved(store, ThreadsEnd::Answered { mark, groups: 0 });
    }
    match new_names(alloc, parts.len() as u64) {
        Ok(names) => serve_named::<S, C, Brand, Brand, Brand, O, G, R>(
            rt,
            alloc,
            names,
            store,
            start_count,
            parts,
            gate,
            out,
        ),
        Err(_) => unserved(store, ThreadsEnd::NoMemory),
    }
}
