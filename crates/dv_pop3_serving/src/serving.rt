//! A POP3 session over a mailbox that was opened or made.

ghost use Rattle.std.specs.Prelude.{◌≤◌, ℕ};
ghost use Rattle.dv_beginning.specs.Begins.{IsBegun, start_of};
ghost use Rattle.dv_model.specs.Journals.{IsSound};
ghost use Rattle.dv_serving.specs.Faults.{faults_between};
ghost use Rattle.dv_serving.specs.Outputs.{output_of};
ghost use Rattle.dv_store.specs.Opening.{IsFresh};
ghost use Rattle.dv_pop3_serving.specs.Ends.{IsCaused};
ghost use Rattle.dv_pop3_serving.specs.Serves.{ServesPop};

use crate::ending::{PopEnd, Served, ended};
use crate::session::serve_named;
use dv_maildrop::PopLines;
use dv_naming::new_names;
use dv_shelf::{Clock, Shelf, Sink};
use dv_store::Store;
use dv_threads::folder_laws;
use std::alloc::Global;
use std::marker::Brand;
use std::sync::Wait;

/// Serves the lines of a POP3 session in the mailbox that a store was opened or made with just now:
/// it lists the messages, greets, and answers the lines up to the first QUIT, each answer written
/// when it is made. Where the messages can't be listed nothing is written. `start_count` is the
/// folder's count of failures when the run began.
pub fn serve_pop3<S: Shelf, C: Clock, O: Sink, R: Wait>(
    rt: &R,
    alloc: Global,
    store: Store<S, C>,
    start_count: u64,
    lines: PopLines<'_>,
    out: &mut O,
) -> Served<S, C>
    requires fresh { IsFresh store }
    requires sound { IsSound (start_of S.sees store) }
    requires count { start_count ≤ S.sees.fault_count store.shelf }
    // Where the store is one from which a run begins: what is answered, written and left.
    ensures runs { S.sees.tells → (clock : ℕ → ℕ) (old : S) →
        IsBegun S.sees C.sees clock old store →
        ServesPop S.sees clock C.sees.tells
        (faults_between start_count (S.sees.fault_count result.shelf)) lines.entry
        result.end (output_of O.sees out.old out.new) old result.shelf }
    // The counts of failures never fall, and an output that failed has its cause.
    ensures cause { IsCaused (O.sees.fault_count out.old) (O.sees.fault_count out.new)
        result.end }
    ensures later { (start_count ≤ S.sees.fault_count result.shelf)
        × (O.sees.fault_count out.old ≤ O.sees.fault_count out.new) }
{
    folder_laws::<S>();
    match new_names(alloc, 1) {
        Ok(names) => serve_named::<S, C, Brand, Brand, Brand, O, R>(
            rt,
            alloc,
            names,
            store,
            start_count,
            lines,
            out,
        ),
        Err(_) => ended(store, PopEnd::NoMemory),
    }
}
