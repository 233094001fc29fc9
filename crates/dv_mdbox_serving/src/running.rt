//! A run over a storage's folder.

ghost use Rattle.std.specs.Prelude.{◌≡◌, ◌≤◌, List};
ghost use Rattle.dv_shelf.specs.Crashes.{IsSettled};
ghost use Rattle.dv_maps.specs.Storages as storages;
ghost use Rattle.dv_mdbox_lines.specs.Playing.{Tried};
ghost use Rattle.dv_mdbox_lines.specs.Views.{calls_left};
ghost use Rattle.dv_serving.specs.Faults.{faults_between, faults_of};
ghost use Rattle.dv_serving.specs.Outputs.{output_of};
ghost use Rattle.dv_mdbox_serving.specs.Laws.{BeginsNext, IsMadeBy};
ghost use Rattle.dv_mdbox_serving.specs.Opening.{IsBegun};
ghost use Rattle.dv_mdbox_serving.specs.Places.{StartsFrom};
ghost use Rattle.dv_mdbox_serving.specs.Runs as runs;
ghost use Rattle.dv_mdbox_serving.specs.Runs.{EndCause, EndsServing, IfUnopened, RunsCalls, ServesCalls, TakesByEnd, TellsFolderAt};

use crate::opening::open_storage;
use crate::serving::serve_calls;
use crate::{CallEnd, StorageEnd};
use dv_mdbox::Storage;
use dv_mdbox_lines::Calls;
use dv_model::Mark;
use dv_shelf::{Clock, Shelf, Sink};
use std::alloc::Global;

/// How a run ended, with the folder and the clock.
pub struct Ran<S, C> {
    pub end: StorageEnd,
    pub shelf: S,
    pub clock: C,
}

/// How a run ends behind its calls.
fn end_behind(served: Result<(), CallEnd>, mark: Mark, groups: u64) -> StorageEnd
    ensures { result ≡ runs.end_of served mark groups }
{
    match served {
        Ok(()) => StorageEnd::Answered { mark, groups },
        Err(CallEnd::NoMemory) => StorageEnd::NoMemory,
        Err(CallEnd::Sink(_)) => StorageEnd::Sink,
    }
}

/// Answers the calls of a script over a storage that was opened.
fn serve_all<S: Shelf, C: Clock, O: Sink>(
    mut storage: Storage<S, C>,
    mut calls: Calls<'_>,
    out: &mut O,
) -> Ran<S, C>
    // Where a run begins from it: what is answered, written and left.
    ensures runs { S.sees.tells → (start : storages.Storage) (old : S) →
        IsBegun S.sees start old storage →
        ServesCalls S.sees start (faults_of S.sees old result.shelf) (calls_left calls.entry)
        result.end (output_of O.sees out.old out.new) old result.shelf }
    ensures ends { EndsServing result.end }
    ensures later { (S.sees.fault_count storage.shelf ≤ S.sees.fault_count result.shelf)
        × (O.sees.fault_count out.old ≤ O.sees.fault_count out.new) }
    ensures cause { EndCause result.end (faults_of S.sees storage.shelf result.shelf)
        (faults_between (O.sees.fault_count out.old) (O.sees.fault_count out.new)) }
{
    let served = serve_calls(&mut storage, &mut calls, out);
    let mark = storage.mark();
    let (shelf, clock, entries) = storage.parts();
    let end = end_behind(served, mark, entries.len() as u64);
    Ran { end, shelf, clock }
}

/// Opens or makes the storage of a folder, and answers the calls of a script in it, as many as
/// memory and the output take.
pub fn run_storage<S: Shelf, C: Clock, O: Sink>(
    alloc: Global,
    calls: Calls<'_>,
    shelf: S,
    clock: C,
    out: &mut O,
) -> Ran<S, C>
    // Of a settled folder that gives a storage, or has none: what is answered, written and left, at
    // any moment too.
    ensures runs { S.sees.tells → IsSettled S.sees shelf → (start : storages.Storage) →
        StartsFrom (S.sees.files shelf) start →
        RunsCalls S.sees start (faults_of S.sees shelf result.shelf) (calls_left calls.entry)
        result.end (output_of O.sees out.old out.new) shelf result.shelf }
    // Of any settled folder: where none is opened, nothing is written, and what is left.
    ensures unopened { S.sees.tells → IsSettled S.sees shelf →
        IfUnopened S.sees result.end (output_of O.sees out.old out.new) shelf result.shelf }
    // What a read gives then, and a crash leaves, at any moment too, is what a next run may begin
    // from, behind the calls before this one and some of its own, so that counts go on.
    ensures next { S.sees.tells → IsSettled S.sees shelf → (earlier : List Tried)
        (start : storages.Storage) → IsMadeBy earlier start →
        StartsFrom (S.sees.files shelf) start →
        BeginsNext S.sees earlier shelf result.shelf }
    // Of any folder: a fault that is found is told, and only where there is none calls are
    // answered.
    ensures found { S.sees.tells → TellsFolderAt (S.sees.files shelf) result.end }
    // The counts of faults never fall, and each end has its cause.
    ensures later { (S.sees.fault_count shelf ≤ S.sees.fault_count result.shelf)
        × (O.sees.fault_count out.old ≤ O.sees.fault_count out.new) }
    ensures cause { EndCause result.end (faults_of S.sees shelf result.shelf)
        (faults_between (O.sees.fault_count out.old) (O.sees.fault_count out.new)) }
    // The clock isn't read where a fault is found.
    ensures clock { C.sees.tells →
        TakesByEnd result.end (C.sees.upcoming clock) (C.sees.upcoming result.clock) }
{
    match open_storage(alloc, shelf, clock) {
        Ok(storage) => serve_all(storage, calls, out),
        Err((shelf, clock, fault)) => Ran {
            end: StorageEnd::Unopened(fault),
            shelf,
            clock,
        },
    }
}
