//! A storage folder is opened, or made.

ghost use Rattle.std.specs.Prelude.{◌≡◌, IfErr, IfOk, MatchBool};
ghost use Rattle.dv_shelf.specs.Crashes.{IsSettled};
ghost use Rattle.dv_shelf.specs.Folders.{IsNew};
ghost use Rattle.dv_chain.specs.Openings.{Answers, HasBounds, HasCause, IsOutside, OnlyLooks, found_of};
ghost use Rattle.dv_openings.specs.Openings.{IsFound};
ghost use Rattle.dv_plans.specs.Begins.{AtReading};
ghost use Rattle.dv_mdbox.specs.Opening.{IsFresh, IsNewOrOpened, MakesChain, OpensChain, TakesToOpen, TellsFolder, answered, clock_behind, shelf_behind};

use crate::Storage;
use crate::storage::fresh;
use dv_chain::Chain;
use dv_model::OpenFault;
use dv_plans::is_number;
use dv_shelf::{Clock, Shelf, ShelfFault};
use std::alloc::Global;

/// Whether the folder has a file of a storage.
fn has_storage<S: Shelf>(alloc: Global, shelf: &mut S) -> Result<bool, OpenFault>
    ensures is { S.sees.tells → IfOk result (λ has.
        MatchBool has (IsNew (S.sees.files shelf.old) → ⊥) (IsNew (S.sees.files shelf.old))) }
    ensures looks { S.sees.tells → OnlyLooks S.sees shelf.old shelf.new }
    ensures err { IfErr result IsOutside }
    ensures cause { HasCause (S.sees.fault_count shelf.old) (S.sees.fault_count shelf.new) result }
{
    match shelf.has_mailbox(alloc) {
        Ok(has) => Ok(has),
        Err(ShelfFault::Failed) => Err(OpenFault::Disk(shelf.faults())),
        Err(ShelfFault::NoMemory) => Err(OpenFault::NoMemory),
    }
}

/// The chain of a folder that has a file of a storage.
fn open_found<S: Shelf>(alloc: Global, shelf: &mut S) -> Result<Chain, OpenFault>
    ensures opens { S.sees.tells → IsSettled S.sees shelf.old →
        OpensChain S.sees shelf.old shelf.new result }
    ensures found { S.sees.tells → Answers found_of result (IsFound (S.sees.files shelf.old)) }
    ensures bounds { IfOk result HasBounds }
    ensures cause { HasCause (S.sees.fault_count shelf.old) (S.sees.fault_count shelf.new) result }
{
    dv_chain::open(alloc, shelf)
}

/// The chain of a folder that has none, whose log is made now.
fn make_new<S: Shelf>(alloc: Global, shelf: &mut S, now: u32) -> Result<Chain, OpenFault>
    ensures makes { S.sees.tells → IsSettled S.sees shelf.old → IsNew (S.sees.files shelf.old) →
        MakesChain S.sees shelf.old shelf.new result now }
    ensures bounds { IfOk result HasBounds }
    ensures err { IfErr result IsOutside }
    ensures cause { HasCause (S.sees.fault_count shelf.old) (S.sees.fault_count shelf.new) result }
{
    dv_chain::create(alloc, shelf, now)
}

/// The chain of a folder: that of its log, or a new one where it has no file of a storage.
fn open_chain<S: Shelf, C: Clock>(
    alloc: Global,
    shelf: &mut S,
    clock: &mut C,
) -> Result<Chain, OpenFault>
    ensures opens { S.sees.tells → IsSettled S.sees shelf.old →
        (IsNew (S.sees.files shelf.old) → ⊥) → OpensChain S.sees shelf.old shelf.new result }
    ensures makes { S.sees.tells → IsSettled S.sees shelf.old → IsNew (S.sees.files shelf.old) →
        AtReading C.sees.tells (C.sees.upcoming clock.old 0)
        (MakesChain S.sees shelf.old shelf.new result) }
    ensures either { S.sees.tells → IsSettled S.sees shelf.old →
        IsNewOrOpened S.sees shelf.old shelf.new result }
    ensures found { S.sees.tells → TellsFolder (S.sees.files shelf.old) result }
    ensures bounds { IfOk result HasBounds }
    ensures clock { C.sees.tells →
        TakesToOpen (C.sees.upcoming clock.old) (C.sees.upcoming clock.new) result }
    ensures cause { HasCause (S.sees.fault_count shelf.old) (S.sees.fault_count shelf.new) result }
{
    match has_storage(alloc, shelf) {
        Ok(true) => open_found(alloc, shelf),
        Ok(false) => {
            let now = clock.now();
            is_number(now);
            make_new(alloc, shelf, now)
        }
        Err(fault) => Err(fault),
    }
}

impl<S: Shelf, C: Clock> Storage<S, C> {
    /// Opens a storage folder: its log, and its rotated log and snapshot where they count, give the
    /// map at the log's end. Where the folder has no file of a storage it is made, by one replace:
    /// a log whose number is the clock's reading, in which 0 counts as 1. The folder and the clock
    /// are handed back with a fault.
    pub fn open(
        alloc: Global,
        mut shelf: S,
        mut clock: C,
    ) -> Result<Storage<S, C>, (S, C, OpenFault)>
        // What is answered is found, and a crash at any moment leaves the same; behind Ok the
        // storage is at rest with the messages that the folder had.
        ensures opens { S.sees.tells → IsSettled S.sees shelf →
            (IsNew (S.sees.files shelf) → ⊥) →
            OpensChain S.sees shelf (shelf_behind result) (answered result) }
        // A new one is of the clock's reading, and has no id.
        ensures makes { S.sees.tells → IsSettled S.sees shelf → IsNew (S.sees.files shelf) →
            AtReading C.sees.tells (C.sees.upcoming clock 0)
            (MakesChain S.sees shelf (shelf_behind result) (answered result)) }
        // Where it isn't known whether there is one, it's answered as if there were.
        ensures either { S.sees.tells → IsSettled S.sees shelf →
            IsNewOrOpened S.sees shelf (shelf_behind result) (answered result) }
        ensures fresh { IfOk result IsFresh }
        // Of any folder: what it holds is told.
        ensures found { S.sees.tells → TellsFolder (S.sees.files shelf) (answered result) }
        // The clock is read at most once, where a storage is made; a fault of the disk has its
        // cause.
        ensures clock { C.sees.tells → TakesToOpen (C.sees.upcoming clock)
            (C.sees.upcoming (clock_behind result)) (answered result) }
        ensures cause { HasCause (S.sees.fault_count shelf)
            (S.sees.fault_count (shelf_behind result)) (answered result) }
    {
        match open_chain(alloc, &mut shelf, &mut clock) {
            Ok(chain) => Ok(fresh(alloc, shelf, clock, chain)),
            Err(fault) => Err((shelf, clock, fault)),
        }
    }
}
