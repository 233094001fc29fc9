//! A mailbox folder is opened, or made.

ghost use Rattle.std.specs.Prelude.{◌≡◌, IfErr, IfOk};
ghost use Rattle.dv_shelf.specs.Clocks.{behind};
ghost use Rattle.dv_shelf.specs.Crashes.{IsSettled};
ghost use Rattle.dv_shelf.specs.Folders.{counted};
ghost use Rattle.dv_openings.specs.Openings.{IsFound};
ghost use Rattle.dv_chain.specs.Creations.{HasNone};
ghost use Rattle.dv_chain.specs.Openings.{HasCause, IsChainOf, IsOutside, IsQuiet, LeavesFolder, found_of};
ghost use Rattle.dv_plans.specs.Begins.{AtReading};
ghost use Rattle.dv_store.specs.Opening.{IsFresh, MakesNew, Opens, OpensQuietly, answered, clock_behind, shelf_behind};

use crate::Store;
use crate::store::fresh;
use dv_model::OpenFault;
use dv_plans::is_number;
use dv_shelf::{Clock, Shelf};
use std::alloc::Global;

impl<S: Shelf, C: Clock> Store<S, C> {
    /// Opens a mailbox folder: its log, and its rotated log and snapshot where they count, give the
    /// mailbox at the log's end. Where the log was cut there, or a record may seem to begin there,
    /// its end is closed by one replace. The folder and the clock are handed back with a fault.
    pub fn open(alloc: Global, mut shelf: S, clock: C) -> Result<Store<S, C>, (S, C, OpenFault)>
        // What is answered is found.
        ensures opens { S.sees.tells → Opens (S.sees.files shelf) result }
        ensures fresh { IfOk result IsFresh }
        // What it leaves of the files, and what a crash leaves; from rest to rest.
        ensures files { S.sees.tells →
            LeavesFolder (S.sees.files shelf) (S.sees.files (shelf_behind result))
            (answered result) }
        ensures quiet { S.sees.tells → IsSettled S.sees shelf →
            OpensQuietly S.sees IsQuiet shelf result }
        // The clock isn't read, and no message file is; a fault of the disk has its cause.
        ensures clock { clock_behind result ≡ clock }
        ensures mail_reads { S.sees.mail_reads (shelf_behind result)
            ≡ counted (S.sees.mail_reads shelf) 0 }
        ensures cause { HasCause (S.sees.fault_count shelf)
            (S.sees.fault_count (shelf_behind result))
            (answered result) }
    {
        match dv_chain::open(alloc, &mut shelf) {
            Ok(chain) => Ok(fresh(alloc, shelf, clock, chain)),
            Err(fault) => Err((shelf, clock, fault)),
        }
    }

    /// Makes the mailbox of a folder that has none, by one replace: its log, whose number and
    /// UIDVALIDITY are the clock's reading, in which 0 counts as 1. `Disk` and `NoMemory` are the
    /// only faults; the folder and the clock are handed back with them. The folder has neither log
    /// nor rotated log nor index before, where clauses speak of what is found.
    pub fn create(
        alloc: Global,
        mut shelf: S,
        mut clock: C,
    ) -> Result<Store<S, C>, (S, C, OpenFault)>
        // The mailbox is a new one, of the clock's reading, and it is found. So are the files, and
        // what a crash leaves of them; from rest to rest.
        ensures made { AtReading C.sees.tells (C.sees.upcoming clock 0)
            (MakesNew S.sees shelf result) }
        ensures opens { S.sees.tells → HasNone (S.sees.files shelf) → IfOk result (λ store.
            IsFound (S.sees.files store.shelf) (found_of store.chain)
            × IsChainOf (S.sees.files store.shelf) store.chain) }
        ensures fresh { IfOk result IsFresh }
        // The clock is read once, and no message file is; a fault of the disk has its cause.
        ensures clock { C.sees.tells →
            C.sees.upcoming (clock_behind result) ≡ behind (C.sees.upcoming clock) 1 }
        ensures err { IfErr (answered result) IsOutside }
        ensures mail_reads { S.sees.mail_reads (shelf_behind result) ≡ S.sees.mail_reads shelf }
        ensures cause { HasCause (S.sees.fault_count shelf)
            (S.sees.fault_count (shelf_behind result))
            (answered result) }
    {
        let now = clock.now();
        is_number(now);
        match dv_chain::create(alloc, &mut shelf, now) {
            Ok(chain) => Ok(fresh(alloc, shelf, clock, chain)),
            Err(fault) => Err((shelf, clock, fault)),
        }
    }
}
