//! The storage that a run begins from: a folder opened, or made where there is none.

ghost use Rattle.std.specs.Prelude.{IfErr, IfOk};
ghost use Rattle.dv_shelf.specs.Crashes.{IsSettled};
ghost use Rattle.dv_chain.specs.Openings.{HasCause};
ghost use Rattle.dv_maps.specs.Storages as storages;
ghost use Rattle.dv_mdbox.specs.Opening.{TakesToOpen, TellsFolder, answered, clock_behind, shelf_behind};
ghost use Rattle.dv_mdbox_serving.specs.Opening.{IsBegun, LeavesUnopened};
ghost use Rattle.dv_mdbox_serving.specs.Places.{StartsFrom};

use dv_mdbox::Storage;
use dv_model::OpenFault;
use dv_shelf::{Clock, Shelf};
use std::alloc::Global;

/// Opens the storage of a folder, or makes one where the folder has no file of a storage. The
/// folder and the clock are handed back with a fault.
pub fn open_storage<S: Shelf, C: Clock>(
    alloc: Global,
    shelf: S,
    clock: C,
) -> Result<Storage<S, C>, (S, C, OpenFault)>
    // Of a settled folder that gives a storage, or has none: a run begins from that.
    ensures begins { S.sees.tells → IsSettled S.sees shelf → (start : storages.Storage) →
        StartsFrom (S.sees.files shelf) start → IfOk result (IsBegun S.sees start shelf) }
    // Of any settled folder: what a fault leaves, at any moment too.
    ensures unopened { S.sees.tells → IsSettled S.sees shelf →
        IfErr result (λ e. LeavesUnopened S.sees e.2 shelf e.0) }
    // Of any folder: what it holds is told.
    ensures found { S.sees.tells → TellsFolder (S.sees.files shelf) (answered result) }
    // The clock is read at most once, where a storage is made; a fault of the disk has its cause.
    ensures clock { C.sees.tells → TakesToOpen (C.sees.upcoming clock)
        (C.sees.upcoming (clock_behind result)) (answered result) }
    ensures cause { HasCause (S.sees.fault_count shelf) (S.sees.fault_count (shelf_behind result))
        (answered result) }
{
    Storage::open(alloc, shelf, clock)
}
