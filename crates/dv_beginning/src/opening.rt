//! The mailbox of a folder is opened, or made where there is none.

ghost use Rattle.std.specs.Prelude.{◌≡◌, All, IfErr, IfOk, MatchBool};
ghost use Rattle.dv_model.specs.Journals.{HasResets, IsSound, IsU32};
ghost use Rattle.dv_model.specs.Mailboxes.{IsValid};
ghost use Rattle.dv_shelf.specs.Crashes.{IsSettled};
ghost use Rattle.dv_chain.specs.Openings.{HasCause, IsOutside, OnlyLooks};
ghost use Rattle.dv_store.specs.Opening.{IsFresh, answered, clock_behind, shelf_behind};
ghost use Rattle.dv_beginning.specs.Begins.{Begins, start_of};
ghost use Rattle.dv_beginning.specs.Causes.{TakesForOpening, TellsOpening};
ghost use Rattle.dv_serving.specs.NextRuns.{IsTrueFolder};
ghost use Rattle.dv_serving.specs.Readings.{AtReadings};
ghost use Rattle.dv_shelf.specs.Folders.{IsNew};

use dv_model::{Extension, OpenFault};
use dv_plans::is_number;
use dv_shelf::{Clock, Shelf, ShelfFault};
use dv_store::Store;
use std::alloc::Global;

/// Whether the folder has a file of a mailbox.
fn has_mailbox<S: Shelf>(alloc: Global, shelf: &mut S) -> Result<bool, OpenFault>
    ensures is { S.sees.tells → IfOk result (λ has.
        MatchBool has (IsNew (S.sees.files shelf.old) → ⊥) (IsNew (S.sees.files shelf.old))) }
    ensures looks { S.sees.tells →
        OnlyLooks S.sees shelf.old shelf.new }
    ensures err { IfErr result IsOutside }
    ensures cause { HasCause (S.sees.fault_count shelf.old) (S.sees.fault_count shelf.new) result }
{
    match shelf.has_mailbox(alloc) {
        Ok(has) => Ok(has),
        Err(ShelfFault::Failed) => Err(OpenFault::Disk(shelf.faults())),
        Err(ShelfFault::NoMemory) => Err(OpenFault::NoMemory),
    }
}

/// The reset numbers of extensions are of 32 bits. Nothing is computed.
fn are_numbers(extensions: &[Extension])
    ensures { All (λ e. IsU32 e.reset_id) extensions.now }
{
    for extension in extensions {
        is_number(extension.reset_id);
    }
}

/// The mailbox of a store is valid, and its numbers are those of their types. Nothing is computed.
fn have_types<S, C>(store: &Store<S, C>)
    ensures valid { IsValid store.now.chain.live.mailbox }
    ensures resets { HasResets store.now.chain.live.mailbox }
    ensures place { IsU32 store.now.chain.log.file_seq × IsU32 store.now.chain.log.end }
    ensures indexid { IsU32 store.now.chain.indexid }
{
    let live = store.live();
    let _next = live.next_uid();
    let mark = store.place();
    is_number(mark.file_seq);
    is_number(mark.offset);
    is_number(store.indexid());
    are_numbers(live.extensions().list().as_slice());
}

/// Opens the mailbox of a folder that has a file of one.
fn open_found<S: Shelf, C: Clock>(
    alloc: Global,
    shelf: S,
    clock: C,
) -> Result<Store<S, C>, (S, C, OpenFault)>
    ensures begins { S.sees.tells → IsSettled S.sees shelf →
        IsTrueFolder (S.sees.files shelf) → (IsNew (S.sees.files shelf) → ⊥) →
        AtReadings C.sees.tells (C.sees.upcoming clock) (λ readings.
        Begins S.sees C.sees readings shelf result) }
    ensures found { S.sees.tells → (IsNew (S.sees.files shelf) → ⊥) →
        TellsOpening (S.sees.files shelf) (answered result) }
    ensures fresh { IfOk result IsFresh }
    ensures sound { IfOk result (λ store. IsSound (start_of S.sees store)) }
    ensures clock { clock_behind result ≡ clock }
    ensures cause { HasCause (S.sees.fault_count shelf) (S.sees.fault_count (shelf_behind result))
        (answered result) }
{
    match Store::open(alloc, shelf, clock) {
        Ok(store) => {
            have_types(&store);
            Ok(store)
        }
        Err(e) => Err(e),
    }
}

/// Makes the mailbox of a folder that has none.
fn make_new<S: Shelf, C: Clock>(
    alloc: Global,
    shelf: S,
    clock: C,
) -> Result<Store<S, C>, (S, C, OpenFault)>
    ensures begins { S.sees.tells → IsSettled S.sees shelf → IsNew (S.sees.files shelf) →
        AtReadings C.sees.tells (C.sees.upcoming clock) (λ readings.
        Begins S.sees C.sees readings shelf result) }
    ensures found { S.sees.tells → IsNew (S.sees.files shelf) →
        TellsOpening (S.sees.files shelf) (answered result) }
    ensures fresh { IfOk result IsFresh }
    ensures sound { IfOk result (λ store. IsSound (start_of S.sees store)) }
    ensures clock { C.sees.tells →
        TakesForOpening (C.sees.upcoming clock) (C.sees.upcoming (clock_behind result))
        (answered result) }
    ensures cause { HasCause (S.sees.fault_count shelf) (S.sees.fault_count (shelf_behind result))
        (answered result) }
{
    match Store::create(alloc, shelf, clock) {
        Ok(store) => {
            have_types(&store);
            Ok(store)
        }
        Err(e) => Err(e),
    }
}

/// Opens the mailbox of a folder, or makes one where the folder has no file of a mailbox. The
/// folder and the clock are handed back with a fault.
pub fn open_folder<S: Shelf, C: Clock>(
    alloc: Global,
    mut shelf: S,
    clock: C,
) -> Result<Store<S, C>, (S, C, OpenFault)>
    // Of a settled folder with a true cache: the log that it starts from, what is left, and what a
    // crash leaves at any moment. A mailbox that is made has a reading, the clock's where it tells.
    ensures begins { S.sees.tells → IsSettled S.sees shelf → IsTrueFolder (S.sees.files shelf) →
        AtReadings C.sees.tells (C.sees.upcoming clock) (λ readings.
        Begins S.sees C.sees readings shelf result) }
    // Of any folder: a fault that is found is told, and only where there is none it is opened.
    ensures found { S.sees.tells → TellsOpening (S.sees.files shelf) (answered result) }
    // Over any folder: the store was opened just now, and what it starts from is sound.
    ensures fresh { IfOk result IsFresh }
    ensures sound { IfOk result (λ store. IsSound (start_of S.sees store)) }
    // The clock is read at most once, where a mailbox is made; a fault of the disk has its cause.
    ensures clock { C.sees.tells →
        TakesForOpening (C.sees.upcoming clock) (C.sees.upcoming (clock_behind result))
        (answered result) }
    ensures cause { HasCause (S.sees.fault_count shelf) (S.sees.fault_count (shelf_behind result))
        (answered result) }
{
    match has_mailbox(alloc, &mut shelf) {
        Ok(true) => open_found(alloc, shelf, clock),
        Ok(false) => make_new(alloc, shelf, clock),
        Err(fault) => Err((shelf, clock, fault)),
    }
}
