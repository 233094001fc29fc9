//! A damaged folder is rebuilt.

ghost use Rattle.std.specs.Prelude.{◌≡◌, IfOk};
ghost use Rattle.dv_shelf.specs.Causes.{HasCauseOf};
ghost use Rattle.dv_shelf.specs.Clocks.{behind};
ghost use Rattle.dv_shelf.specs.Crashes.{IsSettled, LeavesOnly};
ghost use Rattle.dv_chain.specs.Openings.{OnlyLooks};
ghost use Rattle.dv_rebuild.specs.Rebuilding.{HasCause, IsOldOrPut, IsOldOrRebuilt, LeavesPut, LeavesRebuilt, Prepares, RebuildsAt, UnlessDisk};

use crate::RebuildFault;
use crate::mails::{has_cache, numbers_of, sift};
use crate::planning::{NewLog, plan};
use crate::reading::read_texts;
use crate::reporting::Report;
use dv_shelf::{Clock, Name, Shelf, ShelfFault};
use std::alloc::Global;

/// What a rebuild did.
#[derive(Drop)]
pub struct Rebuilt {
    /// How many messages are kept.
    pub kept: u32,
    /// How many message files are skipped: their bytes aren't of the format, or their number may
    /// be no UID.
    pub skipped: u32,
    /// The number of the new log.
    pub indexid: u32,
    /// Where its flags come from, and which files are skipped and why.
    pub report: Report,
}

/// What is to be written, and what will be said of it; nothing where the new log would be too long.
fn prepare<S: Shelf>(
    alloc: Global,
    shelf: &mut S,
    now: u32,
) -> Result<Option<(NewLog, Rebuilt)>, ShelfFault>
    ensures prepared { S.sees.tells → IfOk result (Prepares (S.sees.files shelf.old) now) }
    // Nothing is changed; a fault of the disk has its cause.
    ensures looks { S.sees.tells →
        OnlyLooks S.sees shelf.old shelf.new }
    ensures cause { HasCauseOf ShelfFault.Failed
        (S.sees.fault_count shelf.old) (S.sees.fault_count shelf.new) result }
{
    let texts = read_texts(alloc, shelf)?;
    let Ok(numbers) = numbers_of(alloc, texts.names.as_slice()) else {
        return Err(ShelfFault::NoMemory);
    };
    let has_cache = has_cache(texts.names.as_slice());
    let sifted = sift(alloc, shelf, numbers.as_slice())?;
    let Ok(kept) = u32::try_from(sifted.kept.len()) else {
        return Err(ShelfFault::NoMemory);
    };
    let Ok(planned) = plan(alloc, texts, sifted.kept.as_slice(), now) else {
        return Err(ShelfFault::NoMemory);
    };
    let Some(log) = planned else {
        return Ok(None);
    };
    let rebuilt = Rebuilt {
        kept,
        skipped: sifted.skipped,
        indexid: log.indexid,
        report: Report {
            remains: log.remains,
            skips: sifted.skips,
            has_cache,
        },
    };
    Ok(Some((log, rebuilt)))
}

/// Replaces the log by the new one, which was made ready.
fn put<S: Shelf>(shelf: &mut S, log: &NewLog) -> Result<(), RebuildFault>
    ensures files { S.sees.tells →
        LeavesPut (S.sees.files shelf.old) log.now.text (S.sees.files shelf.new) result }
    ensures since { S.sees.tells → IsSettled S.sees shelf.old →
        LeavesOnly S.sees shelf.old shelf.new
        (IsOldOrPut (S.sees.files shelf.old) log.now.text) }
    ensures settled { S.sees.tells → IsSettled S.sees shelf.old →
        UnlessDisk result (IsSettled S.sees shelf.new) }
    ensures cause { HasCause (S.sees.fault_count shelf.old) (S.sees.fault_count shelf.new) result }
{
    match shelf.replace(Name::Log, log.text.as_slice()) {
        Ok(()) => Ok(()),
        Err(_) => Err(RebuildFault::Disk(shelf.faults())),
    }
}

/// Rebuilds the folder at this reading of the clock.
fn rebuild_at<S: Shelf>(alloc: Global, shelf: &mut S, now: u32) -> Result<Rebuilt, RebuildFault>
    ensures files { S.sees.tells →
        LeavesRebuilt (S.sees.files shelf.old) now (S.sees.files shelf.new) result }
    ensures since { S.sees.tells → IsSettled S.sees shelf.old →
        LeavesOnly S.sees shelf.old shelf.new
        (IsOldOrRebuilt (S.sees.files shelf.old) now) }
    ensures settled { S.sees.tells → IsSettled S.sees shelf.old →
        UnlessDisk result (IsSettled S.sees shelf.new) }
    ensures cause { HasCause (S.sees.fault_count shelf.old) (S.sees.fault_count shelf.new) result }
{
    match prepare(alloc, shelf, now) {
        Ok(Some((log, rebuilt))) => {
            put(shelf, &log)?;
            Ok(rebuilt)
        }
        // A log that is too long finds no room anywhere.
        Ok(None) => Err(RebuildFault::NoMemory),
        Err(ShelfFault::Failed) => Err(RebuildFault::Disk(shelf.faults())),
        Err(ShelfFault::NoMemory) => Err(RebuildFault::NoMemory),
    }
}

/// Rebuilds a damaged folder, or one that another server made: its message files are kept, and its
/// log is replaced by a new one that has them, with the flags and keywords that are left in the old
/// log, the rotated log and the snapshot. Nothing else is written: the old snapshot and the rotated
/// log, which are of another number, don't count any more. The folder is listed, the log, the
/// rotated log and the snapshot are read, and then each message file by itself, by rising number.
pub fn rebuild<S: Shelf, C: Clock>(
    alloc: Global,
    shelf: &mut S,
    clock: &mut C,
) -> Result<Rebuilt, RebuildFault>
    // There is a reading, the clock's where it tells, at which the folder is rebuilt: what is left
    // behind Ok and behind an error, and what a crash leaves, at any moment and behind it.
    ensures rebuilds { S.sees.tells →
        RebuildsAt S.sees C.sees.tells (C.sees.upcoming clock.old 0) shelf.old shelf.new result }
    ensures settled { S.sees.tells → IsSettled S.sees shelf.old →
        UnlessDisk result (IsSettled S.sees shelf.new) }
    // The clock is read once; a fault of the disk has its cause.
    ensures clock { C.sees.tells → C.sees.upcoming clock.new
        ≡ behind (C.sees.upcoming clock.old) 1 }
    ensures cause { HasCause (S.sees.fault_count shelf.old) (S.sees.fault_count shelf.new) result }
{
    let now = clock.now();
    rebuild_at(alloc, shelf, now)
}
