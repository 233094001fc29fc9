//! A folder over a system in memory, whose calls are made in turn.

use crate::allowed::{Allowed, Change, are_images};
use dv_disk::{Folder, Missing};
use dv_memory_system::{MemSystem, Trace};
use dv_model::{Bytes, List, NoMemory};
use dv_shelf::{Name, Shelf};
use dv_system::Entry;
use std::alloc::Global;

/// What is there at the start.
#[derive(Clone, Copy)]
pub enum Found {
    /// No folder.
    Nothing,
    /// A folder with this file, if any, and with a temporary file that was left over.
    Folder(Option<(Name, &'static [u8])>, &'static [u8]),
}

/// A folder over a system of which these calls fail and leave that trace, and those behind a stop
/// fail too.
#[derive(Clone, Copy)]
pub struct Setup<'a> {
    pub found: Found,
    pub missing: Missing,
    pub fails: &'a [u32],
    pub stop: Option<u32>,
    pub trace: Trace,
}

/// A folder that is missing, over a system of which no call fails.
pub const NEW: Setup<'static> = Setup {
    found: Found::Nothing,
    missing: Missing::Make,
    fails: &[],
    stop: None,
    trace: Trace::Nothing,
};

/// A folder with a log and a temporary file that was left over.
pub const WITH_LOG: Setup<'static> = Setup {
    found: Found::Folder(Some((Name::Log, b"log")), b"left over"),
    ..NEW
};

/// How many of the changes have to fail.
#[derive(Clone, Copy)]
pub enum Failures {
    None,
    Some,
    Any,
}

/// A call on a folder with what it has to answer, or a look at the system below.
#[derive(Clone, Copy)]
pub enum Step {
    /// Whether a mailbox is there; `None` is a failure.
    Has(Option<bool>),
    /// The names that are there, in any order.
    Lists(&'static [Name]),
    ListFails,
    /// The names, or a failure.
    ListsOrFails(&'static [Name]),
    /// The bytes that a read gives, or that there is no file.
    Reads(Name, Option<&'static [u8]>),
    ReadFails(Name),
    /// Whether the change answers Ok.
    Changes(Change, bool),
    /// These changes of the index and of the log, which has these bytes before them: each image
    /// behind each of them has what a crash may leave, and each that failed is counted.
    Follows(Option<&'static [u8]>, &'static [Change], Failures),
    /// Whether the temporary file is there.
    Temporary(bool),
    /// So many failures are counted.
    Faults(u64),
    /// The system has had so many calls.
    Calls(u64),
}

/// The files of a folder that has one, or none.
pub fn files_of(
    alloc: Global,
    file: Option<(Name, &[u8])>,
) -> Result<List<(Name, Bytes)>, NoMemory> {
    let Some((name, bytes)) = file else {
        return Ok(List::new(alloc));
    };
    let bytes = List::from_slice(alloc, bytes)?;
    let mut files = List::new(alloc);
    files.push((name, bytes))?;
    Ok(files)
}

// Of a folder, its files and its temporary file each has one owner, so that each is let go in one
// place.
fn folder_over(
    alloc: Global,
    setup: &Setup<'_>,
    files: &List<(Name, Bytes)>,
    temporary: &Option<Bytes>,
) -> Result<Folder<MemSystem>, NoMemory> {
    let fails = List::from_slice(alloc, setup.fails)?;
    let system = MemSystem::of(alloc, files, temporary, fails, setup.stop, setup.trace)?;
    Ok(Folder::new(alloc, system, setup.missing))
}

fn folder_with(
    alloc: Global,
    setup: &Setup<'_>,
    files: &List<(Name, Bytes)>,
    temporary: &[u8],
) -> Result<Folder<MemSystem>, NoMemory> {
    let temporary = Some(List::from_slice(alloc, temporary)?);
    folder_over(alloc, setup, files, &temporary)
}

fn new_folder(alloc: Global, setup: &Setup<'_>) -> Result<Folder<MemSystem>, NoMemory> {
    let fails = List::from_slice(alloc, setup.fails)?;
    let system = MemSystem::new(alloc, fails, setup.stop, setup.trace);
    Ok(Folder::new(alloc, system, setup.missing))
}

fn folder_of(alloc: Global, setup: &Setup<'_>) -> Result<Folder<MemSystem>, NoMemory> {
    match setup.found {
        Found::Nothing => new_folder(alloc, setup),
        Found::Folder(file, temporary) => {
            let files = files_of(alloc, file)?;
            folder_with(alloc, setup, &files, temporary)
        }
    }
}

// The longest place and text of a write, in bytes.
const LONGEST: u32 = 4096;

fn is_changed(folder: &mut Folder<MemSystem>, change: Change) -> bool {
    match change {
        Change::Replace(name, bytes) => folder.replace(name, bytes).is_ok(),
        Change::Write(name, at, bytes) => {
            at <= LONGEST
                && bytes.len() <= LONGEST as usize
                && folder.write_at(name, at, bytes).is_ok()
        }
        Change::Sync(name) => folder.sync(name).is_ok(),
        Change::Remove(name) => folder.remove(name).is_ok(),
    }
}

fn are_names(found: &[Name], names: &[Name]) -> bool {
    for name in names {
        if !found.contains(name) {
            return false;
        }
    }
    found.len() == names.len()
}

// Whether these names are listed; `None` is a failure.
fn lists(alloc: Global, folder: &mut Folder<MemSystem>, names: &[Name]) -> Option<bool> {
    match folder.list(alloc) {
        Ok(found) => Some(are_names(found.as_slice(), names)),
        Err(_) => None,
    }
}

// Whether a read gives this; `None` is a failure.
fn reads(
    alloc: Global,
    folder: &mut Folder<MemSystem>,
    name: Name,
    expected: Option<&[u8]>,
) -> Option<bool> {
    match folder.read(alloc, name) {
        Ok(Some(bytes)) => Some(expected == Some(bytes.as_slice())),
        Ok(None) => Some(expected.is_none()),
        Err(_) => None,
    }
}

// The files that the changes of a step are made to.
#[derive(Drop)]
struct Watched {
    index: Allowed,
    log: Allowed,
}

impl Watched {
    // No index, and this log, or none.
    fn new(alloc: Global, log: Option<&[u8]>) -> Result<Watched, NoMemory> {
        Ok(Watched {
            index: Allowed::only(alloc, Name::Index, None)?,
            log: Allowed::only(alloc, Name::Log, log)?,
        })
    }

    fn follow(
        &mut self,
        alloc: Global,
        change: Change,
        is_ok: bool,
        read: &Option<Bytes>,
    ) -> Result<(), NoMemory> {
        let bytes = match read {
            Some(bytes) => Some(bytes.as_slice()),
            None => None,
        };
        self.index.follow(alloc, change, is_ok, bytes)?;
        self.log.follow(alloc, change, is_ok, bytes)
    }

    // Whether each image has what a crash may leave behind this change.
    fn holds_behind(
        &mut self,
        alloc: Global,
        folder: &Folder<MemSystem>,
        change: Change,
        is_ok: bool,
    ) -> Result<bool, NoMemory> {
        let read = folder.system().file(alloc, Entry::File(change.name()))?;
        self.follow(alloc, change, is_ok, &read)?;
        let images = folder.system().images(alloc)?;
        Ok(are_images(images.as_slice(), &self.index, &self.log))
    }
}

// Makes changes, and counts those that failed; `None` where an image has something else.
fn count_failed(
    alloc: Global,
    folder: &mut Folder<MemSystem>,
    watched: &mut Watched,
    changes: &[Change],
) -> Result<Option<u64>, NoMemory> {
    let mut failed = 0u64;
    for change in changes {
        let is_ok = is_changed(folder, *change);
        failed = failed.saturating_add(u64::from(!is_ok));
        if !watched.holds_behind(alloc, folder, *change, is_ok)? {
            return Ok(None);
        }
    }
    Ok(Some(failed))
}

fn fail_so(
    alloc: Global,
    folder: &mut Folder<MemSystem>,
    watched: &mut Watched,
    changes: &[Change],
    failures: Failures,
) -> Result<bool, NoMemory> {
    let before = folder.faults();
    let Some(failed) = count_failed(alloc, folder, watched, changes)? else {
        return Ok(false);
    };
    let is_expected = match failures {
        Failures::None => failed == 0,
        Failures::Some => failed > 0,
        Failures::Any => true,
    };
    Ok(is_expected && folder.faults() == before.saturating_add(failed))
}

fn follows(
    alloc: Global,
    folder: &mut Folder<MemSystem>,
    log: Option<&[u8]>,
    changes: &[Change],
    failures: Failures,
) -> Result<bool, NoMemory> {
    let mut watched = Watched::new(alloc, log)?;
    fail_so(alloc, folder, &mut watched, changes, failures)
}

fn has_temporary(alloc: Global, folder: &Folder<MemSystem>) -> Result<bool, NoMemory> {
    Ok(folder.system().file(alloc, Entry::Temporary)?.is_some())
}

fn holds(alloc: Global, folder: &mut Folder<MemSystem>, step: &Step) -> Result<bool, NoMemory> {
    Ok(match *step {
        Step::Has(expected) => folder.has_mailbox(alloc).ok() == expected,
        Step::Lists(names) => lists(alloc, folder, names) == Some(true),
        Step::ListFails => lists(alloc, folder, &[]).is_none(),
        Step::ListsOrFails(names) => lists(alloc, folder, names) != Some(false),
        Step::Reads(name, expected) => reads(alloc, folder, name, expected) == Some(true),
        Step::ReadFails(name) => reads(alloc, folder, name, None).is_none(),
        Step::Changes(change, is_ok) => is_changed(folder, change) == is_ok,
        Step::Follows(log, changes, failures) => follows(alloc, folder, log, changes, failures)?,
        Step::Temporary(is_there) => has_temporary(alloc, folder)? == is_there,
        Step::Faults(count) => folder.faults() == count,
        Step::Calls(count) => folder.system().call_count() == count,
    })
}

fn all_hold(
    alloc: Global,
    folder: &mut Folder<MemSystem>,
    steps: &[Step],
) -> Result<bool, NoMemory> {
    for step in steps {
        if !holds(alloc, folder, step)? {
            return Ok(false);
        }
    }
    Ok(true)
}

/// Whether these steps hold, one after another.
pub fn play(alloc: Global, setup: &Setup<'_>, steps: &[Step]) -> Result<bool, NoMemory> {
    let mut folder = folder_of(alloc, setup)?;
    all_hold(alloc, &mut folder, steps)
}

fn count_of(
    alloc: Global,
    folder: &mut Folder<MemSystem>,
    changes: &[Change],
) -> Result<u32, NoMemory> {
    if !follows(alloc, folder, None, changes, Failures::None)? {
        return Ok(0);
    }
    Ok(u32::try_from(folder.system().call_count()).unwrap_or(0))
}

/// How many calls of the system these changes of a new folder are, if none fails and each image has
/// what a crash may leave; or else 0.
pub fn count_calls(alloc: Global, changes: &[Change]) -> Result<u32, NoMemory> {
    let mut folder = new_folder(alloc, &NEW)?;
    count_of(alloc, &mut folder, changes)
}
