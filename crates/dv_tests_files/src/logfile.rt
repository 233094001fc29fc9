ghost use Rattle.std.specs.Prelude.{◌≡◌, ◌≤◌, All, length, IfOk};
ghost use Rattle.dv_model.specs.Spelling.{IsRecord};
ghost use Rattle.dv_logfile.specs.Layout.{IsGroupText};

mod scans;

use dv_logfile::{CommitFault, Debt, LogFile, group_text, scan};
use dv_model::{Bytes, Group, List, Mark, NoMemory, Record};
use dv_records::decode;
use dv_shelf::{Folder, MemShelf, Name, Shelf};
use std::alloc::Global;
use std::test::Fail;

// The header, the record of a UIDVALIDITY of 1000, and an append of UID 1.
const LOG: [u8; 76] = [
    1, 3, 40, 0, 0xe8, 3, 0, 0, 1, 0, 0, 0, 0, 0, 0, 0, 0, 0, 0, 0, //
    0xe8, 3, 0, 0, 1, 0, 0, 0, 0, 0, 0, 0, 1, 0, 0, 0, 0, 0, 0, 0, //
    0x80, 0x80, 0x80, 0x84, 0x20, 0, 0, 0, 24, 0, 4, 0, 0xe8, 3, 0, 0, //
    0x80, 0x80, 0x80, 0x84, 2, 0, 0, 0x10, 1, 0, 0, 0, 0, 0, 0, 0, //
    0, 0, 0, 0,
];

// `STORE 1 +FLAGS (\Seen)`.
const SEEN: [u8; 20] = [
    0x80, 0x80, 0x80, 0x85, 4, 0, 0, 0x10, 1, 0, 0, 0, 1, 0, 0, 0, 8, 0, 0, 0,
];

// A text that isn't as these tests have it counts as want of memory, which none expects.

// So many records that these bytes begin with.
fn records_of(alloc: Global, bytes: &[u8], count: usize) -> Result<List<Record>, NoMemory>
    ensures { IfOk result (λ records. All IsRecord records) }
{
    let mut records = List::new(alloc);
    let mut at = 0;
    for _ in 0..count {
        if at > bytes.len() {
            return Err(NoMemory);
        }
        match decode(alloc, bytes, at) {
            Ok(found) => {
                records.push(found.0)?;
                at = found.1;
            }
            Err(_) => return Err(NoMemory),
        }
    }
    Ok(records)
}

// The text of a group of so many records.
fn text_of(alloc: Global, bytes: &[u8], count: usize) -> Result<Bytes, NoMemory>
    ensures group { IfOk result IsGroupText }
    ensures short { IfOk result (λ text. length text ≤ 1000) }
{
    let records = records_of(alloc, bytes, count)?;
    if records.is_empty() {
        return Err(NoMemory);
    }
    let text = group_text(alloc, &Group { records })?;
    if text.len() > 1000 {
        return Err(NoMemory);
    }
    Ok(text)
}

// A folder with the log, at rest.
fn shelf_of(alloc: Global, fails: &[u32], stop: Option<u32>) -> Result<MemShelf, NoMemory> {
    let mut folder = List::new(alloc);
    folder.push((Name::Log, List::from_slice(alloc, &LOG)?))?;
    let fails = List::from_slice(alloc, fails)?;
    MemShelf::of(alloc, &folder, 2000, fails, stop)
}

// Where the records of a folder that is a log alone end.
fn end_of(alloc: Global, folder: &Folder) -> Option<u32> {
    let [(Name::Log, log)] = folder.as_slice() else {
        return None;
    };
    match scan(alloc, log.as_slice()) {
        Ok(found) => Some(found.end),
        Err(_) => None,
    }
}

// Whether there are images of the log without the group, and with it; `None` where there are
// others.
fn ends_of(alloc: Global, shelf: &MemShelf) -> Result<Option<(bool, bool)>, NoMemory> {
    let images = shelf.images(alloc)?;
    let mut without = false;
    let mut with = false;
    for image in images.as_slice() {
        match end_of(alloc, image) {
            Some(72) => without = true,
            Some(92) => with = true,
            _ => return Ok(None),
        }
    }
    Ok(Some((without, with)))
}

// Behind which call a crash comes; whether the commit answers Ok, and whether images are without
// the group, and with it.
type Stop = (u32, bool, Option<(bool, bool)>);

// After a stop behind the first three calls both ends are found, before it the old one alone, and
// behind all four calls the new one alone.
const STOPS: [Stop; 5] = [
    (0, false, Some((true, false))),
    (1, false, Some((true, false))),
    (2, false, Some((true, false))),
    (3, false, Some((true, true))),
    (4, true, Some((false, true))),
];

fn is_stopped(alloc: Global, text: &Bytes, stop: &Stop) -> Result<bool, NoMemory>
    requires group { IsGroupText text.now }
    requires short { length text.now ≤ 1000 }
{
    let mut shelf = shelf_of(alloc, &[], Some(stop.0))?;
    let mut log = LogFile {
        file_seq: 1,
        end: 72,
        count: 2,
        debt: Debt::None,
    };
    let done = log.commit(&mut shelf, text);
    Ok(done.is_ok() == stop.1 && ends_of(alloc, &shelf)? == stop.2)
}

fn are_stopped(alloc: Global, stops: &[Stop]) -> Result<(), Fail> {
    let text = text_of(alloc, &SEEN, 1)?;
    for stop in stops {
        if is_stopped(alloc, &text, stop) != Ok(true) {
            return Err(Fail::from(stop.0));
        }
    }
    Ok(())
}

#[test]
fn a_crash_leaves_the_group_whole_or_not_at_all(rt: HostRuntime) -> Result<(), Fail> {
    are_stopped(rt.alloc(), &STOPS)
}

// Whether the log has this group behind its records.
fn has_group(alloc: Global, shelf: &mut MemShelf, group: &[u8]) -> Result<bool, NoMemory> {
    let mut log = List::from_slice(alloc, &LOG[..72])?;
    log.extend(group)?;
    log.extend(&[0; 4])?;
    match shelf.read(alloc, Name::Log) {
        Ok(Some(found)) => Ok(found.as_slice() == log.as_slice()),
        _ => Ok(false),
    }
}

// Whether a commit fails and is healed.
fn is_healed(
    alloc: Global,
    log: &mut LogFile,
    shelf: &mut MemShelf,
    text: &Bytes,
) -> Result<bool, NoMemory>
    requires group { IsGroupText text.now }
    requires short { length text.now ≤ 1000 }
    requires debt { log.old.debt ≡ Debt.None }
    requires end { log.old.end ≤ 72 }
{
    let failed = log.commit(shelf, text);
    if failed.err() != Some(CommitFault::Disk(1)) || log.debt != Debt::Gate || log.end != 72 {
        return Ok(false);
    }
    let is_ok = log.heal(shelf).is_ok();
    Ok(is_ok && ends_of(alloc, shelf)? == Some((true, false)))
}

// Whether a group is committed behind the log's records.
fn is_committed(log: &mut LogFile, shelf: &mut MemShelf, text: &Bytes) -> bool
    requires group { IsGroupText text.now }
    requires short { length text.now ≤ 1000 }
{
    if log.debt != Debt::None || log.end != 72 {
        return false;
    }
    let mark = Mark {
        file_seq: 1,
        offset: 92,
    };
    log.commit(shelf, text) == Ok(mark) && log.count == 3
}

// Whether a group whose last sync fails is committed behind the heal.
fn is_committed_again(alloc: Global, text: &Bytes) -> Result<bool, NoMemory>
    requires group { IsGroupText text.now }
    requires short { length text.now ≤ 1000 }
{
    let mut shelf = shelf_of(alloc, &[4], None)?;
    let mut log = LogFile {
        file_seq: 1,
        end: 72,
        count: 2,
        debt: Debt::None,
    };
    Ok(
        is_healed(alloc, &mut log, &mut shelf, text)?
            && is_committed(&mut log, &mut shelf, text)
            && has_group(alloc, &mut shelf, &SEEN)?,
    )
}

fn passes(found: Result<bool, NoMemory>) -> Result<(), Fail> {
    match found {
        Ok(true) => Ok(()),
        Ok(false) => Err(Fail::from("another answer")),
        Err(error) => Err(Fail::from(error)),
    }
}

#[test]
fn a_failed_sync_is_healed_and_the_group_committed_again(rt: HostRuntime) -> Result<(), Fail> {
    let text = text_of(rt.alloc(), &SEEN, 1)?;
    passes(is_committed_again(rt.alloc(), &text))
}
