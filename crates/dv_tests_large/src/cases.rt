//! One run, and how it is to end.

use crate::folders::{folder_of, log_of_rows, named_folder};
use dv_cli::{Ran, run};
use dv_model::{Bytes, List};
use dv_shelf::{Folder, MemClock, MemShelf, MemSink, MemSource, Name, OpenGate, Shelf};
use std::alloc::Global;
use std::test::Fail;

/// What is played.
#[derive(Clone, Copy)]
pub enum Task {
    /// So many sessions select a new mailbox, see a message come, and are told of it.
    Sessions(u32),
    /// All messages of a long log get a flag.
    Changes,
    /// Two messages with many keywords get a new log.
    Rebuild,
    /// A client of another UIDVALIDITY hears of all messages of a long log.
    Resync,
}

/// A task, the last line of its output, and the fewest bytes that the log then has.
pub struct Case {
    pub task: Task,
    pub last: &'static [u8],
    pub log: usize,
}

// What is written in the folder, and what is printed, at most.
const ROOM: u32 = 16_000_000;

const MARKED: &[u8] = b"a SELECT\na UID STORE 1:* +FLAGS (\\Seen)\n";

// Each session selects, then the first appends a message, and each is told of that.
fn script_of_sessions(alloc: Global, count: u32) -> Result<Bytes, Fail> {
    let mut script = List::new(alloc);
    for n in 0..count {
        script.extend(format!(in alloc; "s{n} SELECT\n")?.as_bytes())?;
    }
    script.extend(b"s0 APPEND () {1}\nx\n")?;
    for n in 0..count {
        script.extend(format!(in alloc; "s{n} NOOP\n")?.as_bytes())?;
    }
    Ok(script)
}

// The words of a task.
fn words_of(task: Task) -> &'static [&'static str] {
    match task {
        Task::Sessions(_) | Task::Changes => &["run"],
        Task::Rebuild => &["rebuild"],
        Task::Resync => &["resync", "1", "0", "1:*"],
    }
}

fn strings(alloc: Global, words: &[&str]) -> Result<Vec<String>, Fail> {
    let mut strings = Vec::new(alloc);
    for word in words {
        strings.push(String::from_str(alloc, word)?)?;
    }
    Ok(strings)
}

// The folder and the script of a task.
fn given(alloc: Global, task: Task) -> Result<(Folder, Bytes), Fail> {
    match task {
        Task::Sessions(count) => Ok((List::new(alloc), script_of_sessions(alloc, count)?)),
        Task::Changes => {
            let folder = folder_of(alloc, log_of_rows(alloc)?)?;
            Ok((folder, Bytes::from_slice(alloc, MARKED)?))
        }
        Task::Rebuild => Ok((named_folder(alloc)?, List::new(alloc))),
        Task::Resync => Ok((folder_of(alloc, log_of_rows(alloc)?)?, List::new(alloc))),
    }
}

// How many bytes the folder's log has.
fn log_size(alloc: Global, shelf: &mut MemShelf) -> usize {
    match shelf.read(alloc, Name::Log) {
        Ok(Some(log)) => log.len(),
        _ => 0,
    }
}

/// Fails unless the run ends with status 0 and as it is expected.
pub fn play(alloc: Global, case: &Case) -> Result<(), Fail> {
    let (folder, script) = given(alloc, case.task)?;
    let words = strings(alloc, words_of(case.task))?;
    let shelf = MemShelf::of(alloc, &folder, ROOM, List::new(alloc), None)?;
    let mut script = MemSource::new(alloc, script, List::new(alloc));
    let mut out = MemSink::new(alloc, ROOM, List::new(alloc))?;
    let clock = MemClock::new(alloc, List::from_slice(alloc, &[2000])?);
    let Ran {
        status,
        told: _told,
        mut shelf,
        clock: _clock,
    } = run(
        alloc,
        &words,
        shelf,
        &mut script,
        &mut out,
        clock,
        &OpenGate,
    );
    if status != 0 {
        return Err(Fail::from("another status"));
    }
    if !out.taken().ends_with(case.last) {
        return Err(Fail::from("another last line"));
    }
    if log_size(alloc, &mut shelf) < case.log {
        return Err(Fail::from("a shorter log"));
    }
    Ok(())
}
