//! Runs of the program's call, and what is expected of them.

use dv_cli::{Ran, run};
use dv_model::{Bytes, List, NoMemory};
use dv_notices::{Told, told_text};
use dv_shelf::{Folder, MemClock, MemShelf, MemSink, MemSource, Name, OpenGate, Shelf};
use std::alloc::Global;
use std::process::Abort;

/// The files of a folder, each in parts.
pub type Files = &'static [(Name, &'static [&'static [u8]])];

/// What comes before a run.
#[derive(Clone, Copy)]
pub enum Before {
    Nothing,
    /// The snapshot becomes one of another mailbox.
    Renumbered,
    /// Of the folder only the snapshot stays, beside these files.
    Snapshot(Files),
}

/// A run, and what is expected of it.
#[derive(Clone, Copy)]
pub struct Run {
    pub before: Before,
    pub words: &'static [&'static str],
    pub script: &'static str,
    /// The calls that fail, counted from 1: of the folder, of the script and of the output.
    pub fails: &'static [u32],
    pub source_fails: &'static [u32],
    pub sink_fails: &'static [u32],
    pub status: u8,
    /// The output: all of it, or its end where the first part is empty.
    pub text: &'static [&'static str],
    /// A line that stands in the output once, where there is one.
    pub once: &'static str,
    /// What is told beside the output, where it is looked at.
    pub told: Option<&'static str>,
}

/// A script's run that ends well, with nothing that fails.
pub const RUN: Run = Run {
    before: Before::Nothing,
    words: &["run"],
    script: "",
    fails: &[],
    source_fails: &[],
    sink_fails: &[],
    status: 0,
    text: &[""],
    once: "",
    told: None,
};

/// What runs leave in a folder.
#[derive(Clone, Copy)]
pub enum Kept {
    /// So many files.
    Count(usize),
    /// A file's bytes from a place on, in parts.
    File(Name, usize, &'static [&'static [u8]]),
    /// The first bytes of a file.
    Start(Name, &'static [u8]),
    /// How long a file is.
    Length(Name, usize),
}

/// Runs over a folder, one behind the other.
#[derive(Clone, Copy)]
pub struct Case {
    pub name: &'static str,
    pub files: Files,
    pub runs: &'static [Run],
    pub kept: &'static [Kept],
}

/// What a run left.
#[derive(Drop)]
pub struct Left<S: Drop> {
    pub status: u8,
    pub out: MemSink,
    pub told: Told,
    pub shelf: S,
}

/// What a run is given but for its folder.
#[derive(Drop)]
pub struct Outside {
    pub words: Vec<String>,
    pub source: MemSource,
    pub out: MemSink,
    pub clock: MemClock,
}

fn strings(alloc: Global, words: &[&str]) -> Result<Vec<String>, NoMemory> {
    let mut strings = Vec::new(alloc);
    for word in words {
        strings.push(String::from_str(alloc, word)?)?;
    }
    Ok(strings)
}

fn clock(alloc: Global) -> Result<MemClock, NoMemory> {
    let readings = List::from_slice(alloc, &[1000, 1001])?;
    Ok(MemClock::new(alloc, readings))
}

// A script of which these reads fail.
fn source(alloc: Global, script: &[u8], fails: &[u32]) -> Result<MemSource, NoMemory> {
    let bytes = List::from_slice(alloc, script)?;
    let fails = List::from_slice(alloc, fails)?;
    Ok(MemSource::new(alloc, bytes, fails))
}

/// The words, script and output of a run, and a clock that reads 1000 and then 1001.
pub fn outside_of(alloc: Global, script: &[u8], asked: &Run) -> Result<Outside, NoMemory> {
    let words = strings(alloc, asked.words)?;
    let source = source(alloc, script, asked.source_fails)?;
    let fails = List::from_slice(alloc, asked.sink_fails)?;
    let out = MemSink::new(alloc, 1_000_000, fails)?;
    Ok(Outside {
        words,
        source,
        out,
        clock: clock(alloc)?,
    })
}

/// A run of this script, with the words and failures of the run that is asked.
pub fn play_in<S: Shelf + Send + Drop>(
    alloc: Global,
    shelf: S,
    script: &[u8],
    asked: &Run,
) -> Result<Left<S>, NoMemory> {
    let Outside {
        words,
        mut source,
        mut out,
        clock,
    } = outside_of(alloc, script, asked)?;
    let Ran {
        status,
        told,
        shelf,
        clock: _clock,
    } = run(
        alloc,
        words.as_slice(),
        shelf,
        &mut source,
        &mut out,
        clock,
        &OpenGate,
    );
    Ok(Left {
        status,
        out,
        told,
        shelf,
    })
}

/// A folder in memory with room for the loads, which stops behind so many calls.
pub fn shelf_of(
    alloc: Global,
    folder: &Folder,
    fails: &[u32],
    stop: Option<u32>,
) -> Result<MemShelf, NoMemory> {
    let fails = List::from_slice(alloc, fails)?;
    MemShelf::of(alloc, folder, 10_000_000, fails, stop)
}

/// The run that is asked, over a folder in memory.
pub fn play(alloc: Global, folder: &Folder, asked: &Run) -> Result<Left<MemShelf>, NoMemory> {
    let shelf = shelf_of(alloc, folder, asked.fails, None)?;
    play_in(alloc, shelf, asked.script.as_bytes(), asked)
}

/// A folder with these files.
pub fn folder_of(alloc: Global, files: Files) -> Result<Folder, NoMemory> {
    let mut folder = List::new(alloc);
    for (name, parts) in files {
        let bytes = joined(alloc, parts)?;
        folder.push((*name, bytes))?;
    }
    Ok(folder)
}

/// Adds a file to a folder.
pub fn add(alloc: Global, folder: &mut Folder, name: Name, bytes: &[u8]) -> Result<(), NoMemory> {
    folder.push((name, Bytes::from_slice(alloc, bytes)?))?;
    Ok(())
}

/// These parts, one behind the other.
pub fn joined(alloc: Global, parts: &[&[u8]]) -> Result<Bytes, NoMemory> {
    let mut bytes = Bytes::new(alloc);
    for part in parts {
        bytes.extend(part)?;
    }
    Ok(bytes)
}

/// The bytes of a folder's file; none where it isn't there.
pub fn file_in(folder: &Folder, name: Name) -> &[u8] {
    for (other, bytes) in folder.as_slice() {
        if *other == name {
            return bytes.as_slice();
        }
    }
    &[]
}

/// The bytes of a file; none where it isn't there.
pub fn bytes_of(alloc: Global, shelf: &mut MemShelf, name: Name) -> Bytes {
    match shelf.read(alloc, name) {
        Ok(Some(bytes)) => bytes,
        _ => List::new(alloc),
    }
}

/// The files of a folder.
pub fn files_of(alloc: Global, shelf: &mut MemShelf) -> Result<Folder, NoMemory> {
    let Ok(names) = shelf.list(alloc) else {
        return Err(NoMemory);
    };
    let mut files = List::new(alloc);
    for name in names.as_slice() {
        let bytes = bytes_of(alloc, shelf, *name);
        files.push((*name, bytes))?;
    }
    Ok(files)
}

/// How often a word stands in a text.
pub fn count_of(text: &[u8], word: &[u8]) -> usize {
    let mut count = 0usize;
    for at in 0..text.len() {
        let (_, rest) = text.split_at(at);
        if rest.starts_with(word) {
            count = count.saturating_add(1);
        }
    }
    count
}

// Whether the output is so.
fn is_text(output: &[u8], parts: &[&str]) -> bool {
    let mut rest = output;
    for part in parts.iter().rev() {
        match rest.strip_suffix(part.as_bytes()) {
            Some(front) => rest = front,
            None => return false,
        }
    }
    rest.is_empty() || matches!(parts, [first, ..] if first.is_empty())
}

/// Whether a run left what was expected of it.
pub fn is_as_said<S: Drop>(alloc: Global, left: &Left<S>, asked: &Run) -> Result<bool, NoMemory> {
    let output = left.out.taken();
    if left.status != asked.status || !is_text(output, asked.text) {
        return Ok(false);
    }
    if !asked.once.is_empty() && count_of(output, asked.once.as_bytes()) != 1 {
        return Ok(false);
    }
    match asked.told {
        Some(text) => Ok(told_text(alloc, &left.told)?.as_slice() == text.as_bytes()),
        None => Ok(true),
    }
}

// The snapshot with another mailbox's number: its bytes from 16 on.
fn renumbered(alloc: Global, index: &[u8]) -> Result<Bytes, NoMemory> {
    let (front, rest) = index.split_at(index.len().min(16));
    let (_, behind) = rest.split_at(rest.len().min(1));
    joined(alloc, &[front, b"\x4d", behind])
}

// Makes the folder what a run finds.
fn prepare(alloc: Global, folder: &mut Folder, before: &Before) -> Result<(), NoMemory> {
    match before {
        Before::Nothing => Ok(()),
        Before::Renumbered => {
            let index = renumbered(alloc, file_in(folder, Name::Index))?;
            add(alloc, folder, Name::Index, index.as_slice())
        }
        Before::Snapshot(files) => {
            let mut made = folder_of(alloc, files)?;
            add(alloc, &mut made, Name::Index, file_in(folder, Name::Index))?;
            *folder = made;
            Ok(())
        }
    }
}

// Whether a run left what was expected. Its files are read where they are looked at.
fn is_left_so(
    alloc: Global,
    left: &mut Left<MemShelf>,
    asked: &Run,
    folder: &mut Folder,
    is_read: bool,
) -> Result<bool, NoMemory> {
    let is_so = is_as_said(alloc, left, asked)?;
    if is_so && is_read {
        *folder = files_of(alloc, &mut left.shelf)?;
    }
    Ok(is_so)
}

fn is_run_so(
    alloc: Global,
    folder: &mut Folder,
    asked: &Run,
    is_read: bool,
) -> Result<bool, NoMemory> {
    prepare(alloc, folder, &asked.before)?;
    let mut left = play(alloc, folder, asked)?;
    is_left_so(alloc, &mut left, asked, folder, is_read)
}

// Whether bytes are these parts.
fn are_parts(bytes: &[u8], parts: &[&[u8]]) -> bool {
    let mut rest = bytes;
    for part in parts {
        match rest.strip_prefix(part) {
            Some(behind) => rest = behind,
            None => return false,
        }
    }
    rest.is_empty()
}

fn is_kept(folder: &Folder, kept: &Kept) -> bool {
    match kept {
        Kept::Count(count) => folder.len() == *count,
        Kept::File(name, at, parts) => {
            let file = file_in(folder, *name);
            let (_, rest) = file.split_at(file.len().min(*at));
            are_parts(rest, parts)
        }
        Kept::Start(name, bytes) => file_in(folder, *name).starts_with(bytes),
        Kept::Length(name, length) => file_in(folder, *name).len() == *length,
    }
}

// The first of these that isn't kept, counted from there.
fn other_kept(folder: &Folder, all: &[Kept], first: usize) -> Option<usize> {
    for (at, kept) in all.iter().enumerate() {
        if !is_kept(folder, kept) {
            return Some(first.saturating_add(at));
        }
    }
    None
}

// The first run that isn't as it is expected, or behind the runs what isn't kept.
fn other_in(alloc: Global, case: &Case) -> Result<Option<usize>, NoMemory> {
    let mut folder = folder_of(alloc, case.files)?;
    let is_read = case.runs.len() > 1 || !case.kept.is_empty();
    for (at, asked) in case.runs.iter().enumerate() {
        if !is_run_so(alloc, &mut folder, asked, is_read)? {
            return Ok(Some(at));
        }
    }
    Ok(other_kept(&folder, case.kept, case.runs.len()))
}

/// Stops at the first case that isn't as it is expected.
pub fn play_cases(rt: &impl Abort, alloc: Global, cases: &[Case]) {
    for case in cases {
        let other = other_in(alloc, case).unwrap_or(Some(1000));
        assert!(rt; other.is_none(), "{}, at {}", case.name, other.unwrap_or(0));
    }
}
