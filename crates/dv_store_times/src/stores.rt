//! Commands of a store over a mailbox of many messages.

ghost use Rattle.std.specs.Prelude.{IfOk};
ghost use Rattle.dv_model.specs.Sessions.{IsCommand};
ghost use Rattle.dv_groups.specs.Groups.{HasFewKeywords};

use crate::fault::Fault;
use dv_model::{Bytes, Command, End, How, List, NoMemory, Span};
use dv_shelf::{Folder, MemClock, MemShelf, Name, Shelf};
use dv_store::Store;
use dv_view::View;
use std::alloc::Global;
use std::time::Instant;

/// How many messages are appended, and how many flags changed.
pub const WRITES: u32 = 1000;

/// How many messages are expunged, one after another.
pub const EXPUNGES: u32 = 100;

// The room of a folder in memory, in bytes.
const ROOM: u32 = 10_000_000;

const DELETED: u8 = 0x04;

const SEEN: u8 = 0x08;

// The log of a mailbox that was made at 1000, without messages.
const LOG: &[u8] = b"\x01\x03\x28\0\xe8\x03\0\0\x01\0\0\0\0\0\0\0\0\0\0\0\
    \xe8\x03\0\0\x01\0\0\0\0\0\0\0\x01\0\0\0\0\0\0\0\
    \x80\x80\x80\x84\x20\0\0\0\x18\0\x04\0\xe8\x03\0\0\0\0\0\0";

/// How long the appended messages took, and the changed flags, in microseconds.
#[derive(Clone, Copy)]
pub struct WriteTimes {
    pub appends: u128,
    pub changes: u128,
}

/// How long the expunged messages took, and a CHECK, in microseconds.
#[derive(Clone, Copy)]
pub struct ReadTimes {
    pub expunges: u128,
    pub check: u128,
}

fn append(alloc: Global, flags: u8) -> Result<Command, NoMemory>
    ensures command { IfOk result IsCommand }
    ensures few { IfOk result HasFewKeywords }
{
    Ok(Command::Append {
        flags,
        keywords: List::new(alloc),
        message: Bytes::from_slice(alloc, b"Subject: Hello\r\n\r\nHi\r\n")?,
    })
}

// The message of this UID is seen, or not seen.
fn change(alloc: Global, uid: u32, how: How) -> Result<Command, NoMemory>
    ensures command { IfOk result IsCommand }
    ensures few { IfOk result HasFewKeywords }
{
    let span = Span {
        from: End::Number(uid),
        to: End::Number(uid),
    };
    Ok(Command::Store {
        by_uid: true,
        set: List::from_slice(alloc, &[span])?,
        how,
        flags: SEEN,
        keywords: List::new(alloc),
        unchanged_since: None,
    })
}

// A command that writes a group.
fn commit<S: Shelf>(
    store: &mut Store<S, MemClock>,
    view: &View,
    command: &Command,
) -> Result<(), Fault>
    requires command { IsCommand command.now }
    requires few { HasFewKeywords command.now }
{
    match store.commit_command(command, view) {
        Ok(receipt) if !receipt.text.is_empty() => Ok(()),
        _ => Err(Fault::NotWritten),
    }
}

// The microseconds that a command takes.
fn time_one<S: Shelf>(
    rt: HostRuntime,
    store: &mut Store<S, MemClock>,
    view: &View,
    command: &Command,
) -> Result<u128, Fault>
    requires command { IsCommand command.now }
    requires few { HasFewKeywords command.now }
{
    let start = Instant::now(&rt)?;
    commit(store, view, command)?;
    Ok(start.elapsed(&rt)?.as_micros())
}

// The command is written again and again.
fn commit_each<S: Shelf>(
    store: &mut Store<S, MemClock>,
    view: &View,
    command: &Command,
) -> Result<(), Fault>
    requires command { IsCommand command.now }
    requires few { HasFewKeywords command.now }
{
    for _ in 0..WRITES {
        commit(store, view, command)?;
    }
    Ok(())
}

fn time_appends<S: Shelf>(
    rt: HostRuntime,
    store: &mut Store<S, MemClock>,
    view: &View,
) -> Result<u128, Fault> {
    let command = append(rt.alloc(), 0)?;
    let start = Instant::now(&rt)?;
    commit_each(store, view, &command)?;
    Ok(start.elapsed(&rt)?.as_micros())
}

// Two commands are written by turns.
fn commit_by_turns<S: Shelf>(
    store: &mut Store<S, MemClock>,
    view: &View,
    first: &Command,
    second: &Command,
) -> Result<(), Fault>
    requires commands { IsCommand first.now × IsCommand second.now }
    requires few { HasFewKeywords first.now × HasFewKeywords second.now }
{
    for _ in 0..WRITES / 2 {
        commit(store, view, first)?;
        commit(store, view, second)?;
    }
    Ok(())
}

// A flag of the message of this UID is set by a command and taken back by turns.
fn time_turns<S: Shelf>(
    rt: HostRuntime,
    store: &mut Store<S, MemClock>,
    view: &View,
    uid: u32,
    set: &Command,
) -> Result<u128, Fault>
    requires command { IsCommand set.now }
    requires few { HasFewKeywords set.now }
{
    let take = change(rt.alloc(), uid, How::Remove)?;
    let start = Instant::now(&rt)?;
    commit_by_turns(store, view, set, &take)?;
    Ok(start.elapsed(&rt)?.as_micros())
}

fn time_changes<S: Shelf>(
    rt: HostRuntime,
    store: &mut Store<S, MemClock>,
    view: &View,
    uid: u32,
) -> Result<u128, Fault> {
    let set = change(rt.alloc(), uid, How::Add)?;
    time_turns(rt, store, view, uid, &set)
}

// A command, and an expunge behind it, by turns. The expunges alone are timed.
fn time_each_expunge<S: Shelf>(
    rt: HostRuntime,
    store: &mut Store<S, MemClock>,
    view: &View,
    command: &Command,
) -> Result<u128, Fault>
    requires command { IsCommand command.now }
    requires few { HasFewKeywords command.now }
{
    let mut times: u128 = 0;
    for _ in 0..EXPUNGES {
        commit(store, view, command)?;
        let time = time_one(rt, store, view, &Command::Expunge)?;
        times = times.saturating_add(time);
    }
    Ok(times)
}

// Messages are appended as deleted, and each is expunged before the next one.
fn time_expunges<S: Shelf>(
    rt: HostRuntime,
    store: &mut Store<S, MemClock>,
    view: &View,
) -> Result<u128, Fault> {
    let command = append(rt.alloc(), DELETED)?;
    time_each_expunge(rt, store, view, &command)
}

// What a session sees of a store of so many messages.
fn seen<S: Shelf>(alloc: Global, store: &Store<S, MemClock>, rows: u32) -> Result<View, Fault> {
    if store.live().count() != rows {
        return Err(Fault::NotOpened);
    }
    Ok(View::of(alloc, store.live())?)
}

// Times the writes of messages and flags over a store of so many messages.
fn time_writes<S: Shelf>(
    rt: HostRuntime,
    store: &mut Store<S, MemClock>,
    rows: u32,
) -> Result<WriteTimes, Fault> {
    let view = seen(rt.alloc(), store, rows)?;
    Ok(WriteTimes {
        appends: time_appends(rt, store, &view)?,
        changes: time_changes(rt, store, &view, rows / 2 + 1)?,
    })
}

// Times the commands that read message files.
fn time_reads<S: Shelf>(
    rt: HostRuntime,
    store: &mut Store<S, MemClock>,
    rows: u32,
) -> Result<ReadTimes, Fault> {
    let view = seen(rt.alloc(), store, rows)?;
    Ok(ReadTimes {
        expunges: time_expunges(rt, store, &view)?,
        check: time_one(rt, store, &view, &Command::Check)?,
    })
}

// A clock that always reads 1000.
fn clock(alloc: Global) -> Result<MemClock, NoMemory> {
    Ok(MemClock::new(alloc, List::from_slice(alloc, &[1000])?))
}

// The files of a mailbox with this snapshot.
fn folder(alloc: Global, index: Bytes) -> Result<Folder, NoMemory> {
    let mut files = List::new(alloc);
    files.push((Name::Log, Bytes::from_slice(alloc, LOG)?))?;
    files.push((Name::Index, index))?;
    Ok(files)
}

fn opened<S: Shelf + Drop>(alloc: Global, shelf: S) -> Result<Store<S, MemClock>, Fault> {
    match Store::open(alloc, shelf, clock(alloc)?) {
        Ok(store) => Ok(store),
        Err(_) => Err(Fault::NotOpened),
    }
}

/// Times the writes over the mailbox of so many messages of which this is the snapshot, at the end
/// of its log. The folder is in memory, and has no message file.
pub fn time_in_memory(rt: HostRuntime, rows: u32, index: Bytes) -> Result<WriteTimes, Fault> {
    let alloc = rt.alloc();
    let shelf = MemShelf::of(alloc, &folder(alloc, index)?, ROOM, List::new(alloc), None)?;
    time_writes(rt, &mut opened(alloc, shelf)?, rows)
}

/// Times the commands that read message files over a folder of so many messages.
pub fn time_in_folder<S: Shelf + Drop>(
    rt: HostRuntime,
    rows: u32,
    shelf: S,
) -> Result<ReadTimes, Fault> {
    time_reads(rt, &mut opened(rt.alloc(), shelf)?, rows)
}
