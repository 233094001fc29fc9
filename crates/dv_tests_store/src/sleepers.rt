//! A log that is rotated three times while a session sleeps.

ghost use Rattle.std.specs.Prelude.{IfOk};
ghost use Rattle.dv_model.specs.Sessions.{IsCommand};
ghost use Rattle.dv_groups.specs.Groups.{HasFewKeywords};

use dv_apply::Live;
use dv_asks::{MemStore, append, clock_of, created, opened, shelf_with, store};
use dv_model::{Bytes, Command, End, How, List, Mark, Span};
use dv_shelf::{MemShelf, Name, Shelf};
use dv_view::View;
use std::alloc::Global;
use std::test::*;

const MESSAGES: u32 = 164;

const STORES: u32 = 400;

// The bytes of a message's group, and of a STORE's of 82 messages.
const APPEND_SIZE: u32 = 16;

const STORE_SIZE: u32 = 992;

// Where the records of the first log begin behind those that make it, and those of the next ones.
const FIRST_PLACE: u32 = 56;

const NEXT_PLACE: u32 = 40;

// How many STOREs stand in the logs before the second one, the third and the fourth.
const TURNS: [u32; 3] = [130, 263, 396];

fn mark_of(file_seq: u32, first: u32, size: u32, count: u32) -> Mark {
    Mark {
        file_seq,
        offset: first.saturating_add(size.saturating_mul(count)),
    }
}

// The mark behind so many STOREs.
fn mark_behind(count: u32) -> Mark {
    let first = FIRST_PLACE + MESSAGES * APPEND_SIZE;
    if count <= TURNS[0] {
        mark_of(1, first, STORE_SIZE, count)
    } else if count <= TURNS[1] {
        mark_of(2, NEXT_PLACE, STORE_SIZE, count - TURNS[0])
    } else if count <= TURNS[2] {
        mark_of(3, NEXT_PLACE, STORE_SIZE, count - TURNS[1])
    } else {
        mark_of(4, NEXT_PLACE, STORE_SIZE, count - TURNS[2])
    }
}

// The odd message numbers.
fn odd(alloc: Global) -> Result<List<Span>, Fail> {
    let mut set = List::new(alloc);
    for at in 0..MESSAGES / 2 {
        let number = (2 * at).saturating_add(1);
        set.push(Span {
            from: End::Number(number),
            to: End::Number(number),
        })?;
    }
    Ok(set)
}

// Seen of the odd messages.
fn seen(alloc: Global) -> Result<Command, Fail>
    ensures command { IfOk result IsCommand }
    ensures few { IfOk result HasFewKeywords }
{
    Ok(store(odd(alloc)?, How::Add, 8, List::new(alloc), None))
}

// Where a command's group ends, and how long its text is.
fn written(alloc: Global, store: &mut MemStore, command: &Command) -> Result<(Mark, usize), Fail>
    requires command { IsCommand command.now }
    requires few { HasFewKeywords command.now }
{
    let view = View::of(alloc, store.live())?;
    match store.commit_command(command, &view) {
        Ok(receipt) => Ok((receipt.mark, receipt.text.len())),
        Err(_) => Err(Fail::from("not written")),
    }
}

fn are_appended(alloc: Global, store: &mut MemStore) -> Result<bool, Fail> {
    for count in 0..MESSAGES {
        let message = Bytes::from_slice(alloc, b"m")?;
        let command = append(0, List::new(alloc), message);
        let end = written(alloc, store, &command)?;
        let mark = mark_of(1, FIRST_PLACE, APPEND_SIZE, count.saturating_add(1));
        if end != (mark, APPEND_SIZE as usize) {
            return Ok(false);
        }
    }
    Ok(true)
}

fn are_stored(alloc: Global, store: &mut MemStore) -> Result<bool, Fail> {
    let command = seen(alloc)?;
    for count in 0..STORES {
        let end = written(alloc, store, &command)?;
        if end != (mark_behind(count.saturating_add(1)), STORE_SIZE as usize) {
            return Ok(false);
        }
    }
    Ok(true)
}

// Whether the odd messages have Seen since the first STORE, and the others no flag.
fn are_seen(live: &Live) -> bool {
    if live.count() != MESSAGES || live.highest() != 566 {
        return false;
    }
    for at in 0..live.count() {
        let row = live.row(at);
        let expected = if at % 2 == 0 {
            (8, 167)
        } else {
            (0, u64::from(at).saturating_add(3))
        };
        if (row.flags, row.modseq) != expected {
            return false;
        }
    }
    true
}

fn is_awake(store: &MemStore) -> bool {
    store.mark() == mark_of(4, NEXT_PLACE, STORE_SIZE, 4) && are_seen(store.live())
}

// The folder behind all of this.
fn folder_behind(alloc: Global) -> Result<MemShelf, Fail> {
    let mut store = created(
        alloc,
        shelf_with(alloc, &[], &[])?,
        clock_of(alloc, &[1000])?,
    )?;
    if !are_appended(alloc, &mut store)? {
        return Err(Fail::from("another end of an APPEND"));
    }
    if !are_stored(alloc, &mut store)? {
        return Err(Fail::from("another end of a STORE"));
    }
    if !is_awake(&store) {
        return Err(Fail::from("another mailbox"));
    }
    Ok(store.parts().0)
}

fn length_of(alloc: Global, shelf: &mut MemShelf, name: Name) -> Option<usize> {
    match shelf.read(alloc, name) {
        Ok(Some(file)) => Some(file.len()),
        _ => None,
    }
}

#[test]
fn three_rotations_keep_each_group(rt: HostRuntime) -> Result<(), Fail> {
    let alloc = rt.alloc();
    let mut shelf = folder_behind(alloc)?;
    assert!(rt; length_of(alloc, &mut shelf, Name::Log) == Some(4012));
    assert!(rt; length_of(alloc, &mut shelf, Name::Log2) == Some(131_980));
    let store = opened(alloc, shelf, clock_of(alloc, &[1000])?)?;
    assert!(rt; is_awake(&store));
    Ok(())
}
