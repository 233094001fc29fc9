ghost use Rattle.std.specs.Prelude.{All, IfOk};
ghost use Rattle.dv_model.specs.Sessions.{IsCommand};
ghost use Rattle.dv_responses.specs.Depth.{IsShallow};
ghost use Rattle.dv_world.specs.Shapes.{IsPlayable};

use crate::fault::Fault;
use dv_model::{Bytes, Command, End, How, List, NoMemory, Span};
use dv_world::{Event, World, run_events};
use std::alloc::Global;
use std::time::Instant;

// How many flag changes are played behind the messages.
const CHANGES: u32 = 200;

// How many events a write is: it is made, made durable, published, loaded and answered.
const EVENTS_OF_WRITE: u32 = 5;

/// How many events stand behind the messages.
pub const EVENTS: u32 = CHANGES * EVENTS_OF_WRITE;

// When each message is received, in seconds.
const RECEIVED: u32 = 1000;

const SEEN: u8 = 0x08;

fn append(alloc: Global) -> Result<Command, NoMemory>
    ensures command { IfOk result IsCommand }
    ensures shallow { IfOk result IsShallow }
{
    Ok(Command::Append {
        flags: 0,
        keywords: List::new(alloc),
        message: Bytes::from_slice(alloc, b"x")?,
    })
}

// The message of this number is seen, or not seen.
fn store(alloc: Global, number: u32, how: How) -> Result<Command, NoMemory>
    ensures command { IfOk result IsCommand }
    ensures shallow { IfOk result IsShallow }
{
    let span = Span {
        from: End::Number(number),
        to: End::Number(number),
    };
    Ok(Command::Store {
        by_uid: false,
        set: List::from_slice(alloc, &[span])?,
        how,
        flags: SEEN,
        keywords: List::new(alloc),
        unchanged_since: None,
    })
}

fn play(world: &mut World, events: &[Event]) -> Result<(), Fault>
    requires { All IsPlayable events.now }
{
    for event in events {
        world.step(event)?;
    }
    Ok(())
}

// The session begins and selects the mailbox.
fn begin(world: &mut World, session: u32) -> Result<(), Fault> {
    let events = [Event::Open(session), Event::Tell(session, Command::Select)];
    play(world, &events)
}

// The whole of a session's write.
fn write(alloc: Global, world: &mut World, session: u32, c: Command) -> Result<(), Fault>
    requires command { IsCommand c }
    requires shallow { IsShallow c }
{
    let again = c.copy(alloc)?;
    let events = [
        Event::Write(session, c, RECEIVED),
        Event::Sync,
        Event::Publish,
        Event::Load(session),
        Event::Tell(session, again),
    ];
    play(world, &events)
}

// The first session appends so many messages.
fn append_all(alloc: Global, world: &mut World, count: u32) -> Result<(), Fault> {
    for _ in 0..count {
        write(alloc, world, 1, append(alloc)?)?;
    }
    Ok(())
}

// The two sessions change the flag of the message of this number by turns.
fn change_all(alloc: Global, world: &mut World, number: u32) -> Result<(), Fault> {
    for turn in 0..CHANGES {
        let first = turn % 2 == 0;
        let (session, how) = if first {
            (1, How::Add)
        } else {
            (2, How::Remove)
        };
        write(alloc, world, session, store(alloc, number, how)?)?;
    }
    Ok(())
}

fn time_in(rt: HostRuntime, world: &mut World, rows: u32) -> Result<(u128, u128), Fault> {
    begin(world, 1)?;
    let start = Instant::now(&rt)?;
    append_all(rt.alloc(), world, rows)?;
    let appends = start.elapsed(&rt)?.as_micros();
    begin(world, 2)?;
    let start = Instant::now(&rt)?;
    change_all(rt.alloc(), world, rows / 2 + 1)?;
    let events = start.elapsed(&rt)?.as_micros();
    let count = rows.saturating_add(CHANGES) as usize;
    if world.count() != count || world.published() != count {
        return Err(Fault::NotWritten);
    }
    Ok((appends, events))
}

/// A session appends so many messages to the mailbox of a new folder. Then a second one selects it,
/// and both change a flag of the message in the middle by turns. How many microseconds the appends
/// take comes first.
pub fn time_world(rt: HostRuntime, rows: u32) -> Result<(u128, u128), Fault> {
    let alloc = rt.alloc();
    let mut world = run_events(alloc, &List::new(alloc))?;
    time_in(rt, &mut world, rows)
}
