//! Events as tables of plain steps.

ghost use Rattle.std.specs.Prelude.{All, IfOk, OnOk};
ghost use Rattle.dv_model.specs.Sessions.{IsCommand};
ghost use Rattle.dv_responses.specs.Depth.{IsShallow};
ghost use Rattle.dv_world.specs.Shapes.{IsPlayable};

use dv_model::{Bytes, Command, End, How, Item, Key, List, NoMemory, Span};
use dv_world::{Event, World, run_events};
use std::alloc::Global;

// When each message is received, in seconds.
const RECEIVED: u32 = 1000;

const SEEN: u8 = 0x08;

/// What a session asks for.
#[derive(Clone, Copy)]
pub enum Ask {
    Select,
    Noop,
    Expunge,
    /// A message of these flags and bytes is added.
    Append(u8, &'static [u8]),
    /// The first message gets these flags, where it hasn't changed since.
    Store(u8, Option<u64>),
    /// The flags of the first message.
    Flags,
    /// The text of the first message.
    Text,
    /// The messages that were seen.
    Seen,
}

/// What happens next.
#[derive(Clone, Copy)]
pub enum Step {
    /// The session begins and selects the mailbox.
    Begin(u32),
    /// The command's group is pending.
    Write(u32, Ask),
    /// What is pending is durable, and published.
    Publish,
    /// What is pending is taken away.
    Heal,
    /// The session sees what was published.
    Load(u32),
    /// The session is answered.
    Tell(u32, Ask),
    /// The whole of a write, and its answer.
    Commit(u32, Ask),
    /// The program ends with so many entries.
    Crash(u32),
}

// The first message.
fn first(alloc: Global) -> Result<List<Span>, NoMemory> {
    let span = Span {
        from: End::Number(1),
        to: End::Number(1),
    };
    Ok(List::from_slice(alloc, &[span])?)
}

fn fetch(alloc: Global, item: Item) -> Result<Command, NoMemory>
    ensures command { IfOk result IsCommand }
    ensures shallow { IfOk result IsShallow }
{
    let mut items = List::new(alloc);
    items.push(item)?;
    Ok(Command::Fetch {
        by_uid: false,
        set: first(alloc)?,
        items,
    })
}

fn append(alloc: Global, flags: u8, message: &[u8]) -> Result<Command, NoMemory>
    ensures command { IfOk result IsCommand }
    ensures shallow { IfOk result IsShallow }
{
    Ok(Command::Append {
        flags,
        keywords: List::new(alloc),
        message: Bytes::from_slice(alloc, message)?,
    })
}

fn store(alloc: Global, flags: u8, unchanged_since: Option<u64>) -> Result<Command, NoMemory>
    ensures command { IfOk result IsCommand }
    ensures shallow { IfOk result IsShallow }
{
    Ok(Command::Store {
        by_uid: false,
        set: first(alloc)?,
        how: How::Add,
        flags,
        keywords: List::new(alloc),
        unchanged_since,
    })
}

fn command_of(alloc: Global, ask: Ask) -> Result<Command, NoMemory>
    ensures command { IfOk result IsCommand }
    ensures shallow { IfOk result IsShallow }
{
    match ask {
        Ask::Select => Ok(Command::Select),
        Ask::Noop => Ok(Command::Noop),
        Ask::Expunge => Ok(Command::Expunge),
        Ask::Append(flags, message) => append(alloc, flags, message),
        Ask::Store(flags, unchanged_since) => store(alloc, flags, unchanged_since),
        Ask::Flags => fetch(alloc, Item::Flags),
        Ask::Text => fetch(alloc, Item::Body),
        Ask::Seen => Ok(Command::Search {
            by_uid: false,
            key: Key::Has(SEEN),
        }),
    }
}

// One more event.
fn add(events: &mut List<Event>, event: Event) -> Result<(), NoMemory>
    requires before { All IsPlayable events.old }
    requires playable { IsPlayable event }
    ensures { OnOk result (All IsPlayable events.new) }
{
    events.push(event)?;
    Ok(())
}

fn write(alloc: Global, events: &mut List<Event>, session: u32, ask: Ask) -> Result<(), NoMemory>
    requires { All IsPlayable events.old }
    ensures { OnOk result (All IsPlayable events.new) }
{
    let command = command_of(alloc, ask)?;
    add(events, Event::Write(session, command, RECEIVED))
}

fn tell(alloc: Global, events: &mut List<Event>, session: u32, ask: Ask) -> Result<(), NoMemory>
    requires { All IsPlayable events.old }
    ensures { OnOk result (All IsPlayable events.new) }
{
    let command = command_of(alloc, ask)?;
    add(events, Event::Tell(session, command))
}

fn begin(alloc: Global, events: &mut List<Event>, session: u32) -> Result<(), NoMemory>
    requires { All IsPlayable events.old }
    ensures { OnOk result (All IsPlayable events.new) }
{
    add(events, Event::Open(session))?;
    tell(alloc, events, session, Ask::Select)
}

fn publish(events: &mut List<Event>) -> Result<(), NoMemory>
    requires { All IsPlayable events.old }
    ensures { OnOk result (All IsPlayable events.new) }
{
    add(events, Event::Sync)?;
    add(events, Event::Publish)
}

fn commit(alloc: Global, events: &mut List<Event>, session: u32, ask: Ask) -> Result<(), NoMemory>
    requires { All IsPlayable events.old }
    ensures { OnOk result (All IsPlayable events.new) }
{
    write(alloc, events, session, ask)?;
    publish(events)?;
    add(events, Event::Load(session))?;
    tell(alloc, events, session, ask)
}

// The events of a step.
fn take(alloc: Global, events: &mut List<Event>, step: Step) -> Result<(), NoMemory>
    requires { All IsPlayable events.old }
    ensures { OnOk result (All IsPlayable events.new) }
{
    match step {
        Step::Begin(session) => begin(alloc, events, session),
        Step::Write(session, ask) => write(alloc, events, session, ask),
        Step::Publish => publish(events),
        Step::Heal => add(events, Event::Heal),
        Step::Load(session) => add(events, Event::Load(session)),
        Step::Tell(session, ask) => tell(alloc, events, session, ask),
        Step::Commit(session, ask) => commit(alloc, events, session, ask),
        Step::Crash(count) => add(events, Event::Crash(count)),
    }
}

fn take_all(alloc: Global, events: &mut List<Event>, steps: &[Step]) -> Result<(), NoMemory>
    requires { All IsPlayable events.old }
    ensures { OnOk result (All IsPlayable events.new) }
{
    for step in steps {
        take(alloc, events, *step)?;
    }
    Ok(())
}

/// What comes of these steps, and then of the others.
pub fn played(alloc: Global, steps: &[Step], others: &[Step]) -> Result<World, NoMemory> {
    let mut events = List::new(alloc);
    take_all(alloc, &mut events, steps)?;
    take_all(alloc, &mut events, others)?;
    run_events(alloc, &events)
}
