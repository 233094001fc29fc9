ghost use Rattle.std.specs.Prelude.{◌≡◌, All, IfOk, OnErr, OnOk, is_some, length, map, option_map, []};
ghost use Rattle.std.specs.Option.{option_copied};
ghost use Rattle.dv_model.specs.Mailboxes.{empty_mailbox};
ghost use Rattle.dv_interleavings.specs.Worlds.{happens, new_world};
ghost use Rattle.dv_promises.specs.Standing.{IsStart, Stands};
ghost use Rattle.dv_world.specs.Keeping.{IsKept};
ghost use Rattle.dv_world.specs.Promising.{AreAlike, AreHeard, AreOrdered, AreSpoken, CrashesKeep, KeepNumbers, SeeNoLess, WriteOnce, world_behind};
ghost use Rattle.dv_world.specs.Shapes.{IsPlayable, event_of, kept_world, plain_of, session_at, stored_of, world_of};

use crate::crashing::crash;
use crate::event::Event;
use crate::healing::heal;
use crate::kept::{Kept, Stored};
use crate::loading::load;
use crate::opening::open;
use crate::publishing::publish;
use crate::seats::place_of;
use crate::syncing::sync;
use crate::telling::tell;
use crate::writing::write;
use dv_apply::Live;
use dv_model::{Bytes, Command, List, Mailbox, Mark, NoMemory, Reply};
use std::alloc::Global;
use std::marker::Model;

/// Sessions over one log, whose steps come in any order.
#[derive(Drop)]
pub struct World {
    kept: Kept,
}

impl Model for World {
    ghost use Rattle.dv_world.specs.Keeping.{IsKept};
    ghost use Rattle.dv_world.specs.Shapes.{Plain, plain_of};
    ghost use Rattle.std.specs.Coded.{codes};
    ghost use Rattle.dv_model.specs.contracts.types.Key as key;

    ghost Value = { Plain };

    ghost coded = { Prim.hlevel (codes, key.the_row.coded) };

    ghost view = { λ w. plain_of w.kept };

    ghost invariant = { λ w. IsKept w.kept };
}

fn kept_of(
    alloc: Global,
    start: Mailbox,
    indexid: u32,
    mark: Mark,
    mail: List<Stored>,
) -> Result<Kept, NoMemory>
    requires { IsStart start indexid mark (map stored_of mail) }
    ensures is { IfOk result (λ made. kept_world made
        ≡ new_world start indexid mark (map stored_of mail)) }
    ensures kept { IfOk result IsKept }
{
    let front = Live::of(alloc, start.copy(alloc)?)?;
    let end = Live::of(alloc, start.copy(alloc)?)?;
    Ok(Kept {
        alloc,
        start,
        start_mark: mark,
        indexid,
        stored: mail.into_vec(),
        logged: Vec::new(alloc),
        pending: None,
        published: 0,
        front,
        end,
        seats: Vec::new(alloc),
    })
}

// One event.
fn step(kept: &mut Kept, e: &Event) -> Result<(), NoMemory>
    requires kept { IsKept kept.old }
    requires playable { IsPlayable e.now }
    ensures ok { OnOk result (kept_world kept.new ≡ happens (kept_world kept.old)
        (event_of e.now)) }
    ensures kept { IsKept kept.new }
    ensures err { OnErr result (plain_of kept.new ≡ plain_of kept.old) }
{
    match e {
        Event::Open(s) => open(kept, *s),
        Event::Write(s, c, received) => write(kept, *s, c, *received),
        Event::Sync => sync(kept),
        Event::Heal => {
            heal(kept);
            Ok(())
        }
        Event::Publish => publish(kept),
        Event::Load(s) => load(kept, *s),
        Event::Tell(s, c) => tell(kept, *s, c),
        Event::Crash(n) => crash(kept, *n),
    }
}

impl World {
    /// A log with no entry over this mailbox and these messages, with their GUIDs: the first of a
    /// UID counts, and one without bytes is damaged, as is one that isn't named. `NoMemory` is the
    /// only error.
    pub fn new(
        alloc: Global,
        start: Mailbox,
        indexid: u32,
        mark: Mark,
        mail: List<(u32, Option<Bytes>, [u8; 16])>,
    ) -> Result<World, NoMemory>
        requires { IsStart start indexid mark (map stored_of mail) }
        ensures { IfOk result (λ w. world_of w
            ≡ new_world start indexid mark (map stored_of mail)) }
    {
        let kept = kept_of(alloc, start, indexid, mark, mail)?;
        Ok(World { kept })
    }

    /// One event. After `NoMemory`, which is the only error, all is as before.
    pub fn step(&mut self, e: &Event) -> Result<(), NoMemory>
        requires { IsPlayable e.now }
        // It is one step of the world.
        ensures ok { OnOk result (world_of self.new ≡ happens (world_of self.old)
            (event_of e.now)) }
        // What each event keeps stands, from which all promises follow.
        ensures stands { Stands (world_of self.new) }
        ensures err { OnErr result (self.new ≡ self.old) }
    {
        step(&mut self.kept, e)
    }

    /// How many entries are durable.
    pub fn count(&self) -> usize
        ensures { result ≡ length self.now.entries }
    {
        self.kept.logged.len()
    }

    /// How many of them are published.
    pub fn published(&self) -> usize
        ensures { result ≡ self.now.published }
    {
        self.kept.published
    }

    /// Whether an entry is pending.
    pub fn is_pending(&self) -> bool
        ensures { result ≡ is_some self.now.pending }
    {
        self.kept.pending.is_some()
    }

    /// The commands of a session that were answered, each with its replies.
    pub fn answers(&self, session: u32) -> Option<&[(Command, List<Reply>)]>
        ensures { option_copied result
            ≡ option_map (λ s. s.answers) (session_at self.now.sessions session) }
    {
        match place_of(&self.kept.seats, session) {
            Some(at) => Some(&self.kept.seats[at].answers),
            None => None,
        }
    }
}

// The mailbox of a new folder.
fn created(alloc: Global) -> Mailbox
    ensures { result ≡ record (empty_mailbox 1000) { highest = 2 } }
{
    Mailbox {
        uid_validity: 1000,
        next_uid: 1,
        rows: List::new(alloc),
        keywords: List::new(alloc),
        extensions: List::new(alloc),
        current: None,
        highest: 2,
    }
}

/// What comes of these events in turn from the mailbox of a new folder: UIDVALIDITY 1000, no
/// messages, at 1:56. `NoMemory` is the only error.
pub fn run_events(alloc: Global, events: &List<Event>) -> Result<World, NoMemory>
    requires { All IsPlayable events.now }
    ensures is { IfOk result (λ w. world_of w ≡ world_behind events.now) }
    // Replies and states are the session rules' answers over prefixes of one log.
    ensures spoken { IfOk result (λ w. AreSpoken (world_of w)) }
    // None is told of less than it had seen.
    ensures ordered { IfOk result (λ w. AreOrdered (world_of w)) }
    ensures no_less { IfOk result (λ w. SeeNoLess (world_of w)) }
    // The log has each successful write once.
    ensures once { IfOk result (λ w. WriteOnce (world_of w)) }
    // Behind Full steps to one position, views are equal.
    ensures alike { IfOk result (λ w. AreAlike (world_of w)) }
    // A client that listened has the view, and numbers keep their UIDs.
    ensures heard { IfOk result (λ w. AreHeard (world_of w)) }
    ensures numbers { IfOk result (λ w. KeepNumbers (world_of w)) }
    // A crash keeps each durable entry and at most the pending one.
    ensures crash { IfOk result (λ w. CrashesKeep (world_of w)) }
{
    let mark = Mark {
        file_seq: 1,
        offset: 56,
    };
    let mut world = World::new(alloc, created(alloc), 1000, mark, List::new(alloc))?;
    for e in events.as_slice() {
        world.step(e)?;
    }
    Ok(world)
}
