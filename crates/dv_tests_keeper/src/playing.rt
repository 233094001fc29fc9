//! A keeper over a folder is made, its sessions are asked, and it is closed.

ghost use Rattle.std.specs.Prelude.{◌≡◌, ◌≤◌, [], IfOk};
ghost use Rattle.dv_keeper.specs.Sessions.{AreNewSessions};
ghost use Rattle.dv_member.specs.Members.{IsStart};
ghost use Rattle.dv_shared.specs.Beginning.{Begins};
ghost use Rattle.dv_shelf.specs.MemShelves.{faults_of, sees_memory};
ghost use Rattle.dv_store.specs.Opening.{IsFresh};
ghost use Rattle.dv_tests_keeper.specs.Starts.{first_log};

use crate::clients::PopSeat;
use crate::player::{Ask, Player, Seat, Trouble};
use crate::serving::MemKeeper;
use dv_beginning::open_folder;
use dv_member::Session;
use dv_model::{List, NoMemory, OpenFault};
use dv_naming::{Keeping, Names, Tally, new_names};
use dv_shelf::{MemClock, MemShelf, MemSink};
use dv_store::Store;
use std::alloc::Global;
use std::marker::Brand;
use std::sync::Wait;

// The room for what is told, in bytes.
const ROOM: u32 = 4_000_000;

/// A store over a folder in memory.
pub type MemStore = Store<MemShelf, MemClock>;

/// What comes of asking.
#[derive(Drop)]
pub struct Played {
    /// What was told, and how many bytes of it behind each of what was asked.
    pub out: MemSink,
    pub ends: Vec<usize>,
    /// The store behind all that was asked, and how many entries its log has.
    pub store: MemStore,
    pub entries: u64,
    /// How much was asked once more, since memory was refused.
    pub refused: u32,
    /// What was asked, by its place, when memory ran out behind its entry.
    pub spent: Option<usize>,
}

// A seat for each session, in their order. Those that stand are seated from the last on.
fn seat_all<K: Keeping, L: Tally, M: Tally>(
    standing: &mut Vec<Session<K, L, M>>,
    seats: &mut Vec<Seat<K, L, M>>,
) -> Result<(), NoMemory>
    requires { AreNewSessions K.start 1 standing.old.items }
{
    while let Some(session) = standing.pop() {
        seats.push(Seat {
            session: Some(session),
        })?;
    }
    seats.reverse();
    Ok(())
}

// All that are seated stand up.
fn rise_all<K: Keeping, L: Tally, M: Tally>(
    seats: &mut Vec<Seat<K, L, M>>,
    standing: &mut Vec<Session<K, L, M>>,
) -> Result<(), NoMemory> {
    while let Some(seat) = seats.pop() {
        let Seat { session, .. } = seat;
        if let Some(session) = session {
            standing.push(session)?;
        }
    }
    Ok(())
}

// The sessions that stand are handed in, and the keeper is closed.
fn close<K: Keeping, L: Tally, M: Tally>(player: Player<K, L, M>) -> Played {
    let Player {
        keeper,
        standing,
        seats,
        pop_seat,
        out,
        ends,
        refused,
        spent,
        ..
    } = player;
    drop(seats);
    drop(pop_seat);
    let (store, entries) = keeper.close(standing);
    Played {
        out,
        ends,
        store,
        entries,
        refused,
        spent,
    }
}

impl<K: Keeping, L: Tally, M: Tally> Player<K, L, M> {
    // Sessions that were just made sit down and are asked for all, one after another. Once one is
    // spent, the others are asked for the rest instead. In the end they stand.
    fn ask_sessions<R: Wait>(
        &mut self,
        rt: &R,
        asks: &[Ask<'_>],
        rest: &[Ask<'_>],
    ) -> Result<(), Trouble>
        requires { AreNewSessions K.start 1 self.old.standing.items }
    {
        seat_all(&mut self.standing, &mut self.seats)?;
        self.ask_all(rt, asks)?;
        if self.spent.is_some() {
            self.ask_others(rt, rest)?;
        }
        Ok(rise_all(&mut self.seats, &mut self.standing)?)
    }
}

// Asks new sessions for all, and closes the keeper.
fn play_all<K: Keeping, L: Tally, M: Tally, R: Wait>(
    rt: &R,
    mut player: Player<K, L, M>,
    asks: &[Ask<'_>],
    rest: &[Ask<'_>],
) -> Result<Played, Trouble>
    requires { AreNewSessions K.start 1 player.standing.items }
{
    match player.ask_sessions(rt, asks, rest) {
        Ok(()) => Ok(close(player)),
        Err(trouble) => {
            drop(player);
            Err(trouble)
        }
    }
}

/// What is told, and the ends of that.
type Told = (MemSink, Vec<usize>);

// Room for what is told of so much that is asked.
fn room_to_tell(alloc: Global, asks: usize) -> Result<Told, NoMemory> {
    let ends = Vec::with_capacity(alloc, asks)?;
    let out = MemSink::new(alloc, ROOM, List::new(alloc))?;
    Ok((out, ends))
}

// Makes a keeper under these names, asks its sessions for all, and closes it.
fn play_named<K: Keeping, L: Tally, M: Tally, R: Wait>(
    rt: &R,
    alloc: Global,
    names: Names,
    store: MemStore,
    start_count: u64,
    sessions: u32,
    told: Told,
    asks: &[Ask<'_>],
    rest: &[Ask<'_>],
) -> Result<Played, Trouble>
    requires names { (names.roll.table ≡ K.roll) × (names.roll.items ≡ [])
        × (names.writes.name ≡ L.name) × (names.refusals.name ≡ M.name) }
    requires ledgers { (names.writes.parts ≡ L.parts) × (names.refusals.parts ≡ M.parts)
        × (L.parts ≡ sessions) × (M.parts ≡ sessions) }
    requires begins { Begins sees_memory K.start K.moment K.past K.honest store }
    requires count { (start_count ≡ K.count) × (K.count ≤ faults_of store.shelf) }
    requires few { (1 ≤ sessions) × (sessions ≤ 64) }
{
    match MemKeeper::<K, L, M>::new(alloc, names, store, start_count, sessions) {
        Ok((keeper, standing)) => {
            let player = Player {
                alloc,
                keeper,
                standing,
                seats: Vec::new(alloc),
                pop_seat: PopSeat::empty(),
                out: told.0,
                ends: told.1,
                refused: 0,
                spent: None,
            };
            play_all(rt, player, asks, rest)
        }
        Err(left) => {
            drop(left);
            Err(Trouble::NoMemory)
        }
    }
}

// The mailbox of a folder is opened, or made at 1000 where it has none.
fn opened(alloc: Global, shelf: MemShelf) -> Result<MemStore, Trouble>
    ensures fresh { IfOk result IsFresh }
    ensures start { IfOk result (λ store. IsStart (first_log store)) }
{
    let clock = MemClock::new(alloc, List::from_slice(alloc, &[1000])?);
    match open_folder(alloc, shelf, clock) {
        Ok(store) => Ok(store),
        Err((shelf, clock, fault)) => {
            drop(shelf);
            drop(clock);
            Err(match fault {
                OpenFault::NoMemory => Trouble::NoMemory,
                _ => Trouble::NotOpened,
            })
        }
    }
}

/// Opens the mailbox of a folder, or makes it at 1000 where there is none, and asks so many sessions
/// of a keeper over it for all of this, one after another. Once memory runs out behind an entry, the
/// sessions that aren't spent are asked for the rest instead. What memory refuses is asked once more.
pub fn play<R: Wait>(
    rt: &R,
    alloc: Global,
    shelf: MemShelf,
    sessions: u32,
    asks: &[Ask<'_>],
    rest: &[Ask<'_>],
) -> Result<Played, Trouble>
    requires { (1 ≤ sessions) × (sessions ≤ 64) }
{
    let store = opened(alloc, shelf)?;
    let names = new_names(alloc, sessions as u64)?;
    let told = room_to_tell(alloc, asks.len())?;
    play_named::<Brand, Brand, Brand, R>(rt, alloc, names, store, 0, sessions, told, asks, rest)
}
