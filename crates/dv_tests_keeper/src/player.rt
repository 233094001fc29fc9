//! A keeper with its sessions, each in a seat of its own.

ghost use Rattle.std.specs.Option.{ForSome};
ghost use Rattle.std.specs.Prelude.{◌≡◌, IfOk, false};

use crate::clients::PopSeat;
use crate::serving::MemKeeper;
use dv_feed::Taken;
use dv_member::{Met, Session};
use dv_model::{OutOfMemory, Step, Word};
use dv_naming::{Keeping, Tally};
use dv_shelf::MemSink;
use dv_texts::ReplyText;
use std::alloc::Global;

/// What is asked of sessions. They are numbered from 0 on, and their names begin with the letters
/// from `a` on.
#[derive(Clone, Copy)]
pub enum Ask<'a> {
    /// A line of a script is served.
    Line(&'a [u8]),
    /// The same, and once more where the disk fails it.
    Again(&'a [u8]),
    /// The data lines of a FETCH or SEARCH that reads no messages, over what was shown.
    Data(&'a [u8]),
    /// A session sees what was published in its generation, and is told whether that is sealed.
    Refresh(usize, Taken),
    /// A session whose generation is sealed goes on in the newest.
    Rejoin(usize),
    /// Two sessions see the same.
    Gather(usize, usize),
    /// Two sessions compare so.
    Meet(usize, usize, Met),
    /// A session sees all, and is shown the mailbox anew, up to this place in the first file.
    Select(usize, u32),
    /// A session sees all, and is told of that as by this command, up to this place.
    Tell(usize, Step, Word, u32),
    /// A session was told all up to this place, and is yet to be told of these UIDs.
    Untold(usize, u32, &'a [u32]),
    /// A session begins as a POP3 client's, which is greeted.
    Login(usize),
    /// A line of that client, without its end, is answered.
    Pop(&'a [u8]),
}

/// Why it isn't done.
#[derive(Clone, Copy, PartialEq, Eq, Debug)]
pub enum Trouble {
    /// Memory ran out, and nothing was written.
    NoMemory,
    /// Memory ran out behind an entry, and the session is spent; or a POP3 client's answer has none.
    NoMemoryAfter,
    /// It isn't as it was asked.
    Unlike,
    /// There is no such session, or it is spent.
    NoSession,
    /// The folder isn't opened or made.
    NotOpened,
}

impl<E: OutOfMemory> From<E> for Trouble {
    ghost use Rattle.std.specs.Prelude.{◌≡◌};
    ghost use Rattle.dv_tests_keeper.specs.declared.player.Trouble.TheVariants as trouble;

    ghost from_gives = { λ _ e. e ≡ trouble.NoMemory };

    fn from(_: E) -> Trouble {
        Trouble::NoMemory
    }
}

/// Where a session sits that isn't spent.
#[derive(Drop)]
pub struct Seat<K: Keeping, L: Tally, M: Tally> {
    pub(crate) session: Option<Session<K, L, M>>,
    ghost fresh: { ForSome session (λ s. s.spent ≡ false) },
}

/// A keeper with its sessions, which stand before they are seated, what they were answered, how long
/// that was behind each of what was asked, how much was asked once more, and what was asked when
/// memory ran out behind an entry.
#[derive(Drop)]
pub struct Player<K: Keeping, L: Tally, M: Tally> {
    pub(crate) alloc: Global,
    pub(crate) keeper: MemKeeper<K, L, M>,
    pub(crate) standing: Vec<Session<K, L, M>>,
    pub(crate) seats: Vec<Seat<K, L, M>>,
    pub(crate) pop_seat: PopSeat<K, L, M>,
    pub(crate) out: MemSink,
    pub(crate) ends: Vec<usize>,
    pub(crate) refused: u32,
    pub(crate) spent: Option<usize>,
}

/// Two sessions.
type Two<K, L, M> = (Session<K, L, M>, Session<K, L, M>);

impl<K: Keeping, L: Tally, M: Tally> Player<K, L, M> {
    /// A session leaves its seat.
    pub(crate) fn rise(&mut self, at: usize) -> Result<Session<K, L, M>, Trouble>
        ensures { IfOk result (λ s. s.spent ≡ false) }
    {
        if at >= self.seats.len() {
            return Err(Trouble::NoSession);
        }
        match self.seats[at].session.take() {
            Some(session) => Ok(session),
            None => Err(Trouble::NoSession),
        }
    }

    /// Two sessions leave their seats.
    pub(crate) fn rise_both(&mut self, a: usize, b: usize) -> Result<Two<K, L, M>, Trouble>
        ensures { IfOk result (λ two. (two.0.spent ≡ false) × (two.1.spent ≡ false)) }
    {
        let one = self.rise(a)?;
        match self.rise(b) {
            Ok(other) => Ok((one, other)),
            Err(trouble) => {
                self.sit(a, one);
                Err(trouble)
            }
        }
    }

    /// A session takes its seat again.
    pub(crate) fn sit(&mut self, at: usize, session: Session<K, L, M>)
        requires { session.spent ≡ false }
    {
        if at < self.seats.len() {
            drop(self.seats[at].session.replace(session));
        } else {
            drop(session);
        }
    }

    /// Adds what a session was answered to the output.
    pub(crate) fn tell(&mut self, replies: &ReplyText) -> Result<(), Trouble> {
        match replies.write_to(&mut self.out) {
            Ok(()) => Ok(()),
            Err(_) => Err(Trouble::Unlike),
        }
    }
}

/// The number of the session whose name begins with its letter.
pub(crate) fn seat_of(name: &[u8]) -> usize {
    match name.first() {
        Some(letter) => usize::from(letter.saturating_sub(b'a')),
        None => usize::MAX,
    }
}

/// Whether it is as it was asked.
pub(crate) fn expect(is: bool) -> Result<(), Trouble> {
    if is { Ok(()) } else { Err(Trouble::Unlike) }
}
