//! Sessions are asked, and what they are told and leave is compared with what nothing refused.

use crate::asks::{ASKS, REST, SHOWS, TOLD};
use crate::folders::large_shelf;
use dv_model::Bytes;
use dv_tests_keeper::{Ask, MemStore, Played, Trouble, play};
use std::alloc::Global;
use std::sync::Wait;

// How many sessions there are.
const SESSIONS: u32 = 3;

// How many entries the log has where nothing is refused.
const ENTRIES: u64 = 8;

/// Whether sessions are answered, and the folder holds, what has to be.
#[derive(Clone, Copy, PartialEq, Eq, Debug)]
pub enum Outcome {
    /// So many sessions were spent, and so much was asked once more.
    Right { spent: u32, refused: u32 },
    /// An answer or the folder isn't as it has to be.
    Wrong,
}

// All of this is asked over the folder.
fn played<R: Wait>(
    rt: &R,
    alloc: Global,
    asks: &[Ask<'_>],
    rest: &[Ask<'_>],
) -> Result<Played, Trouble> {
    play(rt, alloc, large_shelf(alloc)?, SESSIONS, asks, rest)
}

// The first byte of a line, which names its session; 0 of what isn't a line.
fn asker(ask: &Ask<'_>) -> u8 {
    match ask {
        Ask::Line([name, ..]) => *name,
        _ => 0,
    }
}

// What is asked up to this place.
fn asks_to(alloc: Global, at: usize) -> Result<Vec<Ask<'static>>, Trouble> {
    let mut asks = Vec::new(alloc);
    for place in 0..ASKS.len() {
        if place <= at {
            asks.push(ASKS[place])?;
        }
    }
    Ok(asks)
}

// The same, and then what others than the session of the last are asked.
fn asks_without(alloc: Global, at: usize) -> Result<Vec<Ask<'static>>, Trouble> {
    let spent = match ASKS.get(at) {
        Some(ask) => asker(ask),
        None => return Err(Trouble::Unlike),
    };
    let mut asks = asks_to(alloc, at)?;
    for ask in &REST {
        if asker(ask) != spent {
            asks.push(*ask)?;
        }
    }
    Ok(asks)
}

// What comes of the same where nothing is refused: all is answered, and where a session is spent
// then, what it was asked last too.
fn played_like<R: Wait>(rt: &R, alloc: Global, spent: Option<usize>) -> Result<Played, Trouble> {
    let like = match spent {
        None => played(rt, alloc, &ASKS, &REST)?,
        Some(at) => played(rt, alloc, &asks_without(alloc, at)?, &[])?,
    };
    match like.spent {
        None => Ok(like),
        // The one refusal came only now.
        Some(_) => Err(Trouble::NoMemory),
    }
}

// What was told before this was asked, and behind its answer.
fn told_round(played: &Played, at: usize) -> Option<(&[u8], &[u8])> {
    let told = played.out.taken();
    let ends = played.ends.as_slice();
    if at >= ends.len() {
        return None;
    }
    let from = if at == 0 { 0 } else { ends[at - 1] };
    let to = ends[at];
    if from > to || to > told.len() {
        return None;
    }
    Some((&told[..from], &told[to..]))
}

// Whether the same was told, but for the answer to what the spent session was asked.
fn is_told(played: &Played, like: &Played) -> bool {
    let told = played.out.taken();
    match played.spent {
        None => told == like.out.taken(),
        Some(at) => match told_round(like, at) {
            None => false,
            Some((before, behind)) => {
                told.len() == before.len() + behind.len()
                    && told.starts_with(before)
                    && told.ends_with(behind)
            }
        },
    }
}

// What the folder of a store shows that is opened anew.
fn shown<R: Wait>(rt: &R, alloc: Global, store: MemStore) -> Result<Bytes, Trouble> {
    let (shelf, _) = store.parts();
    let shown = play(rt, alloc, shelf, 1, &SHOWS, &[])?;
    Ok(Bytes::from_slice(alloc, shown.out.taken())?)
}

// Whether all is told where nothing is refused.
fn is_whole(played: &Played) -> bool {
    played.spent.is_some() || (played.out.taken().ends_with(TOLD) && played.entries == ENTRIES)
}

// All is asked once with a refusal and once without, unless memory is refused before a session is
// asked, or where none is.
fn compared<R: Wait>(rt: &R, alloc: Global) -> Result<Outcome, Trouble> {
    let played = played(rt, alloc, &ASKS, &REST)?;
    let like = played_like(rt, alloc, played.spent)?;
    let is_answered = is_whole(&played) && is_told(&played, &like);
    if !is_answered || played.entries != like.entries {
        return Ok(Outcome::Wrong);
    }
    let spent = u32::from(played.spent.is_some());
    let refused = played.refused;
    if shown(rt, alloc, played.store)?.as_slice() == shown(rt, alloc, like.store)?.as_slice() {
        Ok(Outcome::Right { spent, refused })
    } else {
        Ok(Outcome::Wrong)
    }
}

/// Sessions are asked for all that takes the lock of a keeper, one after another.
pub fn try_asks<R: Wait>(rt: &R, alloc: Global) -> Outcome {
    let came = match compared(rt, alloc) {
        Err(Trouble::NoMemory) => compared(rt, alloc),
        came => came,
    };
    match came {
        Ok(outcome) => outcome,
        Err(_) => Outcome::Wrong,
    }
}
