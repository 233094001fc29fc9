//! Runs of what two sessions are asked, and what their folder shows.

use crate::lines::{MARK, UNAVAILABLE, has, part, without};
use crate::script::{ASKS, SHOWS, shelf, shelf_of};
use dv_model::Bytes;
use dv_shelf::{Folder, MemShelf, Shelf};
use dv_tests_keeper::{Ask, Played, play};
use std::alloc::Global;
use std::sync::Wait;
use std::test::Fail;

/// What a run came to.
#[derive(Drop)]
pub struct Ran {
    /// What was told, but for the lines of commands that the disk failed, and how many there were.
    pub told: Bytes,
    pub unavailable: u64,
    /// The first of what was asked that the disk failed.
    pub failed: Option<usize>,
    /// How many entries the log has.
    pub entries: u64,
    pub shelf: MemShelf,
}

// The first of what was asked, among these, that the disk failed.
fn first_failed(played: &Played, among: &[usize]) -> Option<usize> {
    let ends = played.ends.as_slice();
    for at in among {
        if *at < ends.len() {
            let from = if *at == 0 { 0 } else { ends[*at - 1] };
            if has(part(played.out.taken(), from, ends[*at]), UNAVAILABLE) {
                return Some(*at);
            }
        }
    }
    None
}

/// Two sessions are asked all of this over a folder.
pub fn run<R: Wait>(
    rt: &R,
    alloc: Global,
    shelf: MemShelf,
    asks: &[Ask<'_>],
    among: &[usize],
) -> Result<Ran, Fail> {
    let Ok(played) = play(rt, alloc, shelf, 2, asks, &[]) else {
        return Err(Fail::from("not played"));
    };
    let failed = first_failed(&played, among);
    let (told, unavailable) = without(alloc, played.out.taken(), UNAVAILABLE)?;
    Ok(Ran {
        told,
        unavailable,
        failed,
        entries: played.entries,
        shelf: played.store.parts().0,
    })
}

/// Whether the folder is opened.
pub fn is_opened<R: Wait>(rt: &R, alloc: Global, shelf: MemShelf) -> bool {
    play(rt, alloc, shelf, 1, &[], &[]).is_ok()
}

/// How many calls the folder has with all that is asked.
pub fn calls_of<R: Wait>(rt: &R, alloc: Global) -> Result<u32, Fail> {
    let ran = run(rt, alloc, shelf(alloc, &[], None)?, &ASKS, &[])?;
    Ok(u32::try_from(ran.shelf.call_count()).unwrap_or(u32::MAX))
}

/// The mailbox of a folder, with its messages, as a session is shown it; but for places of the log.
pub fn show_mailbox<R: Wait>(rt: &R, alloc: Global, shelf: MemShelf) -> Result<Bytes, Fail> {
    let Ok(played) = play(rt, alloc, shelf, 1, &SHOWS, &[]) else {
        return Err(Fail::from("not shown"));
    };
    let (told, _) = without(alloc, played.out.taken(), MARK)?;
    Ok(told)
}

/// What is told, and what the folder shows then.
#[derive(Drop)]
pub struct Shown {
    pub told: Bytes,
    pub entries: u64,
    pub mailbox: Bytes,
}

/// All of this is asked over a folder of which nothing fails.
pub fn shown_behind<R: Wait>(rt: &R, alloc: Global, asks: &[Ask<'_>]) -> Result<Shown, Fail> {
    let ran = run(rt, alloc, shelf(alloc, &[], None)?, asks, &[])?;
    Ok(Shown {
        told: ran.told,
        entries: ran.entries,
        mailbox: show_mailbox(rt, alloc, ran.shelf)?,
    })
}

/// What is shown behind all but one of what is asked, for each.
pub fn shown_without_each<R: Wait>(rt: &R, alloc: Global) -> Result<Vec<Shown>, Fail> {
    let mut all = Vec::new(alloc);
    for at in 0..ASKS.len() {
        let mut asks = Vec::new(alloc);
        asks.extend_from_slice(&ASKS[..at])?;
        asks.extend_from_slice(&ASKS[at + 1..])?;
        all.push(shown_behind(rt, alloc, &asks)?)?;
    }
    Ok(all)
}

/// What is shown behind the first ones of what is asked: of none, of one, and so on.
pub fn shown_behind_each<R: Wait>(rt: &R, alloc: Global) -> Result<Vec<Shown>, Fail> {
    let mut all = Vec::new(alloc);
    for at in 0..ASKS.len() {
        all.push(shown_behind(rt, alloc, &ASKS[..at])?)?;
    }
    all.push(shown_behind(rt, alloc, &ASKS)?)?;
    Ok(all)
}

/// How many calls of a folder have failed.
pub fn faults_of(ran: &Ran) -> u64 {
    ran.shelf.faults()
}

// Whether a folder shows one mailbox or the other.
fn shows_one<R: Wait>(
    rt: &R,
    alloc: Global,
    folder: &Folder,
    one: &Bytes,
    other: &Bytes,
) -> Result<bool, Fail> {
    let mailbox = show_mailbox(rt, alloc, shelf_of(alloc, folder)?)?;
    Ok(mailbox.as_slice() == one.as_slice() || mailbox.as_slice() == other.as_slice())
}

/// Fails unless each sample of what a crash may leave shows one mailbox or the other.
pub fn check_images<R: Wait>(
    rt: &R,
    alloc: Global,
    ran: &Ran,
    one: &Bytes,
    other: &Bytes,
) -> Result<(), Fail> {
    let images = ran.shelf.images(alloc)?;
    if images.is_empty() {
        return Err(Fail::from("a crash leaves nothing"));
    }
    for image in images.as_slice() {
        if !shows_one(rt, alloc, image, one, other)? {
            return Err(Fail::from("another mailbox behind a crash"));
        }
    }
    Ok(())
}
