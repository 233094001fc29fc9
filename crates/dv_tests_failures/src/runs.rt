//! Runs of commands in which a call fails, and what a crash leaves of them.

use crate::states::{State, has_mails, is_state};
use dv_asks::{Ask, MemStore, clock_of, opened, shelf_of, write};
use dv_model::{Bytes, OpenFault};
use dv_plans::StoreFault;
use dv_shelf::{Folder, MemShelf, Name};
use dv_store::Store;
use dv_view::View;
use std::alloc::Global;
use std::test::Fail;

/// A command, where there is one, and the mailbox behind it. Without one the mailbox may come
/// about before the next command's group.
#[derive(Clone, Copy)]
pub struct Stage {
    pub ask: Option<Ask>,
    pub state: State,
}

/// A folder that is made or opened, and what is then asked of its store.
#[derive(Drop)]
pub struct Run {
    pub is_new: bool,
    pub folder: Folder,
    pub stages: &'static [Stage],
}

/// Which calls fail, and what comes of that.
#[derive(Clone, Copy)]
pub enum Failing {
    /// None.
    Nothing,
    /// This one, and the command is sent again.
    Again(u32),
    /// This one, and nothing is sent behind it.
    Last(u32),
    /// All behind so many.
    Stop(u32),
}

/// What a run came to.
#[derive(Drop)]
pub struct Ran {
    pub shelf: MemShelf,
    /// Whether the folder was opened or made.
    pub is_open: bool,
    /// The first and the last stage of which the folder may have the mailbox.
    pub first: usize,
    pub last: usize,
    /// How often the disk failed a command, or the opening.
    pub failed: u32,
}

// How far commands came.
#[derive(Clone, Copy)]
struct Reached {
    first: usize,
    last: usize,
    failed: u32,
}

// What an answer is.
#[derive(Clone, Copy, PartialEq, Eq)]
enum Answer {
    Done,
    Failed,
    Other,
}

fn sent(alloc: Global, store: &mut MemStore, ask: Ask) -> Result<Answer, Fail> {
    let view = View::of(alloc, store.live())?;
    let mut texts = Bytes::new(alloc);
    match write(alloc, store, &view, ask, &mut texts)? {
        Ok(_) => Ok(Answer::Done),
        Err(StoreFault::Disk(_)) => Ok(Answer::Failed),
        Err(_) => Ok(Answer::Other),
    }
}

fn has_state(store: &MemStore, state: &State) -> bool {
    is_state(store.live(), store.place(), state)
}

// Whether the mailbox is that of a stage from the first one on, before the last one.
fn is_before(store: &MemStore, stages: &[Stage], first: usize, last: usize) -> bool {
    for at in first..last {
        if at < stages.len() && has_state(store, &stages[at].state) {
            return true;
        }
    }
    false
}

// A command, and the mailbox behind it. Where the disk fails, the mailbox stays, and the command
// may be sent again.
fn take(
    alloc: Global,
    store: &mut MemStore,
    stages: &[Stage],
    reached: Reached,
    ask: Ask,
    at: usize,
    again: bool,
) -> Result<Reached, Fail> {
    if at >= stages.len() {
        return Err(Fail::from("no such stage"));
    }
    let mut reached = reached;
    let mark = store.mark();
    let mut said = sent(alloc, store, ask)?;
    if said == Answer::Failed {
        reached.failed = reached.failed.saturating_add(1);
        reached.last = at;
        if !is_before(store, stages, reached.first, at) || store.mark() != mark {
            return Err(Fail::from("a failure changes the mailbox"));
        }
        if !again {
            return Ok(reached);
        }
        said = sent(alloc, store, ask)?;
    }
    if said != Answer::Done
        || !has_state(store, &stages[at].state)
        || store.mark() != store.place()
    {
        return Err(Fail::from("another mailbox"));
    }
    reached.first = at;
    reached.last = at;
    Ok(reached)
}

fn take_all(
    alloc: Global,
    store: &mut MemStore,
    stages: &[Stage],
    again: bool,
) -> Result<Reached, Fail> {
    let mut reached = Reached {
        first: 0,
        last: 0,
        failed: 0,
    };
    for at in 0..stages.len() {
        if let Some(ask) = stages[at].ask {
            reached = take(alloc, store, stages, reached, ask, at, again)?;
            if reached.first != at {
                break;
            }
        }
    }
    Ok(reached)
}

// A folder that is made or opened, or the folder where the disk fails.
fn begun(alloc: Global, shelf: MemShelf, is_new: bool) -> Result<Result<MemStore, MemShelf>, Fail> {
    let clock = clock_of(alloc, &[1000])?;
    let begun = if is_new {
        Store::create(alloc, shelf, clock)
    } else {
        Store::open(alloc, shelf, clock)
    };
    match begun {
        Ok(store) => Ok(Ok(store)),
        Err((shelf, _, OpenFault::Disk(1))) => Ok(Err(shelf)),
        Err(_) => Err(Fail::from("another fault")),
    }
}

fn shelf_failing(
    alloc: Global,
    folder: &Folder,
    failing: Failing,
    shows_failed: bool,
) -> Result<MemShelf, Fail> {
    let shelf = match failing {
        Failing::Nothing => shelf_of(alloc, folder, &[], None)?,
        Failing::Again(k) => shelf_of(alloc, folder, &[k], None)?,
        Failing::Last(k) => shelf_of(alloc, folder, &[k], None)?,
        Failing::Stop(k) => shelf_of(alloc, folder, &[], Some(k))?,
    };
    if shows_failed {
        return Ok(shelf.showing_failed());
    }
    Ok(shelf)
}

fn is_again(failing: Failing) -> bool {
    match failing {
        Failing::Again(_) => true,
        _ => false,
    }
}

// What the commands of a run come to over a store.
fn ran_over(alloc: Global, store: MemStore, stages: &[Stage], again: bool) -> Result<Ran, Fail> {
    let mut store = store;
    let reached = take_all(alloc, &mut store, stages, again)?;
    Ok(Ran {
        shelf: store.parts().0,
        is_open: true,
        first: reached.first,
        last: reached.last,
        failed: reached.failed,
    })
}

/// What a run comes to. Where the disk fails a replace or a removal, reads may see what it made.
pub fn played(alloc: Global, run: &Run, failing: Failing, shows_failed: bool) -> Result<Ran, Fail> {
    let shelf = shelf_failing(alloc, &run.folder, failing, shows_failed)?;
    match begun(alloc, shelf, run.is_new)? {
        Ok(store) => ran_over(alloc, store, run.stages, is_again(failing)),
        Err(shelf) => Ok(Ran {
            shelf,
            is_open: false,
            first: 0,
            last: 0,
            failed: 1,
        }),
    }
}

fn has_log(folder: &Folder) -> bool {
    for file in folder.as_slice() {
        if file.0 == Name::Log {
            return true;
        }
    }
    false
}

// Whether a store has the mailbox of one of these stages, and its messages.
fn has_stage(store: &mut MemStore, stages: &[Stage], first: usize, last: usize) -> bool {
    for at in first..last.saturating_add(1) {
        if at < stages.len() && has_state(store, &stages[at].state) {
            return has_mails(store, stages[at].state.mails);
        }
    }
    false
}

// Whether a folder opens to the mailbox of one of these stages. One that wasn't made may have no
// log.
fn opens(
    alloc: Global,
    folder: &Folder,
    stages: &[Stage],
    ran: &Ran,
    is_new: bool,
) -> Result<bool, Fail> {
    if !ran.is_open && is_new && !has_log(folder) {
        return Ok(true);
    }
    let shelf = shelf_of(alloc, folder, &[], None)?;
    let mut store = opened(alloc, shelf, clock_of(alloc, &[1000])?)?;
    Ok(has_stage(&mut store, stages, ran.first, ran.last))
}

// Whether each sample of what a crash may leave behind a run opens to a mailbox of its stages.
fn images_open(alloc: Global, run: &Run, ran: &Ran) -> Result<bool, Fail> {
    let images = ran.shelf.images(alloc)?;
    for image in images.as_slice() {
        if !opens(alloc, image, run.stages, ran, run.is_new)? {
            return Ok(false);
        }
    }
    Ok(true)
}

// Whether a run that no call fails, or one of which a command is sent again, comes to the last
// stage.
fn is_whole(run: &Run, ran: &Ran) -> bool {
    ran.first == ran.last && ran.first.saturating_add(1) == run.stages.len()
}

// Why a run isn't as it has to be.
fn fault_of(
    alloc: Global,
    run: &Run,
    failing: Failing,
    shows_failed: bool,
) -> Result<Option<&'static str>, Fail> {
    let ran = played(alloc, run, failing, shows_failed)?;
    if ran.failed != 1 {
        return Ok(Some("the disk didn't fail once"));
    }
    if is_again(failing) && ran.is_open && !is_whole(run, &ran) {
        return Ok(Some("a run isn't whole"));
    }
    if !images_open(alloc, run, &ran)? {
        return Ok(Some("an image opens to another mailbox"));
    }
    Ok(None)
}

/// The number of calls of a run of which none fails.
pub fn calls_of(alloc: Global, run: &Run) -> Result<u64, Fail> {
    let ran = played(alloc, run, Failing::Nothing, false)?;
    if ran.failed != 0 || !is_whole(run, &ran) || !images_open(alloc, run, &ran)? {
        return Err(Fail::from("the run isn't whole"));
    }
    Ok(ran.shelf.call_count())
}

// Fails unless a run is as it has to be.
fn fail_one(alloc: Global, run: &Run, failing: Failing, shows_failed: bool) -> Result<(), Fail> {
    match fault_of(alloc, run, failing, shows_failed)? {
        None => Ok(()),
        Some(what) => Err(Fail::from(what)),
    }
}

/// Fails unless a run is as it has to be where each of so many calls fails, and the command is sent
/// again.
pub fn fail_each_once(alloc: Global, run: &Run, calls: u32) -> Result<(), Fail> {
    for k in 0..calls {
        let failing = Failing::Again(k.saturating_add(1));
        fail_one(alloc, run, failing, false)?;
        fail_one(alloc, run, failing, true)?;
    }
    Ok(())
}

/// Fails unless a run is as it has to be where each of so many calls fails, and no command is sent
/// behind it.
pub fn fail_each_at_the_end(alloc: Global, run: &Run, calls: u32) -> Result<(), Fail> {
    for k in 0..calls {
        let failing = Failing::Last(k.saturating_add(1));
        fail_one(alloc, run, failing, false)?;
        fail_one(alloc, run, failing, true)?;
    }
    Ok(())
}

/// Fails unless a run is as it has to be where all calls fail from each of so many on.
pub fn stop_before_each(alloc: Global, run: &Run, calls: u32) -> Result<(), Fail> {
    for k in 0..calls {
        fail_one(alloc, run, Failing::Stop(k), false)?;
    }
    Ok(())
}
