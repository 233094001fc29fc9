//! The calls of a session by which its commands are answered in parts.

ghost use Rattle.std.specs.Prelude.{◌≡◌, IsTrue, false, true};
ghost use Rattle.dv_responses.specs.Depth.{IsShallow};

use crate::player::{Trouble, expect};
use crate::serving::{MemKeeper, see_all};
use dv_member::Session;
use dv_model::{Command, Fresh, List, Mark, NoMemory, Reply, Step, Word};
use dv_naming::{Keeping, Tally};
use dv_responses::reads_mail;
use dv_sets::SetEnd;
use dv_texts::ReplyText;
use std::alloc::Global;
use std::sync::Wait;

/// The data lines of a FETCH or SEARCH that reads no messages.
pub fn data_lines<K: Keeping, L: Tally, M: Tally>(
    s: &Session<K, L, M>,
    c: &Command,
    replies: &mut ReplyText,
) -> Result<(), Trouble>
    requires fresh { s.now.spent ≡ false }
    requires shallow { IsShallow c.now }
{
    if reads_mail(c) {
        return Err(Trouble::Unlike);
    }
    match c {
        Command::Fetch { by_uid, set, items } => {
            match s.fetch_rows(*by_uid, set, items, replies) {
                Ok(()) => Ok(()),
                Err(SetEnd::NoMessage(_)) => Err(Trouble::Unlike),
                Err(SetEnd::NoMemory) => Err(Trouble::NoMemory),
            }
        }
        Command::Search { by_uid, key } => Ok(s.search(*by_uid, key, replies)?),
        _ => Err(Trouble::Unlike),
    }
}

// A place in the first file.
fn place(offset: u32) -> Mark {
    Mark {
        file_seq: 1,
        offset,
    }
}

// A command is done, at this place.
fn done(alloc: Global, word: Word, offset: u32) -> Reply {
    Reply::Done {
        word,
        mark: place(offset),
        appended: None,
        modified: List::new(alloc),
    }
}

/// A session sees all, and is shown the mailbox anew.
pub fn select_seen<K: Keeping, L: Tally, M: Tally, R: Wait>(
    alloc: Global,
    rt: &R,
    keeper: &MemKeeper<K, L, M>,
    s: &mut Session<K, L, M>,
    offset: u32,
    replies: &mut ReplyText,
) -> Result<(), NoMemory>
    requires fresh { s.old.spent ≡ false }
    ensures fresh { s.new.spent ≡ false }
{
    see_all(rt, keeper, s)?;
    s.select(done(alloc, Word::Select, offset), replies)
}

// Whether the session has selected the mailbox.
fn has_selected<K: Keeping, L: Tally, M: Tally>(s: &Session<K, L, M>) -> bool
    requires fresh { s.now.spent ≡ false }
    ensures { IsTrue result → s.now.follower.state.selected ≡ true }
{
    s.refuse(&Command::Noop).is_none()
}

/// A session sees all, and is told of that, where it has selected the mailbox.
pub fn tell_seen<K: Keeping, L: Tally, M: Tally, R: Wait>(
    alloc: Global,
    rt: &R,
    keeper: &MemKeeper<K, L, M>,
    s: &mut Session<K, L, M>,
    step: Step,
    word: Word,
    offset: u32,
    replies: &mut ReplyText,
) -> Result<(), Trouble>
    requires fresh { s.old.spent ≡ false }
    ensures fresh { s.new.spent ≡ false }
{
    see_all(rt, keeper, s)?;
    if !has_selected(s) {
        return Err(Trouble::Unlike);
    }
    s.tell(step, done(alloc, word, offset), replies)?;
    Ok(())
}

// Whether these are of these UIDs.
fn are_uids(fresh: &List<Fresh>, uids: &[u32]) -> bool {
    if fresh.len() != uids.len() {
        return false;
    }
    for at in 0..uids.len() {
        if fresh.get(at).uid != uids[at] {
            return false;
        }
    }
    true
}

/// Whether a session that has selected the mailbox was told all up to this place, and is yet to be
/// told of these UIDs.
pub fn is_untold<K: Keeping, L: Tally, M: Tally>(
    s: &Session<K, L, M>,
    offset: u32,
    uids: &[u32],
) -> Result<(), Trouble>
    requires fresh { s.now.spent ≡ false }
{
    if !has_selected(s) {
        return Err(Trouble::Unlike);
    }
    expect(s.position() == place(offset))?;
    let fresh = s.fresh_of()?;
    expect(are_uids(&fresh, uids))
}
