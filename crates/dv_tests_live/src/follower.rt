ghost use Rattle.std.specs.Prelude.{◌≡◌, ◌≤◌, IfOk, IfSome, OnOk, true};
ghost use Rattle.dv_model.specs.Spelling.{IsRecord};
ghost use Rattle.dv_search.specs.Nesting.{levels_of, most_levels};
ghost use Rattle.dv_live.specs.Keeping.{KeptSearch};
ghost use Rattle.dv_live.specs.Laws.{Became, IsOf};
ghost use Rattle.dv_live.specs.Steadiness.{steady};

use dv_apply::Live;
use dv_commands::parse_key;
use dv_live::{Saved, keep_up, steady};
use dv_model::{Key, NoMemory, Record, Shown};
use dv_records::decode;
use dv_search::{Mail, eval, is_shallow};
use dv_touched::Touched;
use dv_view::View;
use std::alloc::Global;

// The record that these bytes are. What isn't one counts as want of memory, which no test expects,
// and so does all else that can't be here.
fn record_of(alloc: Global, bytes: &[u8]) -> Result<Record, NoMemory>
    ensures { IfOk result IsRecord }
{
    match decode(alloc, bytes, 0) {
        Ok((record, _)) => Ok(record),
        Err(_) => Err(NoMemory),
    }
}

// Applies a record, and gives the UIDs that it touches.
fn apply(alloc: Global, live: &mut Live, bytes: &[u8]) -> Result<Touched, NoMemory>
    ensures { IfOk result (λ touched. (kept : KeptSearch) → IsOf kept live.old.mailbox →
        Became kept live.new.mailbox touched) }
{
    let record = record_of(alloc, bytes)?;
    let mut touched = Touched::empty(alloc);
    // A UIDNEXT is known of a valid mailbox alone.
    let _before = live.next_uid();
    match live.apply_touched(&record, &mut touched) {
        Ok(()) => {
            let _behind = live.next_uid();
            Ok(touched)
        }
        Err(_) => Err(NoMemory),
    }
}

/// The key of a text that may be kept.
pub fn kept_key(alloc: Global, text: &[u8]) -> Option<Key>
    ensures shallow { IfSome result (λ key. levels_of key ≤ most_levels) }
    ensures steady { IfSome result (λ key. steady key ≡ true) }
{
    match parse_key(alloc, text) {
        Ok(key) if is_shallow(&key) && steady(&key) => Some(key),
        _ => None,
    }
}

// Whether the rows with these numbers have these UIDs.
fn are_uids(rows: &[Shown], numbers: &[u32], uids: &[u32]) -> bool {
    if numbers.len() != uids.len() {
        return false;
    }
    for (number, uid) in numbers.iter().zip(uids) {
        match rows.get((*number as usize).wrapping_sub(1)) {
            Some(row) if row.uid == *uid => {}
            _ => return false,
        }
    }
    true
}

// Of a key, a view and what is found each has one owner, so that it is let go in one place.
fn view_finds(
    alloc: Global,
    key: &Key,
    view: &View,
    live: &Live,
    uids: &[u32],
) -> Result<bool, NoMemory>
    requires { levels_of key.now ≤ most_levels }
{
    let none = Mail::new(alloc);
    let numbers = eval(alloc, key, view, live, &none)?;
    Ok(are_uids(view.rows().as_slice(), numbers.as_slice(), uids))
}

fn key_finds(alloc: Global, key: &Key, live: &Live, uids: &[u32]) -> Result<bool, NoMemory>
    requires { levels_of key.now ≤ most_levels }
{
    let view = View::of(alloc, live)?;
    view_finds(alloc, key, &view, live, uids)
}

// Whether a search of a whole mailbox finds these UIDs.
fn finds(alloc: Global, text: &[u8], live: &Live, uids: &[u32]) -> Result<bool, NoMemory> {
    match kept_key(alloc, text) {
        Some(key) => key_finds(alloc, &key, live, uids),
        None => Err(NoMemory),
    }
}

/// A kept search beside the mailbox that it follows.
#[derive(Drop)]
pub struct Watcher {
    live: Live,
    saved: Saved,
}

impl Watcher {
    // Of an empty mailbox, whose first record gets the modification sequence 3.
    fn of(alloc: Global, key: Key) -> Result<Watcher, NoMemory>
        requires steady { steady key ≡ true }
        requires shallow { levels_of key ≤ most_levels }
        ensures { IfOk result (λ made. IsOf made.saved made.live.mailbox) }
    {
        let mut live = Live::empty(alloc, 1000);
        live.raise(2);
        match Saved::new(alloc, key, &live) {
            Ok(saved) => Ok(Watcher { live, saved }),
            Err(_) => Err(NoMemory),
        }
    }

    /// The same by the key's text. One that may not be kept counts as want of memory, which no test
    /// expects.
    pub fn new(alloc: Global, text: &[u8]) -> Result<Watcher, NoMemory>
        ensures { IfOk result (λ made. IsOf made.saved made.live.mailbox) }
    {
        match kept_key(alloc, text) {
            Some(key) => Watcher::of(alloc, key),
            None => Err(NoMemory),
        }
    }

    // A record is applied, and the search follows.
    fn write(&mut self, alloc: Global, bytes: &[u8]) -> Result<(), NoMemory>
        requires { IsOf self.old.saved self.old.live.mailbox }
        ensures { OnOk result (IsOf self.new.saved self.new.live.mailbox) }
    {
        let touched = apply(alloc, &mut self.live, bytes)?;
        keep_up(alloc, &mut self.saved, &self.live, &touched)
    }

    /// A record is applied, and the search follows: whether a search of the key of this text finds
    /// what is kept then.
    pub fn follows(&mut self, alloc: Global, text: &[u8], bytes: &[u8]) -> Result<bool, NoMemory>
        requires { IsOf self.old.saved self.old.live.mailbox }
        ensures { OnOk result (IsOf self.new.saved self.new.live.mailbox) }
    {
        self.write(alloc, bytes)?;
        finds(alloc, text, &self.live, self.uids())
    }

    /// The UIDs that are kept.
    pub fn uids(&self) -> &[u32] {
        self.saved.uids().as_slice()
    }
}
