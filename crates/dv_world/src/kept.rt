use dv_answer::Session;
use dv_apply::Live;
use dv_model::{Bytes, Command, Entry, Group, List, Mailbox, Mark, Reply};
use dv_responses::Met;
use dv_touched::Touched;
use std::alloc::Global;

/// A message of a UID, unless its file is missing or damaged, and its GUID.
pub type Stored = (u32, Option<Bytes>, [u8; 16]);

/// An entry of the log.
#[derive(Drop)]
pub struct Logged {
    pub entry: Entry,
    /// The place behind it.
    pub behind: Mark,
    /// The UIDs of which a session is to be told for it.
    pub touched: Touched,
}

/// An entry whose gate was written, or is being written.
#[derive(Drop)]
pub struct Pending {
    pub author: u32,
    pub command: Command,
    pub group: Group,
    pub received: u32,
    /// Its commit hasn't ended.
    pub running: bool,
    /// The place behind it.
    pub behind: Mark,
    /// What the command took from the mailbox that it met.
    pub taken: Met,
}

/// A write that is done and not answered yet.
#[derive(Drop)]
pub struct Wrote {
    /// How many entries the log had behind it.
    pub place: usize,
    /// How many it had before.
    pub met: usize,
    pub command: Command,
    /// What the command took from the mailbox that it met.
    pub taken: Met,
}

/// A live session, with a mailbox of its own at what it has seen.
#[derive(Drop)]
pub struct Seat {
    pub number: u32,
    pub session: Session,
    /// How many entries it was told.
    pub told: usize,
    /// How many it has seen.
    pub seen: usize,
    /// The mailbox behind these.
    pub live: Live,
    pub wrote: Option<Wrote>,
    /// The commands that were answered, each with its replies.
    pub answers: Vec<(Command, List<Reply>)>,
}

/// A log with its sessions.
#[derive(Drop)]
pub struct Kept {
    pub alloc: Global,
    pub start: Mailbox,
    pub start_mark: Mark,
    pub indexid: u32,
    /// The messages, of which the first with a UID counts.
    pub stored: Vec<Stored>,
    pub logged: Vec<Logged>,
    pub pending: Option<Pending>,
    /// How many entries are published.
    pub published: usize,
    /// The mailbox behind these.
    pub front: Live,
    /// The mailbox behind all entries.
    pub end: Live,
    pub seats: Vec<Seat>,
}
