ghost use Rattle.std.specs.Prelude.{◌≡◌, ◌≤◌, [], length};

use crate::{CallFault, ReadCalls, TimeCalls, WriteCalls};
use dv_model::{Bytes, List};
use std::alloc::Global;

/// What becomes of a call that reads or writes.
#[derive(Clone, Copy, PartialEq, Eq)]
pub enum Event {
    /// It takes at most so many bytes, and of some at least one.
    Takes(u32),
    Interrupted,
    Failed,
}

/// What becomes of the calls: the events of a list in turn, and then calls that take all.
#[derive(Drop)]
pub struct Events {
    listed: List<Event>,
    next: usize,
}

impl Events {
    ghost use Rattle.dv_streams.specs.Channels.{interruptions_of, Leaves};

    /// No call was made yet.
    fn new(listed: List<Event>) -> Events {
        Events { listed, next: 0 }
    }

    /// What becomes of the next call.
    fn next_event(&mut self) -> Event
        ensures { Leaves (interruptions_of self.old) (interruptions_of self.new) result }
    {
        if self.next >= self.listed.len() {
            return Event::Takes(u32::MAX);
        }
        let event = *self.listed.get(self.next);
        self.next += 1;
        event
    }
}

/// A file in memory that is read from its front on.
#[derive(Drop)]
pub struct MemInput {
    bytes: Bytes,
    at: usize,
    events: Events,
    failures: u64,
    ghost within: { at ≤ length bytes },
}

impl MemInput {
    ghost use Rattle.dv_streams.specs.Inputs.{bytes_left};

    /// A file with these bytes. What becomes of the calls is listed.
    pub fn new(_alloc: Global, bytes: Bytes, events: List<Event>) -> MemInput
        ensures { bytes_left result ≡ bytes }
    {
        MemInput {
            bytes,
            at: 0,
            events: Events::new(events),
            failures: 0,
        }
    }
}

impl ReadCalls for MemInput {
    ghost use Rattle.dv_streams.specs.Inputs.{bytes_left};
    ghost use Rattle.dv_streams.specs.Channels.{interruptions_of};

    ghost tells = { Unit {0} };

    ghost left = { bytes_left };

    ghost failures = { λ s. s.failures };

    ghost interruptions = { λ s. interruptions_of s.events };

    fn read(&mut self, buf: &mut [u8]) -> Result<usize, CallFault> {
        let most = match self.events.next_event() {
            Event::Takes(most) => most.max(1) as usize,
            Event::Interrupted => return Err(CallFault::Interrupted),
            Event::Failed => {
                self.failures = self.failures.saturating_add(1);
                return Err(CallFault::Failed);
            }
        };
        let (_, left) = self.bytes.as_slice().split_at(self.at);
        let n = most.min(left.len()).min(buf.len());
        let (taken, _) = left.split_at(n);
        let (front, _) = buf.split_at_mut(n);
        front.copy_from_slice(taken);
        self.at += n;
        Ok(n)
    }
}

/// A file in memory that is written behind its end.
#[derive(Drop)]
pub struct MemOutput {
    taken: Bytes,
    events: Events,
    failures: u64,
}

impl MemOutput {
    /// An empty file. What becomes of the calls is listed; want of memory is a failure too.
    pub fn new(alloc: Global, events: List<Event>) -> MemOutput
        ensures { result.taken ≡ [] }
    {
        MemOutput {
            taken: List::new(alloc),
            events: Events::new(events),
            failures: 0,
        }
    }

    /// The bytes that it took.
    pub fn taken(&self) -> &[u8]
        ensures { result.now ≡ self.now.taken }
    {
        self.taken.as_slice()
    }
}

impl WriteCalls for MemOutput {
    ghost use Rattle.dv_streams.specs.Channels.{interruptions_of};

    ghost tells = { Unit {0} };

    ghost taken = { λ s. s.taken };

    ghost failures = { λ s. s.failures };

    ghost interruptions = { λ s. interruptions_of s.events };

    fn write(&mut self, bytes: &[u8]) -> Result<usize, CallFault> {
        let most = match self.events.next_event() {
            Event::Takes(most) => most.max(1) as usize,
            Event::Interrupted => return Err(CallFault::Interrupted),
            Event::Failed => 0,
        };
        let (front, _) = bytes.split_at(most.min(bytes.len()));
        if most == 0 || self.taken.extend(front).is_err() {
            self.failures = self.failures.saturating_add(1);
            return Err(CallFault::Failed);
        }
        Ok(front.len())
    }
}

/// A clock in memory that always says the same.
#[derive(Drop)]
pub struct MemTime {
    seconds: Option<u64>,
}

impl MemTime {
    /// A clock that always says this.
    pub fn new(seconds: Option<u64>) -> MemTime
        ensures { result.seconds ≡ seconds }
    {
        MemTime { seconds }
    }
}

impl TimeCalls for MemTime {
    ghost tells = { Unit {0} };

    ghost upcoming = { λ s k. s.seconds };

    fn seconds(&mut self) -> Option<u64> {
        self.seconds
    }
}
