ghost use Rattle.std.specs.Prelude.{◌≡◌, ◌≢◌, ◌⊎◌, ◌↔◌, ◌+◌, ◌<◌, ◌≤◌, [], length, min, IfOk, IsErr, OnOk, is_err, vec_len, vec_capacity};
ghost use Rattle.std.specs.Io.{ReadsAtMost};
ghost use Rattle.dv_shelf.specs.Causes.{HasCause, CountsOnce};
ghost use Rattle.dv_shelf.specs.Streams.{Takes, Appends, AppendsFront};

use crate::failures::{Failures, Turn};
use crate::{Failed, Sink, Source};
use dv_model::{Bytes, List, NoMemory};
use std::alloc::Global;

/// A source that gives the bytes of a list, of which chosen reads fail.
#[derive(Drop)]
pub struct MemSource {
    bytes: Bytes,
    at: usize,
    failures: Failures,
    ghost within: { at ≤ length bytes },
}

impl MemSource {
    ghost use Rattle.dv_shelf.specs.MemStreams.{bytes_left};
    ghost use Rattle.dv_shelf.specs.Failures.{untried};

    /// A source of these bytes. Exactly the reads that `fails` lists fail; the first is number 1.
    pub fn new(_alloc: Global, bytes: Bytes, fails: List<u32>) -> MemSource
        ensures left { bytes_left result ≡ bytes }
        ensures fails { result.failures ≡ untried fails None }
    {
        MemSource {
            bytes,
            at: 0,
            failures: Failures::new(fails, None),
        }
    }
}

impl Source for MemSource {
    ghost use Rattle.dv_shelf.specs.MemStreams.{bytes_left, source_faults};
    ghost use Rattle.dv_shelf.specs.Failures.{turn_of, after_answer};

    ghost sees = { record { tells = Unit {0}; left = bytes_left; fault_count = source_faults } };

    fn read(&mut self, buf: &mut [u8]) -> Result<usize, Failed>
        ensures bytes { Takes (bytes_left self.old) (bytes_left self.new) result buf.new }
        ensures bound { ReadsAtMost result buf.new }
        ensures cause { HasCause (source_faults self.old) (source_faults self.new) result }
        ensures once { CountsOnce (source_faults self.old) (source_faults self.new) result }

        // Exactly the listed calls fail, and the others take all that there is room for.
        ensures fails { IsErr result ↔ (turn_of self.old.failures ≢ Turn.Passes) }
        ensures all { IfOk result (λ n. n ≡ min (length (bytes_left self.old)) (length buf.old)) }
        ensures counted { self.new.failures ≡ after_answer self.old.failures (is_err result) }
    {
        self.failures.call()?;
        let (_, left) = self.bytes.as_slice().split_at(self.at);
        let n = left.len().min(buf.len());
        let (taken, _) = left.split_at(n);
        let (front, _) = buf.split_at_mut(n);
        front.copy_from_slice(taken);
        self.at += n;
        Ok(n)
    }

    fn faults(&self) -> u64 {
        self.failures.faults
    }
}

/// A sink that takes bytes into memory, of which chosen writes fail.
#[derive(Drop)]
pub struct MemSink {
    taken: Vec<u8>,
    room: usize,
    failures: Failures,
    ghost fits: { room ≤ vec_capacity taken },
    ghost within: { vec_len taken ≤ room },
}

impl MemSink {
    ghost use Rattle.dv_shelf.specs.MemStreams.{bytes_taken, room_left};
    ghost use Rattle.dv_shelf.specs.Failures.{untried};

    /// A sink with room for so many bytes. The writes that `fails` lists fail, and those that
    /// are longer than what is left of the room; the first is number 1.
    pub fn new(alloc: Global, room: u32, fails: List<u32>) -> Result<MemSink, NoMemory>
        ensures taken { IfOk result (λ sink. bytes_taken sink ≡ []) }
        ensures room { IfOk result (λ sink. room_left sink ≡ room) }
        ensures fails { IfOk result (λ sink. sink.failures ≡ untried fails None) }
    {
        let room = room as usize;
        Ok(MemSink {
            taken: Vec::with_capacity(alloc, room)?,
            room,
            failures: Failures::new(fails, None),
        })
    }

    /// The bytes that it took.
    pub fn taken(&self) -> &[u8]
        ensures { result.now ≡ bytes_taken self.now }
    {
        self.taken.as_slice()
    }
}

impl Sink for MemSink {
    ghost use Rattle.dv_shelf.specs.MemStreams.{bytes_taken, room_left, sink_faults};
    ghost use Rattle.dv_shelf.specs.Failures.{turn_of, after_answer};

    ghost sees = { record { tells = Unit {0}; taken = bytes_taken; fault_count = sink_faults } };

    fn write_all(&mut self, bytes: &[u8]) -> Result<(), Failed>
        ensures ok { OnOk result (Appends (bytes_taken self.old) (bytes_taken self.new) bytes.now) }
        ensures err { AppendsFront (bytes_taken self.old) (bytes_taken self.new) bytes.now }
        ensures cause { HasCause (sink_faults self.old) (sink_faults self.new) result }
        ensures once { CountsOnce (sink_faults self.old) (sink_faults self.new) result }

        // Exactly the listed calls fail, and those for which there is no room.
        ensures fails { IsErr result ↔ ((turn_of self.old.failures ≢ Turn.Passes)
            ⊎ (room_left self.old < length bytes.now)) }
        ensures counted { self.new.failures ≡ after_answer self.old.failures (is_err result) }
        ensures room { room_left self.new + length (bytes_taken self.new)
            ≡ room_left self.old + length (bytes_taken self.old) }
    {
        self.failures.call()?;
        if self.room - self.taken.len() < bytes.len() {
            return self.failures.fail();
        }
        match self.taken.extend_from_slice(bytes) {
            Ok(()) => Ok(()),
            Err(_) => unreachable!(),
        }
    }

    fn faults(&self) -> u64 {
        self.failures.faults
    }
}
