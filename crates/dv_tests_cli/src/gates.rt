//! What stands at a gate's calls.

use crate::runs::{Outside, RUN, outside_of};
use dv_cli::{Ran, run};
use dv_model::{List, NoMemory};
use dv_shelf::{Failed, Gate, MemShelf, Sink};
use std::alloc::Global;
use std::sync::atomic::{AtomicU64, Ordering};

// An output that counts the bytes which it takes.
#[derive(Drop)]
struct CountedOutput<'a> {
    taken: &'a AtomicU64,
}

impl Sink for CountedOutput<'_> {
    ghost use Rattle.std.specs.Prelude.{[]};

    ghost sees = { record { tells = ⊥; taken = λ _. []; fault_count = λ _. 0 } };

    fn write_all(&mut self, bytes: &[u8]) -> Result<(), Failed> {
        let taken = self.taken.load(Ordering::SeqCst);
        self.taken
            .store(taken.wrapping_add(bytes.len() as u64), Ordering::SeqCst);
        Ok(())
    }

    fn faults(&self) -> u64 {
        0
    }
}

// Notes the numbers of each call as two digits, and how many bytes the output had taken before a
// session's first command, and before its last.
#[derive(Drop)]
struct WatchingGate<'a> {
    taken: &'a AtomicU64,
    notes: AtomicU64,
    first: AtomicU64,
    last: AtomicU64,
}

impl Gate for WatchingGate<'_> {
    fn before(&self, session: u32, command: u32) {
        let taken = self.taken.load(Ordering::SeqCst);
        if command == 1 {
            self.first.store(taken, Ordering::SeqCst);
        }
        self.last.store(taken, Ordering::SeqCst);
        let noted = self.notes.load(Ordering::SeqCst);
        let note = u64::from(session)
            .wrapping_mul(10)
            .wrapping_add(u64::from(command));
        self.notes.store(noted.wrapping_mul(100).wrapping_add(note), Ordering::SeqCst);
    }
}

// The status of a run, what the gate noted, and the bytes before the first command and the last.
type Watched = (u8, u64, u64, u64);

// The status of a run with this gate, whose output counts what it takes.
fn status_of(
    alloc: Global,
    script: &[u8],
    taken: &AtomicU64,
    gate: &WatchingGate,
) -> Result<u8, NoMemory> {
    let Outside {
        words,
        mut source,
        clock,
        ..
    } = outside_of(alloc, script, &RUN)?;
    let shelf = MemShelf::new(alloc, 100_000, List::new(alloc), None)?;
    let mut out = CountedOutput { taken };
    let ran = run(
        alloc,
        words.as_slice(),
        shelf,
        &mut source,
        &mut out,
        clock,
        gate,
    );
    let Ran {
        status,
        told: _told,
        shelf: _shelf,
        clock: _clock,
    } = ran;
    Ok(status)
}

fn watched(alloc: Global, script: &[u8]) -> Result<Watched, NoMemory> {
    let taken = AtomicU64::new(0);
    let gate = WatchingGate {
        taken: &taken,
        notes: AtomicU64::new(0),
        first: AtomicU64::new(1),
        last: AtomicU64::new(0),
    };
    let status = status_of(alloc, script, &taken, &gate)?;
    Ok((
        status,
        gate.notes.load(Ordering::SeqCst),
        gate.first.load(Ordering::SeqCst),
        gate.last.load(Ordering::SeqCst),
    ))
}

// The bytes of a SELECT's replies in a new mailbox.
const SELECTED: &[u8] =
    b"x * 0 EXISTS\nx * OK [UIDVALIDITY 1000]\nx * OK [UIDNEXT 1]\nx OK [MARK 1:56] SELECT\n";

#[test]
fn the_gate_is_called_with_session_and_command(rt: HostRuntime) {
    let script = b"x SELECT\ny SELECT\nx NOOP\nz NOOP\nx NOOP\ny NOOP\n";
    let is_so = matches!(watched(rt.alloc(), script), Ok((0, 112112311322, _, _)));
    assert!(rt; is_so);
}

#[test]
fn the_gate_is_called_before_a_command_is_answered(rt: HostRuntime) {
    let watched = watched(rt.alloc(), b"x SELECT\nx NOOP\n");
    let length = SELECTED.len() as u64;
    assert!(rt; matches!(watched, Ok((0, _, 0, last)) if last == length));
}
