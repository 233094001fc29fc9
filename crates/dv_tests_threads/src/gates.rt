//! A gate at which two sessions meet.

use dv_shelf::Gate;
use std::sync::atomic::{AtomicU64, Ordering};
use std::thread;

/// A command, by its session's number and its own.
pub type Place = (u32, u32);

/// Before the first of two commands begins the gate was called for the other.
pub type Meeting = (Place, Place);

/// It holds commands of two sessions until others were called, each for at most so many turns, and
/// notes where it gave up.
#[derive(Drop)]
pub struct MeetingGate {
    meetings: &'static [Meeting],
    turns: u32,
    first: AtomicU64,
    second: AtomicU64,
    given_up: AtomicU64,
}

impl MeetingGate {
    /// A gate that wasn't called yet.
    pub fn new(meetings: &'static [Meeting], turns: u32) -> MeetingGate {
        MeetingGate {
            meetings,
            turns,
            first: AtomicU64::new(0),
            second: AtomicU64::new(0),
            given_up: AtomicU64::new(0),
        }
    }

    /// Whether each command that was held came to its turn.
    pub fn all_met(&self) -> bool {
        self.given_up.load(Ordering::SeqCst) == 0
    }

    /// The last command of each session for which it was called.
    pub fn called(&self) -> (u64, u64) {
        (
            self.first.load(Ordering::SeqCst),
            self.second.load(Ordering::SeqCst),
        )
    }

    fn last_of(&self, session: u32) -> &AtomicU64 {
        if session == 1 {
            &self.first
        } else {
            &self.second
        }
    }

    fn wait_for(&self, place: Place) {
        for _ in 0..self.turns {
            if self.last_of(place.0).load(Ordering::SeqCst) >= u64::from(place.1) {
                return;
            }
            thread::yield_now();
        }
        self.given_up.store(1, Ordering::SeqCst);
    }
}

impl Gate for MeetingGate {
    fn before(&self, session: u32, command: u32) {
        self.last_of(session)
            .store(u64::from(command), Ordering::SeqCst);
        for (place, other) in self.meetings {
            if *place == (session, command) {
                self.wait_for(*other);
            }
        }
    }
}
