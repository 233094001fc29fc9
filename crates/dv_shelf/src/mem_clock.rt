ghost use Rattle.std.specs.Prelude.{◌≡◌, ◌^◌, ◌<◌, ℕ, All, length};
ghost use Rattle.dv_shelf.specs.Clocks.{reading, behind};

use crate::{Clock, Gate};
use dv_model::List;
use std::alloc::Global;

/// A clock that gives the readings of a list in turn, and then the last one again and again.
#[derive(Drop)]
pub struct MemClock {
    readings: Vec<u32>,
    at: usize,
    ghost some: { at < length readings.items },
    ghost small: { All (λ n. n < 2 ^ 32) readings.items },
}

impl MemClock {
    ghost use Rattle.dv_shelf.specs.MemClocks.{readings_to_come};

    /// A clock with these readings, in Unix seconds.
    pub fn new(_alloc: Global, readings: List<u32>) -> MemClock
        requires { 0 < length readings }
        ensures { readings_to_come result ≡ reading readings }
    {
        let readings = readings.into_vec();
        // As a slice they are known to be numbers of 32 bits.
        let _numbers = readings.as_slice();
        MemClock { readings, at: 0 }
    }
}

impl Clock for MemClock {
    ghost use Rattle.dv_shelf.specs.MemClocks.{readings_small, readings_to_come};

    ghost sees = { record { tells = Unit {0}; upcoming = readings_to_come } };

    ghost readings_small = { λ c k told. readings_small c k };

    fn now(&mut self) -> u32 {
        let now = self.readings[self.at];
        if self.at + 1 < self.readings.len() {
            self.at += 1;
        }
        now
    }
}

/// A gate that does nothing.
#[derive(Clone, Copy)]
pub struct OpenGate;

impl Gate for OpenGate {
    fn before(&self, _session: u32, _command: u32) {}
}
