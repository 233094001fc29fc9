ghost use Rattle.std.specs.Prelude.{◌≡◌};

use crate::TimeCalls;
use dv_shelf::Clock;
use dv_system::cut_seconds;

/// A clock over the system's calls.
#[derive(Drop)]
pub struct CutClock<C: TimeCalls + Drop> {
    calls: C,
}

impl<C: TimeCalls + Drop> CutClock<C> {
    /// A clock that was not read yet.
    pub fn new(calls: C) -> CutClock<C>
        ensures { result.calls ≡ calls }
    {
        CutClock { calls }
    }
}

impl<C: TimeCalls + Drop> Clock for CutClock<C> {
    ghost use Rattle.dv_streams.specs.Times.{shown, shown_small};

    ghost sees = { record {
      tells = C.tells;
      upcoming = λ c k. shown (C.upcoming c.calls k);
    } };

    /// 0 where the system can't say, and 4294967295 from the year 2106 on.
    fn now(&mut self) -> u32 {
        match self.calls.seconds() {
            Some(seconds) => cut_seconds(seconds),
            None => 0,
        }
    }

    ghost readings_small = { λ c k told. shown_small (C.upcoming c.calls k) };
}
