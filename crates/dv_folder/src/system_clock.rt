use dv_shelf::Clock;
use dv_streams::{CutClock, TimeCalls};
use std::time::{SystemTime, UNIX_EPOCH};

/// The system's call that reads the time. Nothing is told of what it does.
#[derive(Drop)]
pub(crate) struct ClockCalls {
    rt: HostRuntime,
}

impl TimeCalls for ClockCalls {
    ghost use Rattle.std.specs.Prelude.{None};

    ghost tells = { ⊥ };

    ghost upcoming = { λ _ _. None };

    fn seconds(&mut self) -> Option<u64> {
        let now = SystemTime::now(&self.rt).ok()?;
        match now.duration_since(UNIX_EPOCH) {
            Ok(since) => Some(since.as_secs()),
            Err(_) => None,
        }
    }
}

/// The system's clock, in seconds since 1970.
#[derive(Drop)]
pub struct SystemClock {
    clock: CutClock<ClockCalls>,
}

impl SystemClock {
    pub fn new(rt: HostRuntime) -> SystemClock {
        SystemClock {
            clock: CutClock::new(ClockCalls { rt }),
        }
    }
}

impl Clock for SystemClock {
    ghost sees = { record { tells = ⊥; upcoming = λ _ _. 0 } };

    ghost readings_small = { λ _ _ never. absurd never };

    /// 0 where the system can't say, and 4294967295 from the year 2106 on.
    fn now(&mut self) -> u32 {
        self.clock.now()
    }
}
