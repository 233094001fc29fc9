ghost use Rattle.std.specs.Prelude.{◌≡◌, ◌^◌, ◌<◌, ℕ};
ghost use Rattle.dv_shelf.specs.Clocks.{behind};
ghost use Rattle.dv_shelf.specs.Sees.{SeesTime};

/// A clock, by its readings to come.
pub trait Clock {
    /// What a clock of this type shows.
    ghost sees: { SeesTime Self };

    /// The time in Unix seconds. It never fails.
    fn now(&mut self) -> u32
        ensures reading { sees.tells → result ≡ sees.upcoming self.old 0 }
        ensures later { sees.tells →
            sees.upcoming self.new ≡ behind (sees.upcoming self.old) 1 };

    /// Each reading is a number of 32 bits.
    ghost readings_small: { (c : Self) (k : ℕ) → sees.tells → sees.upcoming c k < 2 ^ 32 };
}

/// What is called before each command of a session.
pub trait Gate {
    /// Called before a command of a session, each by its number.
    fn before(&self, session: u32, command: u32);
}
