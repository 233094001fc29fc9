//! The readings of the clock that a write takes.

ghost use Rattle.std.specs.Prelude.{◌≡◌, ◌+◌, IfSome, is_some, true};
ghost use Rattle.dv_model.specs.Journals.{IsU32};
ghost use Rattle.dv_shelf.specs.Clocks.{behind};
ghost use Rattle.dv_plans.specs.Begins as begins;
ghost use Rattle.dv_plans.specs.Begins.{count_of, received_at};

use dv_chain::Chain;
use dv_files::Turn;
use dv_shelf::Clock;
use dv_writing::is_due;

/// The readings of the clock that a write takes, in seconds since 1970.
#[derive(Clone, Copy)]
pub struct Times {
    /// When a new log file is made, where the log is rotated.
    pub turn: Option<u32>,
    /// When the message came, where one is appended; else 0.
    pub received: u32,
}

/// Whether a rotation comes before the group: the log is long, and none is owed.
pub fn is_turn_due(chain: &Chain, owed: &Option<Turn>) -> bool
    ensures { result ≡ begins.turns owed.now chain.now }
{
    owed.is_none() && is_due(chain)
}

/// One reading for a new log file.
fn turn_time<C: Clock>(clock: &mut C, turns: bool) -> Option<u32>
    ensures turn { is_some result ≡ turns }
    ensures time { C.sees.tells → IfSome result (λ now. now ≡ C.sees.upcoming clock.old 0) }
    ensures clock { C.sees.tells →
        C.sees.upcoming clock.new ≡ behind (C.sees.upcoming clock.old) (count_of turns) }
{
    if !turns {
        return None;
    }
    Some(clock.now())
}

/// One reading for a message.
fn message_time<C: Clock>(clock: &mut C, appends: bool) -> u32
    ensures received { C.sees.tells → appends ≡ true → result ≡ C.sees.upcoming clock.old 0 }
    ensures clock { C.sees.tells →
        C.sees.upcoming clock.new ≡ behind (C.sees.upcoming clock.old) (count_of appends) }
{
    if !appends {
        return 0;
    }
    clock.now()
}

/// Reads the clock once where the log is rotated, and then once where a message is appended.
pub fn read_times<C: Clock>(clock: &mut C, turns: bool, appends: bool) -> Times
    ensures turn { is_some result.turn ≡ turns }
    ensures time { C.sees.tells →
        IfSome result.turn (λ now. now ≡ C.sees.upcoming clock.old 0) }
    ensures received { C.sees.tells → appends ≡ true →
        result.received ≡ received_at turns (C.sees.upcoming clock.old) }
    ensures small { IsU32 result.received }
    ensures clock { C.sees.tells → C.sees.upcoming clock.new
        ≡ behind (C.sees.upcoming clock.old) (count_of turns + count_of appends) }
{
    let turn = turn_time(clock, turns);
    let received = message_time(clock, appends);
    Times { turn, received }
}
