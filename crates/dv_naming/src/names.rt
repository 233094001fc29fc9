ghost use Rattle.std.specs.Prelude.{◌≡◌, IfOk};
ghost use Rattle.dv_front.specs.Rolls.{new_listing};

use dv_front::{Roll, new_roll};
use dv_model::NoMemory;
use std::alloc::Global;
use std::marker::Brand;
use std::sync::ledger::{Blank, Ledger};

/// Which keeper of a mailbox it is: whoever begins a run picks these members, so that all of its
/// sessions, its lock and its tables speak of the same.
pub trait Keeping {
    ghost use Rattle.std.specs.Prelude.{ℕ};
    ghost use Rattle.atomic_table.specs.Seated.{TableId};
    ghost use Rattle.dv_model.specs.Journals.{Log};
    ghost use Rattle.dv_shelf.specs.Folders.{Folder};

    /// The roll that names the tables of all generations.
    ghost roll: { TableId };

    /// The log when the run began, with the messages and GUIDs of its mailbox.
    ghost start: { Log };

    /// The shelf's moment when the run began.
    ghost moment: { ℕ };

    /// What a crash since an earlier moment might have left by then.
    ghost past: { ℕ → Folder → Type 0 };

    /// The shelf's count of failures then.
    ghost count: { ℕ };

    /// The shelf tells its files, so that clauses on contents hold. A clock need not tell: there is
    /// a reading, which is the clock's where it tells.
    ghost honest: { Type 0 };
}

impl Keeping for Brand {
    ghost use Rattle.dv_front.specs.Rolls.{no_table};
    ghost use Rattle.dv_naming.specs.Starts.{no_log};

    ghost roll = { no_table };

    ghost start = { no_log };

    ghost moment = { 0 };

    ghost past = { λ moment folder. Unit {0} };

    ghost count = { 0 };

    ghost honest = { Unit {0} };
}

/// A ledger of what sessions count, with so many parts, one for each session.
pub trait Tally: Ledger {
    ghost use Rattle.std.specs.Prelude.{ℕ};

    ghost all: { ℕ };
}

impl Tally for Brand {
    ghost all = { 1 };
}

/// What names a keeper when it is made: the roll of its tables, and the ledgers of the entries that
/// its sessions write and of the commands that a failure of the disk answers.
#[derive(Drop)]
pub struct Names {
    pub roll: Roll,
    pub writes: Blank,
    pub refusals: Blank,
}

/// Names for a keeper of so many sessions: a roll without tables, and two ledgers that have a part
/// for each.
pub fn new_names(alloc: Global, sessions: u64) -> Result<Names, NoMemory>
    ensures roll { IfOk result (λ n. n.roll ≡ new_listing n.roll.table) }
    ensures parts { IfOk result (λ n. (n.writes.parts ≡ sessions) × (n.refusals.parts ≡ sessions)) }
{
    let roll = new_roll(alloc)?;
    Ok(Names {
        roll,
        writes: Blank::new(sessions),
        refusals: Blank::new(sessions),
    })
}
