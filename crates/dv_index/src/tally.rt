ghost use Rattle.dv_model.specs.Mailboxes.{IsValid};
ghost use Rattle.dv_index.specs.Fronts.{HasCounts};

use crate::header::{DELETED, SEEN, count_with};
use dv_model::Mailbox;

/// What the header of a snapshot says of the rows.
#[derive(Clone, Copy)]
pub struct Tally {
    /// How many they are.
    pub rows: u32,
    /// How many of them have the flag Seen.
    pub seen: u32,
    /// How many of them have the flag Deleted.
    pub deleted: u32,
}

/// The counts of a mailbox's rows.
pub fn tally_of(m: &Mailbox) -> Tally
    requires { IsValid m.now }
    ensures { HasCounts result m.now.rows }
{
    let rows = m.rows.as_slice();
    Tally {
        rows: rows.len() as u32,
        seen: count_with(SEEN, rows),
        deleted: count_with(DELETED, rows),
    }
}
