ghost use Rattle.std.specs.Prelude.{◌≡◌, ◌++◌, IfOk, OnOk};
ghost use Rattle.dv_qresync.specs.Answers.{resynced, vanished};

use crate::fetching::add_fetches;
use crate::ranges::gone_ranges;
use crate::types::{Answer, Old};
use dv_model::{List, NoMemory, Pair};
use dv_view::Live;
use std::alloc::Global;

// Adds which messages are gone, where some are.
fn add_vanished(gone: List<Pair>, answers: &mut List<Answer>) -> Result<(), NoMemory>
    ensures { OnOk result (answers.new ≡ answers.old ++ vanished gone) }
{
    if gone.is_empty() {
        return Ok(());
    }
    answers.push(Answer::Vanished(gone))?;
    Ok(())
}

/// What a client with an older state hears (RFC 7162, section 3.2.5). Under another UIDVALIDITY
/// that is the mailbox's, and what each message is like. Else it is which of the known messages are
/// gone, and what each one is like that was changed above the known modification sequence; of all,
/// where the mailbox's highest is 2^63 - 1. Last comes the highest. `NoMemory` is the only error.
/// The time is that of sorting the known ranges, of one look at each row, and of what is told.
pub fn resync(alloc: Global, live: &Live, old: &Old) -> Result<List<Answer>, NoMemory>
    ensures { IfOk result (λ answers. answers ≡ resynced live.now.mailbox old.now) }
{
    let mut answers = List::new(alloc);
    if live.uid_validity() == old.uid_validity {
        add_vanished(gone_ranges(alloc, live, &old.uids)?, &mut answers)?;
        add_fetches(alloc, live, Some(old.modseq), &mut answers)?;
    } else {
        answers.push(Answer::Stale(live.uid_validity()))?;
        add_fetches(alloc, live, None, &mut answers)?;
    }
    answers.push(Answer::Highest(live.highest()))?;
    Ok(answers)
}
