ghost use Rattle.std.specs.Prelude.{◌≡◌, ◌+◌, ◌++◌, ◌<◌, IfOk, OnOk};
ghost use Rattle.dv_qresync.specs.Answers.{fetch_of, fetches, is_told};

use crate::types::Answer;
use dv_model::{List, NoMemory, Row};
use dv_view::{Live, names_at};
use std::alloc::Global;

/// The largest modification sequence (RFC 7162, section 7, `mod-sequence-value`).
const LAST_MODSEQ: u64 = 0x7fff_ffff_ffff_ffff;

// Whether a row is told: any is, or one that was changed behind a modification sequence.
fn is_told(live: &Live, since: Option<u64>, row: &Row) -> bool
    ensures { result ≡ is_told live.now.mailbox since row.now }
{
    match since {
        None => true,
        Some(since) => since < row.modseq || live.highest() == LAST_MODSEQ,
    }
}

// What the row of a message number, counted from 1, is like.
fn fetch_of(alloc: Global, live: &Live, number: u32, row: &Row) -> Result<Answer, NoMemory>
    ensures { IfOk result (λ told. told ≡ fetch_of live.now.mailbox (number, row.now)) }
{
    Ok(Answer::Fetch {
        number,
        uid: row.uid,
        flags: row.flags % 32,
        keywords: names_at(alloc, live.names(), row.keywords.as_slice())?,
        modseq: row.modseq,
    })
}

/// Adds what each row that is told is like, by rising message number.
pub fn add_fetches(
    alloc: Global,
    live: &Live,
    since: Option<u64>,
    answers: &mut List<Answer>,
) -> Result<(), NoMemory>
    ensures { OnOk result (answers.new ≡ answers.old ++ fetches live.now.mailbox since) }
{
    for place in 0..live.count() {
        let row = live.row(place);
        if is_told(live, since, row) {
            answers.push(fetch_of(alloc, live, place + 1, row)?)?;
        }
    }
    Ok(())
}
