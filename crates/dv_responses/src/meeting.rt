ghost use Rattle.std.specs.Prelude.{◌≡◌, All, IfOk, filter, map, nat_lt};
ghost use Rattle.dv_model.specs.Mailboxes.{IsValid};
ghost use Rattle.dv_model.specs.Sessions.{has_row, has_uid, number_of};
ghost use Rattle.dv_responses.specs.Met.{met_of};
ghost use Rattle.dv_responses.specs.Rows.{IsNumber, rows_at};

use crate::rows::{named, row_at};
use dv_model::{Command, List, NoMemory, Shown};
use dv_view::{Live, View};
use std::alloc::Global;

/// What a command takes from the mailbox that it meets, before it writes.
#[derive(Drop)]
pub struct Met {
    /// The UID that an APPEND gives its message.
    pub appended: Option<u32>,
    /// The messages that UNCHANGEDSINCE keeps: numbers, or UIDs where the command goes by them.
    pub modified: List<u32>,
}

/// Whether the mailbox has a row of this UID.
pub fn has_uid(live: &Live, uid: u32) -> bool
    ensures { result ≡ has_uid live.now.mailbox uid }
{
    live.position(uid).is_some()
}

// Whether the mailbox has a row of this UID that changed behind this number.
fn is_later(live: &Live, uid: u32, since: u64) -> bool
    requires { IsValid live.now.mailbox }
    ensures { result ≡ has_row live.now.mailbox (λ row. nat_lt since row.modseq) uid }
{
    match live.position(uid) {
        Some(at) => live.row(at).modseq > since,
        None => false,
    }
}

// The row's number, or its UID.
fn number_of(by_uid: bool, number: u32, s: &Shown) -> u32
    ensures { result ≡ number_of by_uid (number, s.now) }
{
    if by_uid { s.uid } else { number }
}

// Those of the named rows that the number keeps from a change.
fn modified(
    alloc: Global,
    by_uid: bool,
    rows: &[Shown],
    numbers: &[u32],
    live: &Live,
    since: u64,
) -> Result<List<u32>, NoMemory>
    requires valid { IsValid live.now.mailbox }
    requires inside { All (IsNumber rows.now) numbers.now }
    ensures { IfOk result (λ kept. kept ≡ map (number_of by_uid)
        (filter (λ row. has_row live.now.mailbox (λ r. nat_lt since r.modseq) row.1.uid)
        (rows_at rows.now numbers.now))) }
{
    let mut kept = List::new(alloc);
    for number in numbers {
        let s = row_at(rows, *number);
        if is_later(live, s.uid, since) {
            kept.push(number_of(by_uid, *number, s))?;
        }
    }
    Ok(kept)
}

/// What the command takes from the mailbox that it meets. `NoMemory` is the only error. The time
/// is that of a set's ranges, their sorting, and the rows that it names, each found by halves.
pub fn meet(alloc: Global, c: &Command, view: &View, live: &Live) -> Result<Met, NoMemory>
    ensures { IfOk result (λ met. met ≡ met_of c.now view.now live.now.mailbox) }
{
    let next_uid = live.next_uid();
    match c {
        Command::Append { .. } => Ok(Met {
            appended: Some(next_uid),
            modified: List::new(alloc),
        }),
        Command::Store {
            by_uid,
            set,
            unchanged_since: Some(since),
            ..
        } => {
            let numbers = named(alloc, *by_uid, set, view)?;
            let rows = view.rows().as_slice();
            let modified = modified(alloc, *by_uid, rows, numbers.as_slice(), live, *since)?;
            Ok(Met {
                appended: None,
                modified,
            })
        }
        _ => Ok(Met {
            appended: None,
            modified: List::new(alloc),
        }),
    }
}
