ghost use Rattle.std.specs.Prelude.{◌≡◌, ◌++◌, filter, map, nat_le, OnOk, IfOk, option_map, unwrap_or};
ghost use Rattle.dv_model.specs.Views.{moved, row_of, shown};

use crate::copies::{copy_of, shown};
use dv_apply::Live;
use dv_model::{List, NoMemory, Shown, Step};
use std::alloc::Global;

// A row of a view as the mailbox has it now, or as it was shown.
fn held_row(alloc: Global, live: &Live, s: &Shown) -> Result<Shown, NoMemory>
    ensures { IfOk result (λ made. made
        ≡ unwrap_or (option_map shown (row_of live.now.mailbox s.now.uid)) s.now) }
{
    match live.position(s.uid) {
        Some(k) => shown(alloc, live.row(k)),
        None => copy_of(alloc, s),
    }
}

fn held_rows(alloc: Global, live: &Live, rows: &[Shown]) -> Result<List<Shown>, NoMemory>
    ensures { IfOk result (λ made. made
        ≡ map (λ s. unwrap_or (option_map shown (row_of live.now.mailbox s.uid)) s) rows.now) }
{
    let mut made = List::new(alloc);
    for s in rows {
        made.push(held_row(alloc, live, s)?)?;
    }
    Ok(made)
}

// Adds the mailbox's rows from this UID on.
fn add_rows(alloc: Global, live: &Live, from: u32, rows: &mut List<Shown>) -> Result<(), NoMemory>
    ensures { OnOk result (rows.new
        ≡ rows.old ++ map shown (filter (λ row. nat_le from row.uid) live.now.mailbox.rows)) }
{
    for k in 0..live.count() {
        let row = live.row(k);
        if row.uid >= from {
            rows.push(shown(alloc, row)?)?;
        }
    }
    Ok(())
}

/// The rows of a view that has moved on to a mailbox.
pub fn moved_rows(
    alloc: Global,
    live: &Live,
    rows: &[Shown],
    next_uid: u32,
    step: Step,
) -> Result<List<Shown>, NoMemory>
    ensures { IfOk result (λ made. made
        ≡ (moved step (record { rows = rows.now; next_uid = next_uid }) live.now.mailbox).rows) }
{
    match step {
        Step::Held => {
            let mut made = held_rows(alloc, live, rows)?;
            add_rows(alloc, live, next_uid, &mut made)?;
            Ok(made)
        }
        Step::Full => {
            let rows = Vec::with_capacity(alloc, live.count() as usize)?;
            let mut made = List::from_vec(rows);
            add_rows(alloc, live, 0, &mut made)?;
            Ok(made)
        }
    }
}
