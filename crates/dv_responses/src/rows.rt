ghost use Rattle.std.specs.Prelude.{◌≡◌, All, IfOk, map};
ghost use Rattle.dv_model.specs.Sets.{named};
ghost use Rattle.dv_responses.specs.Rows.{IsNumber, row_at, rows_at};

use dv_model::{List, NoMemory, Shown, Span};
use dv_sets::{numbers_among, uids};
use dv_view::View;
use std::alloc::Global;

/// The row of a message number.
pub fn row_at(rows: &[Shown], number: u32) -> &Shown
    requires { IsNumber rows.now number }
    ensures { result.now ≡ row_at rows.now number }
{
    &rows[number as usize - 1]
}

/// The numbers of the rows that a set names, in rising order.
pub fn named(
    alloc: Global,
    by_uid: bool,
    set: &List<Span>,
    view: &View,
) -> Result<List<u32>, NoMemory>
    ensures is { IfOk result (λ numbers.
        rows_at view.now.rows numbers ≡ named by_uid set.now view.now) }
    ensures inside { IfOk result (λ numbers. All (IsNumber view.now.rows) numbers) }
{
    let rows = view.rows();
    if by_uid {
        uids(alloc, set, rows)
    } else {
        numbers_among(alloc, set, rows.len() as u32)
    }
}

/// The UID of the row of a message number, or 0 where there is no row.
pub fn uid_at(rows: &[Shown], number: u32) -> u32
    ensures { result ≡ (row_at rows.now number).uid }
{
    match rows.get(number.saturating_sub(1) as usize) {
        Some(row) => row.uid,
        None => 0,
    }
}

/// The UIDs of the rows with these numbers.
pub fn uids_at(alloc: Global, rows: &[Shown], numbers: &[u32]) -> Result<List<u32>, NoMemory>
    ensures { IfOk result (λ uids.
        uids ≡ map (λ row. row.1.uid) (rows_at rows.now numbers.now)) }
{
    let mut uids = List::from_vec(Vec::with_capacity(alloc, numbers.len())?);
    for number in numbers {
        uids.push(uid_at(rows, *number))?;
    }
    Ok(uids)
}

/// The UIDs of all rows.
pub fn all_uids(alloc: Global, rows: &[Shown]) -> Result<List<u32>, NoMemory>
    ensures { IfOk result (λ uids. uids ≡ map (λ row. row.uid) rows.now) }
{
    let mut uids = List::from_vec(Vec::with_capacity(alloc, rows.len())?);
    for row in rows {
        uids.push(row.uid)?;
    }
    Ok(uids)
}
