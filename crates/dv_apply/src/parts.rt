ghost use Rattle.std.specs.Prelude.{◌≡◌, All, IfOk, fold};
ghost use Rattle.dv_model.specs.declared.types.Mailbox.{Mailbox};
ghost use Rattle.dv_model.specs.Effects.{with_update};
ghost use Rattle.dv_ext.specs.Changes.{Zeroes, rows_changed};
ghost use Rattle.dv_apply.specs.Alike.{IsAlike, IsWide};
ghost use Rattle.dv_rows.specs.Kept.{AreRows};

use dv_ext::{PartsChange, RowUpdates};
use dv_model::{Duplicate, List, NoMemory, Row};
use dv_rows::Rows;
use std::alloc::Global;

/// Zeroes the parts of each row that a reset zeroes, without memory.
pub fn zero_parts(rows: &mut Rows, change: PartsChange)
    requires { Zeroes change }
    ensures is { (m : Mailbox) → m.rows ≡ rows.old.rows →
        rows_changed change m ≡ record m { rows = rows.new.rows } }
    ensures alike { IsAlike rows.old.rows rows.new.rows }
    ensures room { rows.new.room ≡ rows.old.room }
{
    match change {
        PartsChange::Zeroed { place } => rows.clear_part(place),
        PartsChange::Same => {}
        PartsChange::Added { .. } => {}
        PartsChange::Grown { .. } => {}
    }
}

/// Writes the rows of a record update into the parts at a place.
pub fn write_parts(rows: &mut Rows, updates: &RowUpdates, place: u32)
    requires { All (IsWide place updates.now.size) rows.old.rows }
    ensures is { (m : Mailbox) → m.rows ≡ rows.old.rows
        → fold (with_update
        (record { extension = place; size = updates.now.size })) m updates.now.rows
        ≡ record m { rows = rows.new.rows } }
    ensures alike { IsAlike rows.old.rows rows.new.rows }
    ensures room { rows.new.room ≡ rows.old.room }
{
    for at in 0..updates.len() {
        let (uid, bytes) = updates.get(at);
        rows.set_part(uid, place, bytes);
    }
}

/// A list of equal rows.
pub fn listed(alloc: Global, rows: &Rows) -> Result<List<Row>, NoMemory>
    ensures is { IfOk result (λ made. made ≡ rows.now.rows) }
    ensures rows { AreRows rows.now.rows }
{
    let mut list = List::new(alloc);
    for k in 0..rows.count() {
        let row = rows.row(k).duplicate(alloc)?;
        list.push(row)?;
    }
    Ok(list)
}
