//! What a purge looks up by a table of the rows of a map by file.

ghost use Rattle.std.specs.Prelude.{◌≡◌, IfOk, IfSome, MatchOption, OnOk, Some};
ghost use Rattle.dv_model.specs.declared.types.Row.{Row};
ghost use Rattle.dv_maps.specs.Laws.{IsMap};
ghost use Rattle.dv_maps.specs.Purges.{all_mapped, mapped};
ghost use Rattle.dv_maps.specs.Tables.{IsTableFrom, IsTableOf, all_listed, listed_of, rows_in};
ghost use Rattle.dv_mdbox.specs.Gathering.{AddsRow, AreRowsOf};
ghost use Rattle.dv_mdbox.specs.Looks.{row_of};
ghost use Rattle.dv_mdbox.specs.Purging.{IsNextGone, NoneGoneFrom};

use crate::gathering::{FileRows, add_row, next_gone, rows_of};
use crate::looking::{reference_of, row_of};
use crate::tails::has_map;
use crate::writing::is_valid;
use dv_apply::Live;
use dv_maps::{FileTable, list_row, read_row, table_of};
use dv_model::NoMemory;
use std::alloc::Global;

/// The rows of a map by file, found in one walk of them. `NoMemory` is the only error.
pub(crate) fn file_table(alloc: Global, live: &Live) -> Result<FileTable, NoMemory>
    ensures { IfOk result (λ table. IsTableOf (all_mapped live.now.mailbox) table) }
{
    let extensions = live.extensions().list().as_slice();
    let mut rows = Vec::with_capacity(alloc, live.count() as usize)?;
    for k in 0..live.count() {
        let row = live.row(k);
        let mapped = read_row(extensions, row);
        rows.push(list_row(mapped))?;
    }
    table_of(rows)
}

/// The first file from a number on that has a row without references. Takes no memory.
pub(crate) fn next_listed(live: &Live, table: &FileTable, from: u64) -> Option<u32>
    requires { IsTableFrom from (all_mapped live.now.mailbox) table.now }
    ensures { MatchOption result (NoneGoneFrom live.now.mailbox from)
        (IsNextGone live.now.mailbox from) }
{
    is_valid(live);
    let rows = table.rows_from(from);
    for row in rows {
        if reference_of(live, row.id).is_none() {
            return Some(row.file);
        }
    }
    None
}

/// Adds the row of an id to those of a file.
fn add_listed(live: &Live, rows: &mut FileRows, file: u32, id: u32) -> Result<(), NoMemory>
    ensures { OnOk result ((row : Row) → row_of live.now.mailbox id ≡ Some row →
        AddsRow file (mapped live.now.mailbox row) rows.old rows.new) }
{
    let Some(row) = row_of(live, id) else {
        return Ok(());
    };
    let mapped = read_row(live.extensions().list().as_slice(), row);
    add_row(rows, file, mapped)
}

/// The rows of a file, each looked up by its id. `NoMemory` is the only error.
pub(crate) fn listed_rows(
    alloc: Global,
    live: &Live,
    table: &FileTable,
    file: u32,
) -> Result<FileRows, NoMemory>
    requires { listed_of file table.now ≡ all_listed (rows_in file (all_mapped live.now.mailbox)) }
    ensures { IfOk result (AreRowsOf live.now.mailbox file) }
{
    is_valid(live);
    let mut found = FileRows {
        kept: Vec::new(alloc),
        gone: Vec::new(alloc),
    };
    let rows = table.rows_of(file);
    for row in rows {
        add_listed(live, &mut found, file, row.id)?;
    }
    Ok(found)
}

/// The rows of a map by file, where the mailbox is a map and there is memory for them.
pub(crate) fn map_table(alloc: Global, live: &Live) -> Option<FileTable>
    ensures { IfSome result (λ table. IsMap live.now.mailbox
        × IsTableOf (all_mapped live.now.mailbox) table) }
{
    if !has_map(live) {
        return None;
    }
    match file_table(alloc, live) {
        Ok(table) => Some(table),
        Err(_) => None,
    }
}

/// The first file from a number on that has a row without references, by a table where there is
/// one. Takes no memory.
pub(crate) fn first_gone(live: &Live, table: &Option<FileTable>, from: u64) -> Option<u32>
    requires { IfSome table.now (λ t. IsTableFrom from (all_mapped live.now.mailbox) t) }
    ensures { MatchOption result (NoneGoneFrom live.now.mailbox from)
        (IsNextGone live.now.mailbox from) }
{
    match table {
        Some(table) => next_listed(live, table, from),
        None => next_gone(live, from),
    }
}

/// The rows of a file, by a table where there is one. `NoMemory` is the only error.
pub(crate) fn file_rows(
    alloc: Global,
    live: &Live,
    table: &Option<FileTable>,
    file: u32,
) -> Result<FileRows, NoMemory>
    requires { IfSome table.now (λ t. listed_of file t
        ≡ all_listed (rows_in file (all_mapped live.now.mailbox))) }
    ensures { IfOk result (AreRowsOf live.now.mailbox file) }
{
    match table {
        Some(table) => listed_rows(alloc, live, table, file),
        None => rows_of(alloc, live, file),
    }
}
