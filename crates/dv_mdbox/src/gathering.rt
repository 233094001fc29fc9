//! What a purge finds in the rows of a map and in a file.

ghost use Rattle.std.specs.Prelude.{◌≡◌, ◌^◌, ◌<◌, ◌≤◌, IfOk, IfSome, MatchOption, OnOk, Some, length};
ghost use Rattle.std.specs.Option.{option_copied};
ghost use Rattle.dv_model.specs.declared.types.Mailbox.{Mailbox};
ghost use Rattle.dv_maps.specs.Purges.{all_mapped, size_of};
ghost use Rattle.dv_maps.specs.Tables.{IsTableOf};
ghost use Rattle.dv_chain.specs.Openings.{OnlyLooks};
ghost use Rattle.dv_shelf.specs.Causes.{HasCauseOf};
ghost use Rattle.dv_shelf.specs.declared.shelf.Name.TheVariants as name;
ghost use Rattle.dv_mdbox.specs.Gathering.{AddsRow, AreOrphans, AreRowsOf, Gathers, GathersFrom, IsLess};
ghost use Rattle.dv_mdbox.specs.Purging.{IsNextGone, NoneGoneFrom};

use crate::Got;
use crate::listing::file_table;
use crate::looking::{bytes_at, message_of};
use crate::tails::number_of;
use dv_apply::Live;
use dv_maps::{FileTable, Mapped, read_row};
use dv_model::{Bytes, NoMemory};
use dv_shelf::{Name, Shelf, ShelfFault};
use std::alloc::Global;

/// The message files of a listing that no row of a table names. `NoMemory` is the only error.
fn unnamed(alloc: Global, table: &FileTable, names: &[Name]) -> Result<Vec<u32>, NoMemory>
    ensures { IfOk result (λ files. (m : Mailbox) → IsTableOf (all_mapped m) table.now →
        AreOrphans m names.now files.items) }
{
    let mut files = Vec::new(alloc);
    for name in names {
        if let Some(file) = number_of(*name) {
            if !table.is_named(file) {
                files.push(file)?;
            }
        }
    }
    Ok(files)
}

/// The message files of a listing that no row names. `NoMemory` is the only error.
pub(crate) fn orphans(alloc: Global, live: &Live, names: &[Name]) -> Result<Vec<u32>, NoMemory>
    ensures { IfOk result (λ files. AreOrphans live.now.mailbox names.now files.items) }
{
    let table = file_table(alloc, live)?;
    unnamed(alloc, &table, names)
}

/// The lesser of a number and that of a row without references, from a number on.
fn lesser(least: Option<u32>, row: Mapped, from: u64) -> Option<u32>
    ensures { IsLess from least row result }
{
    let file = row.place.file;
    if row.count > 0 || u64::from(file) < from {
        return least;
    }
    match least {
        Some(other) => Some(other.min(file)),
        None => Some(file),
    }
}

/// The first file from a number on that has a row without references. Takes no memory, and time by
/// the rows.
pub(crate) fn next_gone(live: &Live, from: u64) -> Option<u32>
    ensures { MatchOption result (NoneGoneFrom live.now.mailbox from)
        (IsNextGone live.now.mailbox from) }
{
    let extensions = live.extensions().list().as_slice();
    let mut least = None;
    for k in 0..live.count() {
        let row = live.row(k);
        let mapped = read_row(extensions, row);
        least = lesser(least, mapped, from);
    }
    least
}

/// The rows of a file: those that have references, and the ids of the others.
#[derive(Drop)]
pub(crate) struct FileRows {
    pub(crate) kept: Vec<Mapped>,
    pub(crate) gone: Vec<u32>,
}

/// Adds a row to those of a file, where it is one.
pub(crate) fn add_row(rows: &mut FileRows, file: u32, row: Mapped) -> Result<(), NoMemory>
    ensures { OnOk result (AddsRow file row rows.old rows.new) }
{
    let here = row.place.file == file;
    if !here {
        return Ok(());
    }
    if row.count > 0 {
        rows.kept.push(row)?;
    } else {
        rows.gone.push(row.id)?;
    }
    Ok(())
}

/// The rows of a file. `NoMemory` is the only error.
pub(crate) fn rows_of(alloc: Global, live: &Live, file: u32) -> Result<FileRows, NoMemory>
    ensures { IfOk result (AreRowsOf live.now.mailbox file) }
{
    let extensions = live.extensions().list().as_slice();
    let mut rows = FileRows {
        kept: Vec::new(alloc),
        gone: Vec::new(alloc),
    };
    for k in 0..live.count() {
        let row = live.row(k);
        let mapped = read_row(extensions, row);
        add_row(&mut rows, file, mapped)?;
    }
    Ok(rows)
}

/// The bytes at a row's place, where they are one whole text.
fn whole_text(alloc: Global, bytes: &[u8], row: Mapped) -> Result<Option<&[u8]>, NoMemory>
    ensures { IfOk result (λ found. GathersFrom bytes.now row.place (option_copied found)) }
{
    let Some(text) = bytes_at(bytes, row.place) else {
        return Ok(None);
    };
    match message_of(alloc, text)? {
        Got::Held(_) => Ok(Some(text)),
        Got::Damaged => Ok(None),
    }
}

/// The texts of these rows one behind another; none where one of them is damaged, or where they
/// have 4 GiB or more. `NoMemory` is the only error.
fn gather(alloc: Global, bytes: &[u8], rows: &[Mapped]) -> Result<Option<Bytes>, NoMemory>
    ensures { IfOk result (Gathers (Some bytes.now) rows.now) }
{
    let mut all = Bytes::new(alloc);
    let mut size: u32 = 0;
    for row in rows {
        let Some(end) = size.checked_add(row.place.size) else {
            return Ok(None);
        };
        match whole_text(alloc, bytes, *row)? {
            Some(text) => all.extend(text)?,
            None => return Ok(None),
        }
        size = end;
    }
    Ok(Some(all))
}

/// The texts of these rows of a file one behind another; none where one of them is damaged, or
/// where they have 4 GiB or more. Reads the file once.
pub(crate) fn read_kept<S: Shelf>(
    alloc: Global,
    shelf: &mut S,
    file: u32,
    rows: &[Mapped],
) -> Result<Option<Bytes>, ShelfFault>
    requires { 1 ≤ length rows.now }
    ensures found { S.sees.tells →
        IfOk result (Gathers (S.sees.files shelf.old (name.Mail file)) rows.now) }
    ensures short { IfOk result (λ found. IfSome found (λ texts. size_of rows.now < 2 ^ 32)) }
    ensures looks { S.sees.tells → OnlyLooks S.sees shelf.old shelf.new }
    ensures cause { HasCauseOf ShelfFault.Failed
        (S.sees.fault_count shelf.old) (S.sees.fault_count shelf.new) result }
{
    match shelf.read(alloc, Name::Mail(file))? {
        Some(bytes) => match gather(alloc, bytes.as_slice(), rows) {
            Ok(texts) => Ok(texts),
            Err(_) => Err(ShelfFault::NoMemory),
        },
        None => Ok(None),
    }
}
