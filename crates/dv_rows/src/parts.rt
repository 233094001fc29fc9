ghost use Rattle.std.specs.Prelude.{◌≡◌, ◌≤◌, [], All, IfOk, IfSome, OnErr, OnOk, get_or, length, map, nat_eq, slice_get, if◌then◌else◌, vec_capacity, vec_len};
ghost use Rattle.std.specs.List.{AllZip};
ghost use Rattle.dv_ext.specs.Sizes.{fitted, sizes_of};
ghost use Rattle.dv_model.specs.Effects.{grown_to, with_item, with_row_parts, zeroed};
ghost use Rattle.dv_rows.specs.Changed.{written_at_front};
ghost use Rattle.dv_rows.specs.Kept.{AreRows};

use crate::bare::{are_bare, fit_bare};
use crate::places::place_of;
use crate::replacing::put_each;
use dv_model::{Bytes, Duplicate, Extension, List, NoMemory, Row};
use std::alloc::Global;
use std::mem;

/// The list's vector, in whose place an empty list is left.
pub fn taken<T: Drop>(alloc: Global, list: &mut List<T>) -> Vec<T>
    ensures items { result.items ≡ list.old }
    ensures left { list.new ≡ [] }
{
    mem::replace(list, List::new(alloc)).into_vec()
}

// ---- parts of other sizes

fn grow(alloc: Global, part: &mut Bytes, size: u16) -> Result<(), NoMemory>
    ensures { OnOk result (part.new ≡ grown_to size part.old) }
{
    let missing = usize::from(size).saturating_sub(part.len());
    let added = vec![in alloc; 0; missing]?;
    part.extend(&added)?;
    Ok(())
}

fn copied_part(alloc: Global, parts: &[Bytes], at: usize) -> Result<Bytes, NoMemory>
    ensures { IfOk result (λ made. made ≡ get_or parts.now at []) }
{
    if at < parts.len() {
        parts[at].duplicate(alloc)
    } else {
        Ok(List::new(alloc))
    }
}

fn fitted_part(alloc: Global, parts: &[Bytes], at: usize, size: u16) -> Result<Bytes, NoMemory>
    ensures { IfOk result (λ made. made ≡ grown_to size (get_or parts.now at [])) }
{
    let mut part = copied_part(alloc, parts, at)?;
    grow(alloc, &mut part, size)?;
    Ok(part)
}

/// These parts, filled up with zero bytes to the extensions' sizes, a part for each.
pub fn fitted(
    alloc: Global,
    parts: &[Bytes],
    extensions: &[Extension],
) -> Result<List<Bytes>, NoMemory>
    ensures { IfOk result (λ made. made ≡ fitted (sizes_of extensions.now) parts.now) }
{
    let mut made = List::from_vec(Vec::with_capacity(alloc, extensions.len())?);
    for at in 0..extensions.len() {
        let part = fitted_part(alloc, parts, at, extensions[at].record_size)?;
        made.push(part)?;
    }
    Ok(made)
}

fn plan_fitted(
    alloc: Global,
    rows: &[Row],
    extensions: &[Extension],
) -> Result<Vec<List<Bytes>>, NoMemory>
    ensures { IfOk result
        (λ plan. AllZip (λ row parts. parts
        ≡ fitted (sizes_of extensions.now) row.parts) rows.now plan.items) }
{
    let mut plan = Vec::with_capacity(alloc, rows.len())?;
    for row in rows {
        plan.push(fitted(alloc, row.parts.as_slice(), extensions)?)?;
    }
    Ok(plan)
}

// Gives each row parts that are all made before the first is put into its row.
fn fit_by_plan(alloc: Global, rows: &mut Vec<Row>, extensions: &[Extension]) -> Result<(), NoMemory>
    ensures ok { OnOk result (rows.new.items
        ≡ map (with_row_parts (fitted (sizes_of extensions.now))) rows.old.items) }
    ensures err { OnErr result (rows.new.items ≡ rows.old.items) }
    ensures len { vec_len rows.new ≡ vec_len rows.old }
    ensures capacity { vec_capacity rows.new ≡ vec_capacity rows.old }
{
    let plan = plan_fitted(alloc, rows, extensions)?;
    put_each(rows.as_mut_slice(), plan, 0);
    Ok(())
}

/// Gives each row a part for each extension, filled up with zero bytes to its size. After
/// `NoMemory` they are as before.
pub fn fit_parts(
    alloc: Global,
    rows: &mut Vec<Row>,
    extensions: &[Extension],
) -> Result<(), NoMemory>
    ensures ok { OnOk result (rows.new.items
        ≡ map (with_row_parts (fitted (sizes_of extensions.now))) rows.old.items) }
    ensures err { OnErr result (rows.new.items ≡ rows.old.items) }
    ensures len { vec_len rows.new ≡ vec_len rows.old }
    ensures capacity { vec_capacity rows.new ≡ vec_capacity rows.old }
{
    if are_bare(rows) {
        return fit_bare(alloc, rows.as_mut_slice(), extensions);
    }
    fit_by_plan(alloc, rows, extensions)
}

// ---- a part of zero bytes

fn zero(alloc: Global, part: &mut Bytes)
    ensures { part.new ≡ zeroed part.old }
{
    let mut bytes = taken(alloc, part);
    bytes.fill(0);
    *part = List::from_vec(bytes);
}

fn zero_at(alloc: Global, parts: &mut [Bytes], place: usize)
    ensures { parts.new ≡ with_item place zeroed parts.old }
{
    if place >= parts.len() {
        return;
    }
    zero(alloc, &mut parts[place]);
}

fn zero_in(alloc: Global, row: &mut Row, place: u32)
    ensures { row.new ≡ with_row_parts (with_item place zeroed) row.old }
{
    let mut parts = taken(alloc, &mut row.parts);
    zero_at(alloc, &mut parts, place as usize);
    row.parts = List::from_vec(parts);
}

fn zero_rows(alloc: Global, rows: &mut [Row], place: u32)
    ensures { rows.new ≡ map (with_row_parts (with_item place zeroed)) rows.old }
{
    for row in rows.iter_mut() {
        zero_in(alloc, row, place);
    }
}

/// Sets the part at a place of each row to zero bytes.
pub fn clear_part(alloc: Global, rows: &mut Vec<Row>, place: u32)
    ensures items { rows.new.items ≡ map (with_row_parts (with_item place zeroed)) rows.old.items }
    ensures len { vec_len rows.new ≡ vec_len rows.old }
    ensures capacity { vec_capacity rows.new ≡ vec_capacity rows.old }
{
    zero_rows(alloc, rows.as_mut_slice(), place);
}

// ---- the part of one row

fn write_front(part: &mut [u8], bytes: &[u8])
    requires { length bytes.now ≤ length part.old }
    ensures { part.new ≡ written_at_front bytes.now part.old }
{
    part[..bytes.len()].copy_from_slice(bytes);
}

fn write(alloc: Global, part: &mut Bytes, bytes: &[u8])
    requires { length bytes.now ≤ length part.old }
    ensures { part.new ≡ written_at_front bytes.now part.old }
{
    let mut all = taken(alloc, part);
    write_front(&mut all, bytes);
    *part = List::from_vec(all);
}

fn write_at(alloc: Global, parts: &mut [Bytes], place: usize, bytes: &[u8])
    requires { IfSome (slice_get parts.old place) (λ part. length bytes.now ≤ length part) }
    ensures { parts.new ≡ with_item place (written_at_front bytes.now) parts.old }
{
    if place >= parts.len() {
        return;
    }
    write(alloc, &mut parts[place], bytes);
}

fn write_in(alloc: Global, row: &mut Row, place: u32, bytes: &[u8])
    requires { IfSome (slice_get row.old.parts place) (λ part. length bytes.now ≤ length part) }
    ensures { row.new ≡ with_row_parts (with_item place (written_at_front bytes.now)) row.old }
{
    let mut parts = taken(alloc, &mut row.parts);
    write_at(alloc, &mut parts, place as usize, bytes);
    row.parts = List::from_vec(parts);
}

fn set_in(alloc: Global, rows: &mut [Row], uid: u32, place: u32, bytes: &[u8])
    requires rows { AreRows rows.old }
    requires fits { All
        (λ row. IfSome (slice_get row.parts place)
        (λ part. length bytes.now ≤ length part)) rows.old }
    ensures { rows.new
        ≡ map (λ row. if nat_eq uid row.uid then with_row_parts
        (with_item place (written_at_front bytes.now)) row else row) rows.old }
{
    let Some(at) = place_of(rows, uid) else {
        return;
    };
    write_in(alloc, &mut rows[at], place, bytes);
}

/// Writes these bytes over the first ones of the part at a place of the row with this UID.
pub fn set_part(alloc: Global, rows: &mut Vec<Row>, uid: u32, place: u32, bytes: &[u8])
    requires rows { AreRows rows.old.items }
    requires fits { All
        (λ row. IfSome (slice_get row.parts place)
        (λ part. length bytes.now ≤ length part)) rows.old.items }
    ensures items { rows.new.items
        ≡ map (λ row. if nat_eq uid row.uid then with_row_parts
        (with_item place (written_at_front bytes.now)) row else row) rows.old.items }
    ensures len { vec_len rows.new ≡ vec_len rows.old }
    ensures capacity { vec_capacity rows.new ≡ vec_capacity rows.old }
{
    set_in(alloc, rows.as_mut_slice(), uid, place, bytes);
}
