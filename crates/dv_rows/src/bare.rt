ghost use Rattle.std.specs.Prelude.{◌≡◌, [], All, OnErr, OnOk, map, true};
ghost use Rattle.dv_ext.specs.Sizes.{fitted, sizes_of};
ghost use Rattle.dv_model.specs.Effects.{with_row_parts};

use crate::parts::fitted;
use dv_model::{Extension, List, NoMemory, Row};
use std::alloc::Global;

/// Whether no row has a part.
pub fn are_bare(rows: &[Row]) -> bool
    ensures { result ≡ true → All (λ row. row.parts ≡ []) rows.now }
{
    rows.iter().all(|row| row.parts.is_empty())
}

fn strip_row(alloc: Global, row: &mut Row)
    ensures { row.new ≡ with_row_parts (λ parts. []) row.old }
{
    row.parts = List::new(alloc);
}

// Takes all parts away.
fn strip(alloc: Global, rows: &mut [Row])
    ensures { rows.new ≡ map (with_row_parts (λ parts. [])) rows.old }
{
    for row in rows.iter_mut() {
        strip_row(alloc, row);
    }
}

fn fit_row(alloc: Global, row: &mut Row, extensions: &[Extension]) -> Result<(), NoMemory>
    ensures ok { OnOk result (row.new
        ≡ with_row_parts (fitted (sizes_of extensions.now)) row.old) }
    ensures err { OnErr result (row.new ≡ row.old) }
{
    let parts = fitted(alloc, row.parts.as_slice(), extensions)?;
    row.parts = parts;
    Ok(())
}

// Gives each row a part for each extension. After `NoMemory` the rows differ in parts alone.
fn fit_rows(alloc: Global, rows: &mut [Row], extensions: &[Extension]) -> Result<(), NoMemory>
    ensures ok { OnOk result (rows.new
        ≡ map (with_row_parts (fitted (sizes_of extensions.now))) rows.old) }
    ensures err { OnErr result (map (with_row_parts (λ parts. [])) rows.new
        ≡ map (with_row_parts (λ parts. [])) rows.old) }
{
    for row in rows.iter_mut() {
        fit_row(alloc, row, extensions)?;
    }
    Ok(())
}

/// Gives each row, none of which has a part, a part of zero bytes for each extension, where it
/// stands: no list of new parts is made. After `NoMemory` the rows are as before.
pub fn fit_bare(alloc: Global, rows: &mut [Row], extensions: &[Extension]) -> Result<(), NoMemory>
    requires { All (λ row. row.parts ≡ []) rows.old }
    ensures ok { OnOk result (rows.new
        ≡ map (with_row_parts (fitted (sizes_of extensions.now))) rows.old) }
    ensures err { OnErr result (rows.new ≡ rows.old) }
{
    match fit_rows(alloc, rows, extensions) {
        Ok(()) => Ok(()),
        Err(e) => {
            strip(alloc, rows);
            Err(e)
        }
    }
}
