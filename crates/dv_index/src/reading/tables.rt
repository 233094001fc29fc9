ghost use Rattle.std.specs.Prelude.{◌≡◌, ◌≤◌, ◌++◌, ℕ, AllPairs, All, List, flat_map, length, IfOk};
ghost use Rattle.dv_model.specs.declared.types.Extension.{Extension};
ghost use Rattle.dv_formats.specs.SnapshotFaults.{AreTables};
ghost use Rattle.dv_index.specs.Reading.{AreNames, OnCheck};

use super::extensions::{are_extensions, read_extensions};
use super::failed;
use crate::fault::IndexEnd;
use dv_keywords::{Table, TableEnd};
use dv_model::{Bytes, Extension, List};
use dv_num::u32_at;
use std::alloc::Global;

// The keywords whose text begins these bytes, so many, and what follows it.
fn read_names(alloc: Global, count: u32, b: &[u8]) -> Result<(List<Bytes>, &[u8]), IndexEnd>
    ensures found { IfOk result (λ x. AreNames count x.0 x.1.now b.now) }
    ensures check { OnCheck result 2
        ((names : List (List ℕ)) (rest : List ℕ) → AreNames count names rest b.now → ⊥) }
{
    match Table::from_bytes(alloc, b, count) {
        Ok((table, size)) => {
            let (_, rest) = b.split_at(size);
            Ok((table.into_list(), rest))
        }
        Err(TableEnd::Bad) => Err(failed(2)),
        Err(TableEnd::NoMemory) => Err(IndexEnd::NoMemory),
    }
}

/// The keywords and the extensions.
pub fn read_tables(alloc: Global, b: &[u8]) -> Result<(List<Bytes>, List<Extension>), IndexEnd>
    requires { 120 ≤ length b.now }
    ensures found { IfOk result (λ x. AreTables x.0 x.1 b.now) }
    ensures check { OnCheck result 2
        ((names : List (List ℕ)) (es : List Extension) → AreTables names es b.now → ⊥) }
{
    let size = u32_at(b, 4) as usize;
    let count = u32_at(b, 48);
    if size < 120 || b.len() < size || count > 16 {
        return Err(failed(2));
    }
    let (front, _) = b.split_at(size);
    let (_, tables) = front.split_at(120);
    let (names, rest) = read_names(alloc, u32_at(b, 44), tables)?;
    let extensions = read_extensions(alloc, count, rest)?;
    if !are_extensions(extensions.as_slice()) {
        return Err(failed(2));
    }
    Ok((names, extensions))
}
