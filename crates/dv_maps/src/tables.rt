//! The rows of a map by the files that their texts stand in.

ghost use Rattle.std.specs.Prelude.{◌≡◌, List, IfOk, MatchBool};
ghost use Rattle.std.specs.List.Sorted.{IsNonDecreasingBy};
ghost use Rattle.dv_maps.specs.declared.mapped.Mapped.{Mapped};
ghost use Rattle.dv_maps.specs.Tables.{IsNamedBy, IsTableOf, all_listed, listed, listed_from, listed_of};

use crate::Mapped;
use dv_model::NoMemory;
use std::marker::Model;

/// An id, and the file that its text stands in.
#[derive(Clone, Copy, PartialEq, Eq, Debug)]
pub struct Listed {
    /// The number of the file.
    pub file: u32,
    /// The id.
    pub id: u32,
}

/// What a table has of a row.
pub fn list_row(row: Mapped) -> Listed
    ensures { result ≡ listed row }
{
    Listed {
        file: row.place.file,
        id: row.id,
    }
}

/// The rows of a map by rising file, those of a file in the map's order. Contracts see the list.
#[derive(Drop)]
pub struct FileTable {
    rows: Vec<Listed>,
}

impl Model for FileTable {
    ghost use Rattle.std.specs.Prelude.{List};
    ghost use Rattle.std.specs.List.Sorted.{IsNonDecreasingBy};
    ghost use Rattle.dv_maps.specs.declared.tables.Listed.{Listed};

    ghost Value = { List Listed };

    ghost view = { λ t. t.rows.items };

    ghost invariant = { λ t. IsNonDecreasingBy (λ row. row.file) t.rows.items };
}

/// The table of the rows of a map, in the map's order. The time is that of sorting them, and as
/// much memory is taken meanwhile as they have. `NoMemory` is the only error.
pub fn table_of(mut rows: Vec<Listed>) -> Result<FileTable, NoMemory>
    ensures { IfOk result (λ table. (rs : List Mapped) → rows.items ≡ all_listed rs →
        IsTableOf rs table) }
{
    rows.sort_by_key(|row| row.file)?;
    Ok(FileTable { rows })
}

impl FileTable {
    /// The rows of a file, found by halves.
    pub fn rows_of(&self, file: u32) -> &[Listed]
        ensures { result.now ≡ listed_of file self.now }
    {
        let rows = self.rows.as_slice();
        let (_, behind) = rows.split_at(rows.partition_point(|row| row.file < file));
        let (here, _) = behind.split_at(behind.partition_point(|row| row.file <= file));
        here
    }

    /// The rows of the files from a number on, by rising file; the first is found by halves.
    pub fn rows_from(&self, from: u64) -> &[Listed]
        ensures is { result.now ≡ listed_from from self.now }
        ensures rising { IsNonDecreasingBy (λ row. row.file) result.now }
    {
        let rows = self.rows.as_slice();
        let (_, behind) = rows.split_at(rows.partition_point(|row| u64::from(row.file) < from));
        behind
    }

    /// Whether a row names a file, found by halves.
    pub fn is_named(&self, file: u32) -> bool
        ensures { (rs : List Mapped) → IsTableOf rs self.now →
            MatchBool result (IsNamedBy rs file) (IsNamedBy rs file → ⊥) }
    {
        !self.rows_of(file).is_empty()
    }
}
