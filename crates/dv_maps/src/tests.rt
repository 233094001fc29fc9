use crate::{FileTable, Listed, table_of};
use dv_model::NoMemory;
use std::alloc::Global;
use std::test::*;

// Rows as a map has them, by rising id.
const ROWS: [(u32, u32); 8] = [
    (3, 1),
    (1, 2),
    (3, 4),
    (4_294_967_295, 7),
    (2, 8),
    (1, 9),
    (3, 4_294_967_294),
    (1, 4_294_967_295),
];

// Files, and the ids of each.
const FILES: [(u32, &[u32]); 6] = [
    (0, &[]),
    (1, &[2, 9, 4_294_967_295]),
    (2, &[8]),
    (3, &[1, 4, 4_294_967_294]),
    (4, &[]),
    (4_294_967_295, &[7]),
];

// Numbers, and how many rows have a file from each on.
const FROM: [(u64, usize); 6] = [
    (0, 8),
    (2, 5),
    (3, 4),
    (4, 1),
    (4_294_967_295, 1),
    (4_294_967_296, 0),
];

fn table(alloc: Global, rows: &[(u32, u32)]) -> Result<FileTable, NoMemory> {
    let mut listed = Vec::new(alloc);
    for (file, id) in rows {
        let row = Listed {
            file: *file,
            id: *id,
        };
        listed.push(row)?;
    }
    table_of(listed)
}

fn has(table: &FileTable, file: u32, ids: &[u32]) -> bool {
    let rows = table.rows_of(file);
    rows.len() == ids.len()
        && rows
            .iter()
            .zip(ids)
            .all(|(row, id)| row.file == file && row.id == *id)
        && table.is_named(file) == !ids.is_empty()
}

#[test]
fn rows_stand_by_file_in_their_order(rt: HostRuntime) -> Result<(), Fail> {
    let full = table(rt.alloc(), &ROWS)?;
    let empty = table(rt.alloc(), &[])?;
    for (file, ids) in FILES {
        assert_eq!(rt; has(&full, file, ids), true);
        assert_eq!(rt; has(&empty, file, &[]), true);
    }
    for (from, count) in FROM {
        assert_eq!(rt; full.rows_from(from).len(), count);
        assert_eq!(rt; empty.rows_from(from).len(), 0);
    }
    Ok(())
}
