ghost use Rattle.std.specs.Prelude.{◌≡◌, ◌↔◌, All, IsTrue, length};
ghost use Rattle.dv_cache.specs.Caches.{HasFive};
ghost use Rattle.dv_cache.specs.declared.row.CacheRow.{CacheRow};

use crate::ends::no_other;
use dv_cache::{CacheRow, Known, find, write};
use dv_model::{Bytes, List, NoMemory};
use std::alloc::Global;
use std::test::Fail;

fn is_send<T: Send>() {}

fn rows_are_send() {
    is_send::<CacheRow>();
}

type Fields = [Option<&'static [u8]>; 5];

// A file of indexid 7 and sequence 9 without rows.
const EMPTY: &[u8] = b"dvca\x01\0\0\0\x07\0\0\0\x09\0\0\0\0\0\0\0\x20\0\0\0\0\0\0\0\0\0\0\0";

// One row, UID 5, of a message that can't be read.
const UNKNOWN: &[u8] =
    b"dvca\x01\0\0\0\x07\0\0\0\x09\0\0\0\x01\0\0\0\x30\0\0\0\0\0\0\0\0\0\0\0\x05\0\0\0\0\0\0\0\0\0\0\0\0\0\0\0";

// One row, UID 5, of a message with 300 bytes, or 310 with CRLF line ends, that has an empty To
// and no Subject.
const KNOWN: &[u8] =
    b"dvca\x01\0\0\0\x07\0\0\0\x09\0\0\0\x01\0\0\0\x4a\0\0\0\0\0\0\0\0\0\0\0\x05\0\0\0\x2c\x01\0\0\x36\x01\0\0\x30\0\0\0\x01\0\0\0d\x02\0\0\0ab\0\0\0\0\xff\xff\xff\xff\x03\0\0\0<1>";

const FIELDS: &Fields = &[Some(b"d"), Some(b"ab"), Some(b""), None, Some(b"<1>")];

// A message's row: its UID, its sizes and its fields, unless it can't be read.
#[derive(Clone, Copy)]
struct Given {
    uid: u32,
    sizes: (u32, u32),
    fields: Option<&'static Fields>,
}

const UNREADABLE: Given = Given {
    uid: 5,
    sizes: (0, 0),
    fields: None,
};

const READABLE: Given = Given {
    uid: 5,
    sizes: (300, 310),
    fields: Some(FIELDS),
};

// Rows with the file that is written of them, and the row that is found there first, of UID 5.
struct Case {
    rows: &'static [Given],
    file: &'static [u8],
    found: Option<Given>,
}

const CASES: [Case; 3] = [
    Case {
        rows: &[],
        file: EMPTY,
        found: None,
    },
    Case {
        rows: &[UNREADABLE],
        file: UNKNOWN,
        found: None,
    },
    Case {
        rows: &[READABLE],
        file: KNOWN,
        found: Some(READABLE),
    },
];

fn field_of(alloc: Global, value: Option<&[u8]>) -> Result<Option<Bytes>, NoMemory> {
    match value {
        Some(value) => Ok(Some(Bytes::from_slice(alloc, value)?)),
        None => Ok(None),
    }
}

fn fields_of(alloc: Global, values: &Fields) -> Result<List<Option<Bytes>>, NoMemory> {
    let mut fields = List::new(alloc);
    for value in values {
        fields.push(field_of(alloc, *value)?)?;
    }
    Ok(fields)
}

fn row_of(alloc: Global, given: &Given) -> Result<CacheRow, NoMemory> {
    let known = match given.fields {
        Some(values) => Some(Known {
            physical: given.sizes.0,
            virtual_size: given.sizes.1,
            fields: fields_of(alloc, values)?,
        }),
        None => None,
    };
    Ok(CacheRow {
        uid: given.uid,
        known,
    })
}

fn rows_of(alloc: Global, rows: &[Given]) -> Result<List<CacheRow>, NoMemory> {
    let mut list = List::new(alloc);
    for given in rows {
        list.push(row_of(alloc, given)?)?;
    }
    Ok(list)
}

fn is_value(field: &Option<Bytes>, value: Option<&[u8]>) -> bool {
    match (field, value) {
        (Some(field), Some(value)) => field.as_slice() == value,
        (None, None) => true,
        _ => false,
    }
}

fn are_fields(fields: &[Option<Bytes>], values: &Fields) -> bool {
    if fields.len() != 5 {
        return false;
    }
    for (field, value) in fields.iter().zip(values) {
        if !is_value(field, *value) {
            return false;
        }
    }
    true
}

// Whether the row has what was given of a message that can be read.
fn is_row(row: &CacheRow, given: &Given) -> bool {
    match (&row.known, given.fields) {
        (Some(known), Some(values)) => {
            (row.uid, (known.physical, known.virtual_size)) == (given.uid, given.sizes)
                && are_fields(known.fields.as_slice(), values)
        }
        _ => false,
    }
}

fn has_five(row: &CacheRow) -> bool
    ensures { IsTrue result ↔ HasFive row.now.known }
{
    match &row.known {
        Some(known) => known.fields.len() == 5,
        None => true,
    }
}

fn all_have_five(rows: &[CacheRow]) -> bool
    ensures { IsTrue result ↔ All (λ (row : CacheRow). HasFive row.known) rows.now }
{
    rows.iter().all(|row| has_five(row))
}

// The file of these rows, of indexid 7 and sequence 9. Rows that no file has count as want of
// memory, which no test expects.
fn written(alloc: Global, rows: &List<CacheRow>) -> Result<Bytes, NoMemory> {
    if !all_have_five(rows.as_slice()) || rows.len() > 8_388_608 {
        return Err(NoMemory);
    }
    write(alloc, 7, 9, rows)
}

fn file_of(alloc: Global, rows: &[Given]) -> Result<Bytes, NoMemory> {
    let rows = rows_of(alloc, rows)?;
    written(alloc, &rows)
}

fn has_file(alloc: Global, rows: &[Given], wanted: &[u8]) -> bool {
    match file_of(alloc, rows) {
        Ok(file) => file.as_slice() == wanted,
        Err(_) => false,
    }
}

// Whether the row of UID 5 that stands first in the file is this one; whether none is found, where
// none is given.
fn finds(alloc: Global, file: &[u8], given: &Option<Given>) -> bool {
    match (find(alloc, file, 7, 9, 5, 32), given) {
        (Ok(Some(row)), Some(given)) => is_row(&row, given),
        (Ok(None), None) => true,
        _ => false,
    }
}

fn first_other_file(alloc: Global, cases: &[Case]) -> Option<usize> {
    for (at, case) in cases.iter().enumerate() {
        if !has_file(alloc, case.rows, case.file) || !finds(alloc, case.file, &case.found) {
            return Some(at);
        }
    }
    None
}

#[test]
fn worked_files_both_ways(rt: HostRuntime) -> Result<(), Fail> {
    no_other(first_other_file(rt.alloc(), &CASES))
}

// A place, another byte there, and whether a row is found all the same.
type Damage = (usize, u8, bool);

const DAMAGES: [Damage; 5] = [
    // `dvca`
    (0, b'D', false),
    // the place of the fields: behind the end, far behind it
    (44, 75, false),
    (47, 0xff, false),
    // the last field is longer than what is left
    (67, 4, false),
    // the zero bytes of the header aren't looked at
    (24, 1, true),
];

// The file of one row with one byte changed.
fn damaged(alloc: Global, at: usize, byte: u8) -> Result<Bytes, NoMemory> {
    let mut file = Vec::from_slice(alloc, KNOWN)?;
    if at < file.len() {
        file[at] = byte;
    }
    Ok(List::from_vec(file))
}

fn is_found(alloc: Global, damage: &Damage) -> Result<bool, NoMemory> {
    let file = damaged(alloc, damage.0, damage.1)?;
    Ok(find(alloc, file.as_slice(), 7, 9, 5, 32)?.is_some())
}

fn first_other_damage(alloc: Global, damages: &[Damage]) -> Option<usize> {
    for (at, damage) in damages.iter().enumerate() {
        if is_found(alloc, damage) != Ok(damage.2) {
            return Some(at);
        }
    }
    None
}

#[test]
fn damaged_file_has_no_row(rt: HostRuntime) -> Result<(), Fail> {
    no_other(first_other_damage(rt.alloc(), &DAMAGES))
}
