ghost use Rattle.std.specs.Prelude.{◌≡◌, IfOk, slice_get, unwrap_or, []};
ghost use Rattle.dv_model.specs.Views.{shown};
ghost use Rattle.dv_view.specs.Tells.{fetch_of, names_at};

use dv_keywords::Table;
use dv_model::{Bytes, Duplicate, List, NoMemory, Reply, Row, Shown, Value};
use std::alloc::Global;

/// A copy of a row as it is shown.
pub fn copy_of(alloc: Global, s: &Shown) -> Result<Shown, NoMemory>
    ensures { IfOk result (λ made. made ≡ s.now) }
{
    Ok(Shown {
        uid: s.uid,
        flags: s.flags,
        keywords: s.keywords.duplicate(alloc)?,
        modseq: s.modseq,
    })
}

/// What is shown of a row.
pub fn shown(alloc: Global, row: &Row) -> Result<Shown, NoMemory>
    ensures { IfOk result (λ made. made ≡ shown row.now) }
{
    Ok(Shown {
        uid: row.uid,
        flags: row.flags % 32,
        keywords: row.keywords.duplicate(alloc)?,
        modseq: row.modseq,
    })
}

// The name at a place of the table, or no bytes where it has none there.
fn name_at(alloc: Global, names: &Table, place: u32) -> Result<Bytes, NoMemory>
    ensures { IfOk result (λ name. name ≡ unwrap_or (slice_get names.now.names place) []) }
{
    if place < names.count() {
        return names.name(place).duplicate(alloc);
    }
    Ok(Bytes::new(alloc))
}

/// The names at these places of the table.
pub fn names_at(alloc: Global, names: &Table, places: &[u32]) -> Result<List<Bytes>, NoMemory>
    ensures { IfOk result (λ made. made ≡ names_at names.now.names places.now) }
{
    let mut made = List::new(alloc);
    for place in places {
        made.push(name_at(alloc, names, *place)?)?;
    }
    Ok(made)
}

/// The FETCH with UID and flags of a row of this number (RFC 3501, section 7.4.2).
pub fn fetch_of(alloc: Global, names: &Table, number: u32, s: &Shown) -> Result<Reply, NoMemory>
    ensures { IfOk result (λ told. told ≡ fetch_of names.now.names (number, s.now)) }
{
    let keywords = names_at(alloc, names, s.keywords.as_slice())?;
    let mut values = List::new(alloc);
    values.push(Value::Flags(s.flags, keywords))?;
    Ok(Reply::Fetch {
        number,
        uid: s.uid,
        values,
    })
}
