//! The records of a storage's groups.

ghost use Rattle.std.specs.Prelude.{◌≡◌, ◌++◌, ◌^◌, ◌<◌, IfOk, OnOk, flat_map, map};
ghost use Rattle.dv_model.specs.declared.types.Body.TheVariants as body;
ghost use Rattle.dv_model.specs.Sessions.{external_record, pieces, ranges_of as ranges};
ghost use Rattle.dv_maps.specs.Groups as groups;
ghost use Rattle.dv_maps.specs.Groups.{count_row, place_row};
ghost use Rattle.dv_maps.specs.Purges.{moved, size_of};

use dv_groups::{external, internal, next_piece, ranges_of};
use dv_maps::{Mapped, Place, Placed};
use dv_model::{Body, Bytes, Intro, List, NewRow, NoMemory, Record};
use std::alloc::Global;

/// Stands for the place of an extension that is named.
const NO_ID: u32 = 4_294_967_295;

/// An extension of so many bytes for each row, introduced by its name.
fn intro_of(alloc: Global, name: &[u8], size: u16, align: u16) -> Result<Record, NoMemory>
    ensures { IfOk result (λ r. r ≡ groups.intro_record name.now size align) }
{
    let intro = Intro {
        ext_id: NO_ID,
        reset_id: 0,
        hdr_size: 0,
        record_size: size,
        record_align: align,
        flags: 0,
        name: Bytes::from_slice(alloc, name)?,
    };
    let mut intros = List::new(alloc);
    intros.push(intro)?;
    Ok(internal(Body::ExtIntro(intros)))
}

/// A row of an update of places.
fn place_row(alloc: Global, id: u32, place: Place) -> Result<Bytes, NoMemory>
    ensures { IfOk result (λ b. b ≡ place_row (record { id = id; place = place })) }
{
    let mut bytes = Bytes::from_slice(alloc, &id.to_le_bytes())?;
    bytes.extend(&place.file.to_le_bytes())?;
    bytes.extend(&place.offset.to_le_bytes())?;
    bytes.extend(&place.size.to_le_bytes())?;
    Ok(bytes)
}

/// A row of an update of counts.
fn count_row(alloc: Global, id: u32, count: u16) -> Result<Bytes, NoMemory>
    ensures { IfOk result (λ b. b ≡ count_row id count) }
{
    let mut bytes = Bytes::from_slice(alloc, &id.to_le_bytes())?;
    bytes.extend(&count.to_le_bytes())?;
    bytes.extend(&[0, 0])?;
    Ok(bytes)
}

/// Adds the records that give an id this count.
fn add_count(alloc: Global, id: u32, count: u16, records: &mut List<Record>) -> Result<(), NoMemory>
    ensures { OnOk result (records.new ≡ records.old ++ groups.count_records id count) }
{
    records.push(intro_of(alloc, b"ref", 2, 2)?)?;
    let row = count_row(alloc, id, count)?;
    records.push(internal(Body::ExtRecordUpdate(row)))?;
    Ok(())
}

/// The records that give an id this count. `NoMemory` is the only error.
pub fn count_records(alloc: Global, id: u32, count: u16) -> Result<List<Record>, NoMemory>
    ensures { IfOk result (λ records. records ≡ groups.count_records id count) }
{
    let mut records = List::new(alloc);
    add_count(alloc, id, count, &mut records)?;
    Ok(records)
}

/// The records of a message that is saved under this id, whose text stands at this place.
/// `NoMemory` is the only error.
pub fn save_records(alloc: Global, id: u32, place: Place) -> Result<List<Record>, NoMemory>
    ensures { IfOk result (λ records. records ≡ groups.save_records id place) }
{
    let mut records = List::new(alloc);
    let rows = List::from_slice(alloc, &[NewRow { uid: id, flags: 0 }])?;
    records.push(external(Body::Append(rows)))?;
    records.push(intro_of(alloc, b"map", 12, 4)?)?;
    let row = place_row(alloc, id, place)?;
    records.push(internal(Body::ExtRecordUpdate(row)))?;
    add_count(alloc, id, 1, &mut records)?;
    Ok(records)
}

/// The new places of rows whose texts go into a new file, one behind another.
fn moved(alloc: Global, rows: &[Mapped], new: u32) -> Result<Vec<Placed>, NoMemory>
    requires { size_of rows.now < 2 ^ 32 }
    ensures { IfOk result (λ placed. placed.items ≡ moved new 0 rows.now) }
{
    let mut placed = Vec::new(alloc);
    let mut offset = 0;
    for row in rows {
        let size = row.place.size;
        let place = Place {
            file: new,
            offset,
            size,
        };
        placed.push(Placed { id: row.id, place })?;
        offset += size;
    }
    Ok(placed)
}

/// The rows of an update of places.
fn place_rows(alloc: Global, rows: &[Placed]) -> Result<Bytes, NoMemory>
    ensures { IfOk result (λ b. b ≡ flat_map place_row rows.now) }
{
    let mut bytes = Bytes::new(alloc);
    for row in rows {
        let one = place_row(alloc, row.id, row.place)?;
        bytes.extend(one.as_slice())?;
    }
    Ok(bytes)
}

/// Adds the records that give rows new places, where there are rows.
fn add_places(alloc: Global, rows: &[Placed], records: &mut List<Record>) -> Result<(), NoMemory>
    ensures { OnOk result (records.new ≡ records.old ++ groups.move_records rows.now) }
{
    if rows.is_empty() {
        return Ok(());
    }
    records.push(intro_of(alloc, b"map", 12, 4)?)?;
    let mut rest = rows;
    while let Some((piece, behind)) = next_piece(rest) {
        let bytes = place_rows(alloc, piece)?;
        records.push(internal(Body::ExtRecordUpdate(bytes)))?;
        rest = behind;
    }
    Ok(())
}

/// Adds the records that remove ids.
fn add_expunges(alloc: Global, ids: &[u32], records: &mut List<Record>) -> Result<(), NoMemory>
    ensures { OnOk result (records.new ≡ records.old
        ++ map (λ piece. external_record (body.Expunge piece)) (pieces (ranges ids.now))) }
{
    let pairs = ranges_of(alloc, ids)?;
    let mut rest = pairs.as_slice();
    while let Some((piece, behind)) = next_piece(rest) {
        let pairs = List::from_slice(alloc, piece)?;
        records.push(external(Body::Expunge(pairs)))?;
        rest = behind;
    }
    Ok(())
}

/// The records of the purge of a file: of the rows that it keeps, whose texts go one behind another
/// into a new file, and of the ids that are gone. `NoMemory` is the only error.
pub fn purge_records(
    alloc: Global,
    kept: &[Mapped],
    gone: &[u32],
    new: u32,
) -> Result<List<Record>, NoMemory>
    requires { size_of kept.now < 2 ^ 32 }
    ensures { IfOk result (λ records. records
        ≡ groups.purge_records (moved new 0 kept.now) gone.now) }
{
    let mut records = List::new(alloc);
    let placed = moved(alloc, kept, new)?;
    add_places(alloc, placed.as_slice(), &mut records)?;
    add_expunges(alloc, gone, &mut records)?;
    Ok(records)
}
