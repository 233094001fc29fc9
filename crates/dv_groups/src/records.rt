ghost use Rattle.std.specs.Prelude.{◌≡◌, ◌∷◌, ◌++◌, IfOk, OnOk, flat_map, map};
ghost use Rattle.dv_model.specs.declared.types.Body.TheVariants as body;
ghost use Rattle.dv_model.specs.Sessions.{external_record, flag_updates, internal_record, keyword_adds, keyword_resets, keyword_updates, pieces, store_records};
ghost use Rattle.dv_groups.specs.Changes.{append_of, change_of};

use crate::cutting::next_piece;
use dv_model::{
    Body, Bytes, Change, Duplicate, GuidRow, How, List, NewRow, NoMemory, Pair, Record,
};
use std::alloc::Global;

// Dovecot's `MAIL_TRANSACTION_EXTERNAL`, in the four highest bits of a record's type.
const EXTERNAL: u8 = 1;

/// A record that changes messages carries the external mark.
pub fn external(body: Body) -> Record
    ensures { result ≡ external_record body }
{
    Record {
        top: EXTERNAL,
        body,
    }
}

/// One about extensions and headers carries none.
pub fn internal(body: Body) -> Record
    ensures { result ≡ internal_record body }
{
    Record { top: 0, body }
}

fn changes_of(alloc: Global, add: u8, remove: u8, pairs: &[Pair]) -> Result<List<Change>, NoMemory>
    ensures { IfOk result (λ changes. changes ≡ map (change_of add remove) pairs.now) }
{
    let mut changes = List::new(alloc);
    for pair in pairs {
        changes.push(Change {
            first: pair.first,
            last: pair.last,
            add,
            remove,
        })?;
    }
    Ok(changes)
}

/// Adds the records that change the flags of the messages in these ranges: none where no flag is
/// named.
pub fn add_flag_updates(
    alloc: Global,
    add: u8,
    remove: u8,
    pairs: &[Pair],
    records: &mut List<Record>,
) -> Result<(), NoMemory>
    ensures { OnOk result (records.new ≡ records.old ++ flag_updates add remove pairs.now) }
{
    if add == 0 && remove == 0 {
        return Ok(());
    }
    let mut rest = pairs;
    while let Some((piece, behind)) = next_piece(rest) {
        let changes = changes_of(alloc, add, remove, piece)?;
        records.push(external(Body::FlagUpdate(changes)))?;
        rest = behind;
    }
    Ok(())
}

/// Adds the records after which the messages in these ranges have no keyword.
pub fn add_keyword_resets(
    alloc: Global,
    pairs: &[Pair],
    records: &mut List<Record>,
) -> Result<(), NoMemory>
    ensures { OnOk result (records.new ≡ records.old ++ keyword_resets pairs.now) }
{
    let mut rest = pairs;
    while let Some((piece, behind)) = next_piece(rest) {
        let ranges = List::from_slice(alloc, piece)?;
        records.push(external(Body::KeywordReset(ranges)))?;
        rest = behind;
    }
    Ok(())
}

/// Adds the records that change one keyword of the messages in these ranges.
pub fn add_keyword_update(
    alloc: Global,
    how: How,
    name: &Bytes,
    pairs: &[Pair],
    records: &mut List<Record>,
) -> Result<(), NoMemory>
    ensures { OnOk result (records.new ≡ records.old ++ keyword_updates how pairs.now name.now) }
{
    let mut rest = pairs;
    while let Some((piece, behind)) = next_piece(rest) {
        let update = Body::KeywordUpdate {
            how,
            name: name.duplicate(alloc)?,
            pairs: List::from_slice(alloc, piece)?,
        };
        records.push(external(update))?;
        rest = behind;
    }
    Ok(())
}

/// Adds the records that change keywords of the messages in these ranges, one keyword after
/// another.
pub fn add_keyword_updates(
    alloc: Global,
    how: How,
    names: &[Bytes],
    pairs: &[Pair],
    records: &mut List<Record>,
) -> Result<(), NoMemory>
    ensures { OnOk result (records.new
        ≡ records.old ++ flat_map (keyword_updates how pairs.now) names.now) }
{
    for name in names {
        add_keyword_update(alloc, how, name, pairs, records)?;
    }
    Ok(())
}

/// The records of a STORE over the messages in these ranges (RFC 3501, section 6.4.6). `NoMemory`
/// is the only error.
pub fn store_records(
    alloc: Global,
    how: How,
    flags: u8,
    names: &[Bytes],
    pairs: &[Pair],
) -> Result<List<Record>, NoMemory>
    ensures { IfOk result (λ records. records ≡ store_records how flags names.now pairs.now) }
{
    let mut records = List::new(alloc);
    match how {
        How::Add => {
            add_flag_updates(alloc, flags, 0, pairs, &mut records)?;
            add_keyword_updates(alloc, How::Add, names, pairs, &mut records)?;
        }
        How::Remove => {
            add_flag_updates(alloc, 0, flags, pairs, &mut records)?;
            add_keyword_updates(alloc, How::Remove, names, pairs, &mut records)?;
        }
        How::Replace => {
            add_flag_updates(alloc, flags, 31 - flags % 32, pairs, &mut records)?;
            add_keyword_resets(alloc, pairs, &mut records)?;
            add_keyword_updates(alloc, How::Add, names, pairs, &mut records)?;
        }
    }
    Ok(records)
}

/// The records of an APPEND that gives its message this UID: the row, and each keyword in turn.
/// `NoMemory` is the only error.
pub fn append_records(
    alloc: Global,
    uid: u32,
    flags: u8,
    names: &[Bytes],
) -> Result<List<Record>, NoMemory>
    ensures { IfOk result (λ records. records ≡ append_of uid flags ∷ keyword_adds uid names.now) }
{
    let mut records = List::new(alloc);
    let rows = List::from_slice(alloc, &[NewRow { uid, flags }])?;
    records.push(external(Body::Append(rows)))?;
    let pair = Pair {
        first: uid,
        last: uid,
    };
    for name in names {
        let update = Body::KeywordUpdate {
            how: How::Add,
            name: name.duplicate(alloc)?,
            pairs: List::from_slice(alloc, &[pair])?,
        };
        records.push(external(update))?;
    }
    Ok(records)
}

/// The records that remove messages, with their GUIDs. `NoMemory` is the only error.
pub fn expunge_records(alloc: Global, rows: &[GuidRow]) -> Result<List<Record>, NoMemory>
    ensures { IfOk result (λ records. records
        ≡ map (λ rows. external_record (body.ExpungeGuid rows)) (pieces rows.now)) }
{
    let mut records = List::new(alloc);
    let mut rest = rows;
    while let Some((piece, behind)) = next_piece(rest) {
        let rows = List::from_slice(alloc, piece)?;
        records.push(external(Body::ExpungeGuid(rows)))?;
        rest = behind;
    }
    Ok(records)
}
