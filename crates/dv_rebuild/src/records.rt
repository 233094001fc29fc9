//! The records of the new log.

ghost use Rattle.std.specs.Prelude.{◌≡◌, ◌++◌, ◌∷◌, [], All, IfOk, OnOk, fold, map, max, ◌+◌, ◌^◌, ◌<◌, if◌then◌else◌};
ghost use Rattle.dv_model.specs.declared.types.Body.TheVariants as body;
ghost use Rattle.dv_model.specs.Mailboxes.{IsValid};
ghost use Rattle.dv_model.specs.Sessions.{external_record, pieces};
ghost use Rattle.dv_model.specs.Spelling.{IsRecord, IsUid};
ghost use Rattle.dv_openings.specs.Salvages.{header_record, kept_row, rebuilt_records};
ghost use Rattle.dv_rebuild.specs.Plans.{HasLogNumbers};
ghost use Rattle.dv_rebuild.specs.Walks.{salvaged_of};

use crate::keywords::add_keywords;
use crate::salvage::Salvage;
use dv_apply::Live;
use dv_groups::{external, internal, next_piece};
use dv_model::{Body, List, NewRow, NoMemory, Part, Record};
use std::alloc::Global;

/// The places of the UIDVALIDITY and the UIDNEXT in the header (Dovecot's `mail_index_header`).
const VALIDITY_AT: u16 = 24;

const NEXT_UID_AT: u16 = 28;

/// The header update that gives a number its value.
fn header_record(alloc: Global, offset: u16, n: u32) -> Result<Record, NoMemory>
    ensures { IfOk result (λ r. r ≡ header_record offset n) }
{
    let mut parts = List::new(alloc);
    parts.push(Part {
        offset,
        bytes: List::from_slice(alloc, &n.to_le_bytes())?,
    })?;
    Ok(internal(Body::HeaderUpdate(parts)))
}

/// A kept message, with its salvaged flags.
fn kept_row(live: &Live, uid: u32) -> NewRow
    ensures { result ≡ kept_row live.now.mailbox uid }
{
    match live.position(uid) {
        Some(at) => NewRow {
            uid,
            flags: live.row(at).flags,
        },
        None => NewRow { uid, flags: 0 },
    }
}

/// The kept messages.
fn kept_rows(alloc: Global, live: &Live, kept: &[u32]) -> Result<List<NewRow>, NoMemory>
    ensures { IfOk result (λ rows. rows ≡ map (kept_row live.now.mailbox) kept.now) }
{
    let mut rows = List::new(alloc);
    for uid in kept {
        rows.push(kept_row(live, *uid))?;
    }
    Ok(rows)
}

/// Adds the records that append these messages.
fn add_appends(alloc: Global, rows: &[NewRow], records: &mut List<Record>) -> Result<(), NoMemory>
    ensures { OnOk result (records.new ≡ records.old
        ++ map (λ rows. external_record (body.Append rows)) (pieces rows.now)) }
{
    let mut rest = rows;
    while let Some((piece, behind)) = next_piece(rest) {
        let body = Body::Append(List::from_slice(alloc, piece)?);
        records.push(external(body))?;
        rest = behind;
    }
    Ok(())
}

/// The UIDNEXT: the salvaged one, or that behind the last kept UID where it is larger.
fn next_uid(live: &Live, kept: &[u32]) -> u32
    requires { All IsUid kept.now }
    ensures is { result
        ≡ fold (λ next uid. max next (uid + 1)) live.now.mailbox.next_uid kept.now }
    ensures valid { IsValid live.now.mailbox }
{
    let mut next = live.next_uid();
    for uid in kept {
        next = next.max(*uid + 1);
    }
    next
}

/// The UIDVALIDITY: the salvaged one where it was given, else this number.
fn uid_validity(salvage: &Salvage, n: u32) -> u32
    ensures is { result
        ≡ (if salvage.now.given then salvage.now.live.mailbox.uid_validity else n) }
    ensures small { salvage.now.live.mailbox.uid_validity < 2 ^ 32 }
{
    let salvaged = salvage.live.uid_validity();
    if salvage.given { salvaged } else { n }
}

/// The records of the new log, from what is salvaged, the UIDs that are kept, rising, and a
/// UIDVALIDITY where none was given. `NoMemory` is the only error.
pub fn rebuilt_records(
    alloc: Global,
    salvage: &Salvage,
    kept: &[u32],
    n: u32,
) -> Result<List<Record>, NoMemory>
    requires { All IsUid kept.now }
    ensures is { IfOk result (λ records. records
        ≡ rebuilt_records (salvaged_of salvage.now) kept.now n) }
    ensures valid { IfOk result (All IsRecord) }
    ensures left { HasLogNumbers salvage.now.live.mailbox }
{
    let next = next_uid(&salvage.live, kept);
    let validity = uid_validity(salvage, n);
    let rows = kept_rows(alloc, &salvage.live, kept)?;
    let mut records = List::new(alloc);
    records.push(header_record(alloc, VALIDITY_AT, validity)?)?;
    add_appends(alloc, rows.as_slice(), &mut records)?;
    add_keywords(alloc, &salvage.live, kept, &mut records)?;
    records.push(header_record(alloc, NEXT_UID_AT, next)?)?;
    Ok(records)
}
