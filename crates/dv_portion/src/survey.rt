ghost use Rattle.std.specs.Prelude.{◌≡◌, ℕ, true, false, All, Contains, IfOk, OnOk, length};
ghost use Rattle.std.specs.Int.{w32, from_le_bytes};
ghost use Rattle.std.specs.List.{list_any};
ghost use Rattle.dv_model.specs.declared.types.Body.TheVariants.{ExtRecordUpdate};
ghost use Rattle.dv_model.specs.declared.types.Mailbox.{Mailbox};
ghost use Rattle.dv_model.specs.Mailboxes.{IsValid};
ghost use Rattle.dv_ext.specs.Tables.{Table};
ghost use Rattle.dv_portion.specs.Surveys.{Adds, AreAllNamed, AreNamed, LeavesParts, MovesOn, seen};
ghost use Rattle.dv_portion.specs.Portions.{is_in_updates, table_of};
ghost use Rattle.dv_rows.specs.Parted.{HasUid};
ghost use Rattle.dv_validity.specs.Laws.{IsInRange};
ghost use Rattle.std.specs.Prelude.{Some};

use crate::{name_changed, name_pairs};
use dv_ext::{Extensions, RowUpdates};
use dv_model::{Body, Current, Duplicate, NoMemory, Pair, Record};
use dv_rows::Rows;
use std::alloc::Global;

// Adds the UIDs of all rows.
fn name_all(rows: &Rows, uids: &mut Vec<u32>) -> Result<(), NoMemory>
    ensures named { OnOk result ((uid : ℕ) →
        HasUid rows.now.rows uid → Contains uids.new.items uid) }
    ensures adds { Adds rows.now.rows uids.old.items uids.new.items }
{
    if rows.count() == 0 {
        return Ok(());
    }
    let all = [Pair {
        first: 0,
        last: u32::MAX,
    }];
    rows.name_uids(&all, uids)
}

// Adds the UIDs of the rows that an update of an extension's rows has.
fn name_updates(rows: &Rows, updates: &RowUpdates, uids: &mut Vec<u32>) -> Result<(), NoMemory>
    ensures named { OnOk result ((uid : ℕ) → HasUid rows.now.rows uid →
        is_in_updates (Some updates.now) uid ≡ true → Contains uids.new.items uid) }
    ensures adds { Adds rows.now.rows uids.old.items uids.new.items }
{
    for at in 0..updates.len() {
        let (uid, _) = updates.get(at);
        rows.name_uids(&[uid], uids)?;
    }
    Ok(())
}

// Adds those that a record update of the current extension has.
fn name_updated(
    rows: &Rows,
    current: Option<Current>,
    bytes: &[u8],
    uids: &mut Vec<u32>,
) -> Result<(), NoMemory>
    ensures named { OnOk result ((t : Table) → t.current ≡ current →
        AreNamed t (ExtRecordUpdate bytes.now) rows.now.rows uids.new.items) }
    ensures adds { Adds rows.now.rows uids.old.items uids.new.items }
{
    let Some(current) = current else {
        return Ok(());
    };
    let Some(updates) = RowUpdates::new(current.size, bytes) else {
        return Ok(());
    };
    name_updates(rows, &updates, uids)
}

// Adds the UIDs of the rows that a record with this body may change, where this extension is
// current before it, and it is known or not that introductions leave each row's parts.
fn name_rows(
    alloc: Global,
    rows: &Rows,
    current: Option<Current>,
    stay: bool,
    body: &Body,
    uids: &mut Vec<u32>,
) -> Result<(), NoMemory>
    ensures named { OnOk result ((t : Table) → t.current ≡ current → LeavesParts stay t body.now →
        AreNamed t body.now rows.now.rows uids.new.items) }
    ensures adds { Adds rows.now.rows uids.old.items uids.new.items }
{
    match body {
        Body::Expunge(pairs) => name_pairs(alloc, rows, pairs.as_slice(), uids),
        Body::ExpungeGuid(named) => rows.name_uids(named.as_slice(), uids),
        Body::FlagUpdate(changes) => name_changed(alloc, rows, changes.as_slice(), uids),
        Body::KeywordUpdate { pairs, .. } => name_pairs(alloc, rows, pairs.as_slice(), uids),
        Body::KeywordReset(pairs) => name_pairs(alloc, rows, pairs.as_slice(), uids),
        Body::ExtIntro(_) => {
            if stay {
                return Ok(());
            }
            name_all(rows, uids)
        }
        Body::ExtReset { preserve: 0, .. } => name_all(rows, uids),
        Body::ExtRecordUpdate(bytes) => name_updated(rows, current, bytes.as_slice(), uids),
        _ => Ok(()),
    }
}

// Does to the extensions what a record with this body does. The answer is whether introductions
// are known to leave each row's parts.
fn move_on(extensions: &mut Extensions, body: &Body) -> Result<bool, NoMemory>
    ensures moves { OnOk result (MovesOn extensions.old body.now extensions.new) }
    ensures parts { IfOk result (λ stay. LeavesParts stay extensions.old body.now) }
{
    match body {
        Body::ExtIntro(intros) => extensions.intro_all(intros.as_slice()),
        Body::ExtReset { reset_id, preserve } => {
            extensions.reset(*reset_id, *preserve);
            Ok(true)
        }
        Body::ExtHeaderUpdate(parts) => {
            extensions.header(parts);
            Ok(true)
        }
        _ => Ok(true),
    }
}

// Whether a record with this body leaves the extensions and which of them is current.
fn leaves_table(extensions: &Extensions, body: &Body) -> bool
    ensures { result ≡ true → MovesOn extensions.now body.now extensions.now }
{
    match body {
        Body::ExtIntro(_) => false,
        Body::ExtReset { .. } => extensions.current().is_none(),
        Body::ExtHeaderUpdate(_) => extensions.current().is_none(),
        _ => true,
    }
}

// Whether a record with this body is no introduction that changes extensions.
fn leaves_parts(extensions: &Extensions, body: &Body) -> bool
    ensures { LeavesParts result extensions.now body.now }
{
    match body {
        Body::ExtIntro(intros) => extensions.are_quiet(intros.as_slice()),
        _ => true,
    }
}

// Does to a copy of the extensions, if one is needed, what a record with this body does to them;
// behind the last record none is. The answer is whether introductions are known to leave each row's
// parts.
fn move_first(
    alloc: Global,
    extensions: &Extensions,
    body: &Body,
    last: bool,
) -> Result<(Option<Extensions>, bool), NoMemory>
    ensures moves { IfOk result (λ made. last ≡ false →
        MovesOn extensions.now body.now (seen extensions.now made.0)) }
    ensures parts { IfOk result (λ made. LeavesParts made.1 extensions.now body.now) }
{
    let stay = leaves_parts(extensions, body);
    if stay && (last || leaves_table(extensions, body)) {
        return Ok((None, stay));
    }
    let mut moved = extensions.duplicate(alloc)?;
    let stay = move_on(&mut moved, body)?;
    Ok((Some(moved), stay))
}

// The same, where records before it may have needed a copy.
fn move_next(
    alloc: Global,
    extensions: &Extensions,
    moved: Option<Extensions>,
    body: &Body,
    last: bool,
) -> Result<(Option<Extensions>, bool), NoMemory>
    ensures moves { IfOk result (λ made. last ≡ false →
        MovesOn (seen extensions.now moved) body.now (seen extensions.now made.0)) }
    ensures parts { IfOk result (λ made. LeavesParts made.1 (seen extensions.now moved) body.now) }
{
    match moved {
        None => move_first(alloc, extensions, body, last),
        Some(moved) => {
            let mut moved = moved;
            let stay = move_on(&mut moved, body)?;
            Ok((Some(moved), stay))
        }
    }
}

// The extension that is current then.
fn current_in(extensions: &Extensions, moved: &Option<Extensions>) -> Option<Current>
    ensures { result ≡ (seen extensions.now moved.now).current }
{
    match moved {
        None => extensions.current(),
        Some(moved) => moved.current(),
    }
}

/// The UIDs of the rows that the records may change, in any order, where these are the extensions
/// before them: they are copied only where records behind one that changes them need them.
pub fn named_rows(
    alloc: Global,
    rows: &Rows,
    extensions: &Extensions,
    records: &[Record],
) -> Result<Vec<u32>, NoMemory>
    ensures named { IfOk result (λ uids. (m : Mailbox) → IsValid m →
        All (λ r. IsInRange r.body) records.now → table_of m ≡ extensions.now →
        AreAllNamed (length records.now) m records.now rows.now.rows uids.items) }
    ensures only { IfOk result (λ uids. All (HasUid rows.now.rows) uids.items) }
{
    let mut moved = None;
    let mut uids = Vec::new(alloc);
    for at in 0..records.len() {
        let body = &records[at].body;
        let current = current_in(extensions, &moved);
        let last = at + 1 == records.len();
        let (next, stay) = move_next(alloc, extensions, moved, body, last)?;
        name_rows(alloc, rows, current, stay, body, &mut uids)?;
        moved = next;
    }
    Ok(uids)
}
