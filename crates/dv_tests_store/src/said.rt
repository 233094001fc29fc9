//! What a store answers.

ghost use Rattle.std.specs.Prelude.{◌≡◌, true};
ghost use Rattle.dv_writing.specs.Removals.{IsFree};

use dv_apply::Live;
use dv_asks::{Ask, MemStore, range, write};
use dv_lookups::{BodyFound, FactsFound, FieldFound, SizesFound};
use dv_model::{Body, Bytes, Command, Group, Item, List, Mark, Record, Reply, Value};
use dv_plans::StoreFault;
use dv_responses::Asked;
use dv_search::MailFacts;
use dv_store::Receipt;
use dv_view::View;
use std::alloc::Global;
use std::test::Fail;

/// What is answered.
#[derive(Clone, Copy)]
pub enum Said {
    /// A group, which ends in that log at that place, and touches these UIDs.
    Wrote(u32, u32, &'static [u32]),
    /// A group with a message of this UID.
    Appended(u32, u32, u32),
    /// Nothing is written. The log ends there.
    Nothing(u32, u32),
    /// The disk failed, so often until now.
    Disk(u64),
    UidsUsedUp,
    TooLong(u64),
    /// A message, or a field's value.
    Bytes(&'static [u8]),
    /// The message has no such field.
    Absent,
    /// The size as the message is, and with CRLF line ends.
    Sizes(u64, u64),
    /// The size with CRLF line ends, and a field's value.
    Facts(u64, Option<&'static [u8]>),
    /// That size, and the message.
    Fetched(u64, &'static [u8]),
    /// One record, by which one message leaves, of so many bytes.
    Removal(u64, u32, [u8; 16]),
    /// It is done.
    Done,
    /// There is no such row.
    Gone,
    Damaged,
}

// Whether it is this mark.
fn is_mark(mark: Mark, file_seq: u32, offset: u32) -> bool {
    mark == Mark { file_seq, offset }
}

// Whether a receipt is what is said.
fn is_receipt(receipt: &Receipt, said: Said) -> bool {
    match said {
        Said::Wrote(file_seq, offset, uids) => {
            is_mark(receipt.mark, file_seq, offset)
                && !receipt.text.is_empty()
                && receipt.uid == None
                && receipt.touched.uids() == uids
        }
        Said::Appended(file_seq, offset, uid) => {
            is_mark(receipt.mark, file_seq, offset)
                && !receipt.text.is_empty()
                && receipt.uid == Some(uid)
                && receipt.touched.uids() == [uid].as_slice()
        }
        Said::Nothing(file_seq, offset) => {
            is_mark(receipt.mark, file_seq, offset)
                && receipt.text.is_empty()
                && receipt.group.records.is_empty()
                && receipt.touched.uids().is_empty()
        }
        _ => false,
    }
}

fn is_fault(fault: StoreFault, said: Said) -> bool {
    match (fault, said) {
        (StoreFault::Disk(count), Said::Disk(other)) => count == other,
        (StoreFault::UidsUsedUp, Said::UidsUsedUp) => true,
        (StoreFault::TooLong { bytes }, Said::TooLong(other)) => bytes == other,
        _ => false,
    }
}

fn is_body(found: &BodyFound, said: Said) -> bool {
    match (found, said) {
        (BodyFound::Held(message), Said::Bytes(bytes)) => message.bytes.as_slice() == bytes,
        (BodyFound::Gone, Said::Gone) => true,
        (BodyFound::Damaged, Said::Damaged) => true,
        _ => false,
    }
}

fn is_field(found: &FieldFound, said: Said) -> bool {
    match (found, said) {
        (FieldFound::Value(Some(value)), Said::Bytes(bytes)) => value.as_slice() == bytes,
        (FieldFound::Value(None), Said::Absent) => true,
        (FieldFound::Gone, Said::Gone) => true,
        (FieldFound::Damaged, Said::Damaged) => true,
        _ => false,
    }
}

fn are_sizes(found: SizesFound, said: Said) -> bool {
    match said {
        Said::Sizes(physical, virtual_size) => found
            == SizesFound::Sizes {
                physical,
                virtual_size,
            },
        Said::Gone => found == SizesFound::Gone,
        Said::Damaged => found == SizesFound::Damaged,
        _ => false,
    }
}

// Whether a command is answered so.
fn is_written(
    alloc: Global,
    store: &mut MemStore,
    view: &View,
    ask: Ask,
    said: Said,
    texts: &mut Bytes,
) -> Result<bool, Fail> {
    match write(alloc, store, view, ask, texts)? {
        Ok(receipt) => Ok(is_receipt(&receipt, said)),
        Err(fault) => Ok(is_fault(fault, said)),
    }
}

fn is_body_of(store: &mut MemStore, uid: u32, said: Said) -> bool {
    match store.body(uid) {
        Ok(found) => is_body(&found, said),
        Err(fault) => is_fault(fault, said),
    }
}

fn is_field_of(store: &mut MemStore, uid: u32, name: &[u8], said: Said) -> bool {
    match store.field(uid, name) {
        Ok(found) => is_field(&found, said),
        Err(fault) => is_fault(fault, said),
    }
}

fn are_sizes_of(store: &mut MemStore, uid: u32, said: Said) -> bool {
    match store.sizes(uid) {
        Ok(found) => are_sizes(found, said),
        Err(fault) => is_fault(fault, said),
    }
}

// The only one of a list.
fn only<T>(list: &[T]) -> Option<&T> {
    if list.len() == 1 { list.first() } else { None }
}

// What is asked of a message at once.
fn asked(alloc: Global, name: &[u8]) -> Result<Asked, Fail> {
    let mut fields = List::new(alloc);
    fields.push(Bytes::from_slice(alloc, name)?)?;
    Ok(Asked {
        body: false,
        size: true,
        fields,
    })
}

// Whether one field is known, which has this value.
fn has_value(facts: &MailFacts, value: Option<&'static [u8]>) -> bool {
    let Some((_, found)) = only(facts.fields.as_slice()) else {
        return false;
    };
    match (found, value) {
        (Some(found), Some(bytes)) => found.as_slice() == bytes,
        (None, None) => true,
        _ => false,
    }
}

fn are_facts(found: &FactsFound, said: Said) -> bool {
    match (found, said) {
        (FactsFound::Known(facts), Said::Facts(size, value)) => {
            facts.size == size && has_value(facts, value)
        }
        (FactsFound::Gone, Said::Gone) => true,
        (FactsFound::Damaged, Said::Damaged) => true,
        _ => false,
    }
}

fn are_facts_of(
    alloc: Global,
    store: &mut MemStore,
    uid: u32,
    name: &[u8],
    said: Said,
) -> Result<bool, Fail> {
    match store.facts(&asked(alloc, name)?, uid) {
        Ok(found) => Ok(are_facts(&found, said)),
        Err(fault) => Ok(is_fault(fault, said)),
    }
}

// Whether this is the line of a FETCH of size and bytes of a message.
fn is_line(line: &Reply, uid: u32, size: u64, bytes: &[u8]) -> bool {
    let Reply::Fetch {
        uid: found,
        values,
        ..
    } = line
    else {
        return false;
    };
    match values.as_slice() {
        [Value::Size(length), Value::Body(message)] => {
            *found == uid && *length == size && message.as_slice() == bytes
        }
        _ => false,
    }
}

fn is_fetched(lines: &List<Reply>, uid: u32, said: Said) -> bool {
    match (lines.as_slice(), said) {
        ([line], Said::Fetched(size, bytes)) => is_line(line, uid, size, bytes),
        ([], Said::Absent) => true,
        _ => false,
    }
}

fn is_fetch_of(alloc: Global, store: &mut MemStore, uid: u32, said: Said) -> Result<bool, Fail> {
    let mut items = List::new(alloc);
    items.push(Item::Size)?;
    items.push(Item::Body)?;
    let command = Command::Fetch {
        by_uid: true,
        set: range(alloc, uid, uid)?,
        items,
    };
    let view = View::of(alloc, store.live())?;
    let mut lines = List::new(alloc);
    match store.read_for(&command, &view, &mut lines) {
        Ok(_) => Ok(is_fetched(&lines, uid, said)),
        Err(fault) => Ok(is_fault(fault, said)),
    }
}

// Whether one message alone leaves by a record.
fn is_removal(record: &Record, uid: u32, guid: [u8; 16]) -> bool {
    let Body::ExpungeGuid(rows) = &record.body else {
        return false;
    };
    match only(rows.as_slice()) {
        Some(row) => row.uid == uid && row.guid == guid && record.top == 1,
        None => false,
    }
}

fn is_plan(group: &Group, bytes: u64, said: Said) -> bool {
    match (only(group.records.as_slice()), said) {
        (Some(record), Said::Removal(length, uid, guid)) => {
            bytes == length && is_removal(record, uid, guid)
        }
        _ => false,
    }
}

fn is_planned(
    alloc: Global,
    store: &mut MemStore,
    first: u32,
    last: u32,
    said: Said,
) -> Result<bool, Fail> {
    let command = Command::UidRemove {
        set: range(alloc, first, last)?,
    };
    let view = View::of(alloc, store.live())?;
    let bytes = store.need(&command, &view)?;
    match store.plan(&command, &view) {
        Ok(group) => Ok(is_plan(&group, bytes, said)),
        Err(fault) => Ok(is_fault(fault, said)),
    }
}

fn is_done(answer: Result<(), StoreFault>, said: Said) -> bool {
    match (answer, said) {
        (Ok(()), Said::Done) => true,
        (Err(fault), _) => is_fault(fault, said),
        _ => false,
    }
}

fn is_free(live: &Live, uid: u32) -> bool
    ensures { result ≡ true → IsFree live.now.mailbox uid }
{
    live.position(uid).is_none()
}

fn is_swept(alloc: Global, store: &mut MemStore, uid: u32, said: Said) -> Result<bool, Fail> {
    if !is_free(store.live(), uid) {
        return Ok(false);
    }
    let uids = List::from_slice(alloc, &[uid])?;
    Ok(is_done(store.sweep(&uids), said))
}

// Whether a store answers so to what is no command.
fn is_told(alloc: Global, store: &mut MemStore, ask: Ask, said: Said) -> Result<bool, Fail> {
    match ask {
        Ask::Body(uid) => Ok(is_body_of(store, uid, said)),
        Ask::Sizes(uid) => Ok(are_sizes_of(store, uid, said)),
        Ask::Field(uid, name) => Ok(is_field_of(store, uid, name, said)),
        Ask::Facts(uid, name) => are_facts_of(alloc, store, uid, name, said),
        Ask::Fetch(uid) => is_fetch_of(alloc, store, uid, said),
        Ask::Plan(first, last) => is_planned(alloc, store, first, last, said),
        Ask::Sweep(uid) => is_swept(alloc, store, uid, said),
        Ask::Checkpoint => Ok(is_done(store.checkpoint(), said)),
        _ => Ok(false),
    }
}

fn is_command(ask: Ask) -> bool {
    match ask {
        Ask::Append(_, _) | Ask::AppendKeyword(_, _, _) => true,
        Ask::Store(_, _, _, _) | Ask::StoreKeyword(_, _, _, _, _) => true,
        Ask::StoreSince(_, _, _, _) | Ask::Remove(_, _) => true,
        Ask::Expunge | Ask::Check | Ask::Noop => true,
        _ => false,
    }
}

/// Whether a store answers so. A command has the view, or else all of the mailbox as its view. The
/// text of a group is added to the others.
pub fn is_answered(
    alloc: Global,
    store: &mut MemStore,
    held: Option<&View>,
    step: (Ask, Said),
    texts: &mut Bytes,
) -> Result<bool, Fail> {
    let (ask, said) = step;
    if !is_command(ask) {
        return is_told(alloc, store, ask, said);
    }
    match held {
        Some(view) => is_written(alloc, store, view, ask, said, texts),
        None => {
            let view = View::of(alloc, store.live())?;
            is_written(alloc, store, &view, ask, said, texts)
        }
    }
}
