//! The cache file that a CHECK writes.

ghost use Rattle.std.specs.Prelude.{◌≡◌, ◌^◌, ◌<◌, ◌≤◌, ℕ, List, IfOk, Some, length, map, true};
ghost use Rattle.dv_model.specs.Fields.{field_of};
ghost use Rattle.dv_model.specs.Journals.{Held, Mail};
ghost use Rattle.dv_model.specs.Mailboxes.{IsValid};
ghost use Rattle.dv_cache.specs.declared.row.CacheRow.{CacheRow};
ghost use Rattle.dv_cache.specs.Begun.{begun};
ghost use Rattle.dv_cache.specs.Caches.{HasFive, cache_text, first_place};
ghost use Rattle.dv_shelf.specs.Causes.{HasCauseOf};
ghost use Rattle.dv_chain.specs.Openings.{OnlyLooks};
ghost use Rattle.dv_files.specs.Reading.{mail_at};
ghost use Rattle.dv_openings.specs.TrueCaches.{HasTrueCache, kept_names};
ghost use Rattle.dv_lookups.specs.Checks.{IsCacheText, held_of, held_row, held_text, kept_of, row_uids};
ghost use Rattle.dv_lookups.specs.Commands.{SparesEach};
ghost use Rattle.dv_lookups.specs.Founds.{AreMessages, IsSourceOf, IsWhole};
ghost use Rattle.dv_lookups.specs.Kept.{CountsUpTo, Economy, IsFileOf, IsSpared, Spares, row_of};

use crate::cache_file::CacheFile;
use crate::memory::in_memory;
use crate::source::Source;
use dv_cache::{CacheRow, CacheText, Known};
use dv_chain::Chain;
use dv_fields::{field_of, physical, virtual_size};
use dv_model::{Bytes, List, NoMemory, Row};
use dv_shelf::{Shelf, ShelfFault};
use std::alloc::Global;

// The largest size of a message that is kept.
const LARGEST_SIZE: u64 = 1 << 31;

// The values of the five fields that are kept.
fn kept_fields(alloc: Global, message: &[u8]) -> Result<List<Option<Bytes>>, NoMemory>
    ensures { IfOk result (λ fields. fields ≡ map (field_of message.now) kept_names) }
{
    let mut fields = List::new(alloc);
    fields.push(field_of(alloc, message, b"date")?)?;
    fields.push(field_of(alloc, message, b"from")?)?;
    fields.push(field_of(alloc, message, b"to")?)?;
    fields.push(field_of(alloc, message, b"subject")?)?;
    fields.push(field_of(alloc, message, b"message-id")?)?;
    Ok(fields)
}

// What is held of a message until it is written.
fn held(alloc: Global, message: &[u8]) -> Result<Option<Known>, NoMemory>
    ensures { IfOk result (λ known. known ≡ held_of (Held message.now)) }
{
    let physical = physical(message);
    let virtual_size = virtual_size(message);
    if physical > LARGEST_SIZE || virtual_size > LARGEST_SIZE {
        return Ok(None);
    }
    let fields = kept_fields(alloc, message)?;
    Ok(Some(Known {
        physical: physical as u32,
        virtual_size: virtual_size as u32,
        fields,
    }))
}

// The same of what the cache file has of it.
fn kept(known: Known) -> Option<Known>
    ensures { result ≡ kept_of known }
{
    if u64::from(known.physical) > LARGEST_SIZE || u64::from(known.virtual_size) > LARGEST_SIZE {
        return None;
    }
    Some(known)
}

// What is held of a message, from where it is taken.
fn held_from(alloc: Global, source: Source) -> Result<Option<Known>, NoMemory>
    ensures is { (mail : Mail) → IsSourceOf (Some mail) source →
        IfOk result (λ known. known ≡ held_of mail) }
    ensures five { IsWhole source → IfOk result HasFive }
{
    match source {
        Source::Cached(known) => Ok(kept(known)),
        Source::Held(message) => held(alloc, message.bytes.as_slice()),
        Source::Gone | Source::Damaged => Ok(None),
    }
}

// The row of a message: what the cache file has of it, or else by its file.
fn cache_row<S: Shelf>(
    alloc: Global,
    shelf: &mut S,
    file: &mut CacheFile,
    chain: &Chain,
    row: &Row,
) -> Result<CacheRow, ShelfFault>
    requires row { row_of chain.now.live.mailbox row.now.uid ≡ Some row.now }
    // It is that of the message file, where the cache file is true.
    ensures row { S.sees.tells → IsFileOf (S.sees.files shelf.old) file.old →
        HasTrueCache (S.sees.files shelf.old) chain.now.indexid chain.now.live.mailbox →
        IfOk result (λ made. made ≡ held_row (mail_at (S.sees.files shelf.old)) row.now.uid) }
    ensures five { IfOk result (λ made. HasFive made.known) }
    ensures file { S.sees.tells → IsFileOf (S.sees.files shelf.old) file.old →
        IsFileOf (S.sees.files shelf.old) file.new }
    // Nothing is changed, and the shelf is called no more than is due; a fault of the disk has its
    // cause.
    ensures looks { S.sees.tells →
        OnlyLooks S.sees shelf.old shelf.new }
    ensures economy { Economy S.sees chain.now.live.mailbox row.now.uid true
        file.old file.new shelf.old shelf.new }
    ensures spares { S.sees.tells → IsFileOf (S.sees.files shelf.old) file.old →
        IsSpared (S.sees.files shelf.old) chain.now.indexid chain.now.live.mailbox row.now.uid →
        Spares S.sees file.old shelf.old shelf.new }
    ensures cause { HasCauseOf ShelfFault.Failed
        (S.sees.fault_count shelf.old) (S.sees.fault_count shelf.new) result }
{
    let source = file.row_source(alloc, shelf, chain, row, true)?;
    let known = in_memory(held_from(alloc, source))?;
    Ok(CacheRow {
        uid: row.uid,
        known,
    })
}

// The text of a cache file to which the rows of the mailbox were added, one by one.
fn rows_added<S: Shelf>(
    alloc: Global,
    shelf: &mut S,
    chain: &Chain,
) -> Result<CacheText, ShelfFault>
    requires few { length chain.now.live.mailbox.rows ≤ 8388608 }
    requires valid { IsValid chain.now.live.mailbox }
    // The rows are those of the message files, where the folder's cache file is true.
    ensures rows { S.sees.tells →
        HasTrueCache (S.sees.files shelf.old) chain.now.indexid chain.now.live.mailbox →
        IfOk result (λ text. text ≡ held_text (mail_at (S.sees.files shelf.old))
        (length chain.now.live.mailbox.rows) chain.now.live.mailbox.rows) }
    // Nothing is changed.
    ensures looks { S.sees.tells →
        OnlyLooks S.sees shelf.old shelf.new }
    // A message file is read at most for each row, and none for one that is found in the cache file;
    // a fault of the disk has its cause.
    ensures most { CountsUpTo (length chain.now.live.mailbox.rows)
        (S.sees.mail_reads shelf.old) (S.sees.mail_reads shelf.new) }
    ensures spares { S.sees.tells →
        SparesEach (S.sees.files shelf.old) chain.now.indexid chain.now.live.mailbox
        (row_uids chain.now.live.mailbox)
        (S.sees.mail_reads shelf.old) (S.sees.mail_reads shelf.new) }
    ensures cause { HasCauseOf ShelfFault.Failed
        (S.sees.fault_count shelf.old) (S.sees.fault_count shelf.new) result }
{
    let mut file = CacheFile::Unread;
    let mut text = CacheText::begin(alloc, chain.live.count());
    for k in 0..chain.live.count() {
        let row = cache_row(alloc, shelf, &mut file, chain, chain.live.row(k))?;
        match text.add(&row) {
            Ok(()) => (),
            Err(_) => return Err(ShelfFault::NoMemory),
        }
    }
    Ok(text)
}

// The whole text, where all rows were added.
fn text_of(text: CacheText, indexid: u32, seq: u32) -> Result<Bytes, NoMemory>
    ensures text { (rows : List CacheRow) → text ≡ begun (first_place rows) rows →
        length rows ≤ 8388608 → IfOk result (λ made. made ≡ cache_text indexid seq rows) }
    ensures wide { (indexid < 2 ^ 32) × (seq < 2 ^ 32) }
{
    text.finish(indexid, seq)
}

/// The cache file of the mailbox under a sequence: the sizes and five fields of each row's message,
/// as far as the format keeps them. A row that the folder's cache file has is taken from there. Of
/// the others each message file is read once, by rising UIDs, and one message is held at a time. A
/// message file that was damaged behind its entry isn't noticed.
pub fn cache_of_messages<S: Shelf>(
    alloc: Global,
    shelf: &mut S,
    chain: &Chain,
    seq: u32,
) -> Result<Bytes, ShelfFault>
    requires few { length chain.now.live.mailbox.rows ≤ 8388608 }
    // The text is that of the messages in their files, where the folder's cache file is true.
    ensures text { S.sees.tells →
        HasTrueCache (S.sees.files shelf.old) chain.now.indexid chain.now.live.mailbox →
        (mail : ℕ → Mail) → AreMessages (S.sees.files shelf.old) chain.now.live.mailbox mail →
        IfOk result (IsCacheText chain.now.indexid seq mail chain.now.live.mailbox) }
    // Nothing is changed.
    ensures looks { S.sees.tells →
        OnlyLooks S.sees shelf.old shelf.new }
    // A message file is read at most for each row, and none for one that is found in the cache file;
    // a fault of the disk has its cause.
    ensures most { CountsUpTo (length chain.now.live.mailbox.rows)
        (S.sees.mail_reads shelf.old) (S.sees.mail_reads shelf.new) }
    ensures spares { S.sees.tells →
        SparesEach (S.sees.files shelf.old) chain.now.indexid chain.now.live.mailbox
        (row_uids chain.now.live.mailbox)
        (S.sees.mail_reads shelf.old) (S.sees.mail_reads shelf.new) }
    ensures cause { HasCauseOf ShelfFault.Failed
        (S.sees.fault_count shelf.old) (S.sees.fault_count shelf.new) result }
{
    // The mailbox is valid.
    let _next_uid = chain.live.next_uid();
    let text = rows_added(alloc, shelf, chain)?;
    in_memory(text_of(text, chain.indexid, seq))
}
