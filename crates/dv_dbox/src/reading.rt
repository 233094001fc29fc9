ghost use Rattle.std.specs.Prelude.{◌≡◌, filter, IfOk};
ghost use Rattle.std.specs.List.{slice_split};
ghost use Rattle.std.specs.Option.{option_and_then, option_copied, ok_or};
ghost use Rattle.dv_dbox.specs.BoxTexts.{before_empty, box_content, BoxContent, BoxText, content_from, end_at, entries_of, fields_of, guid_number, header_at, header_size, hex_number, is_feed, is_header_size, is_other, is_space, message_at, read_at, size_at, stamp_of};
ghost use Rattle.dv_dbox.specs.BoxTexts.{BadMetadata as MetadataBroken};
ghost use Rattle.dv_dbox.specs.Reading.{content_of, texts, Gives, Reads};

use crate::digits::{guid_of, hex_number};
use crate::items::{are_items, split_line};
use crate::values::value_of;
use crate::{BoxEnd, BoxFault, Message};
use dv_model::{Bytes, List};
use std::alloc::{AllocError, Global};

/// Whether the value of `M` is the size of the message header, 30 in hexadecimal digits.
fn is_header_size(value: Option<&[u8]>) -> bool
    ensures { result ≡ is_header_size (option_copied value.entry) }
{
    match value {
        Some(value) => value.eq_ignore_ascii_case(b"1e"),
        None => false,
    }
}

/// The stamp in the fields of the first line.
fn stamp_of(fields: &[&[u8]]) -> Option<u32>
    ensures { result ≡ stamp_of (texts fields.now) }
{
    if !are_items(fields) || !is_header_size(value_of(fields, b'M')) {
        return None;
    }
    let Some(stamp) = value_of(fields, b'C') else {
        return None;
    };
    match hex_number(stamp, 8) {
        Some(stamp) => Some(stamp as u32),
        None => None,
    }
}

/// The stamp in the words of the first line.
fn stamp_of_words(words: &[&[u8]]) -> Option<u32>
    ensures { result ≡ option_and_then stamp_of (fields_of (texts words.now)) }
{
    match words {
        [version, fields @ ..] if *version == b"2".as_slice() => stamp_of(fields),
        _ => None,
    }
}

/// The words of a line, with a space between each two.
fn words_of(alloc: Global, line: &[u8]) -> Result<Vec<&[u8]>, AllocError>
    ensures { IfOk result (λ words. texts words.items ≡ slice_split is_space line.now) }
{
    line.split(|b| *b == b' ').collect(alloc)
}

/// Reads the first line: the stamp, and what follows.
fn header_of(alloc: Global, b: &[u8]) -> Result<(u32, &[u8]), BoxEnd>
    ensures { Gives (λ x. (x.0, x.1.now)) result (header_at b.now) }
{
    let Some((line, rest)) = split_line(b) else {
        return Err(BoxEnd::Fault(BoxFault::BadHeader));
    };
    let words = words_of(alloc, line)?;
    match stamp_of_words(&words) {
        Some(stamp) => Ok((stamp, rest)),
        None => Err(BoxEnd::Fault(BoxFault::BadHeader)),
    }
}

/// The size in a message header.
fn header_size(head: &[u8]) -> Option<u64>
    ensures { result ≡ header_size head.now }
{
    if head.len() != 30
        || !head.starts_with(b"\x01\x02N ")
        || head[12] != b' '
        || head[29] != b'\n'
    {
        return None;
    }
    hex_number(&head[13..29], 16)
}

/// Reads the message header: the message's size, and what follows.
fn size_of(b: &[u8]) -> Result<(u64, &[u8]), BoxFault>
    ensures { Reads (λ x. (x.0, x.1.now)) result (size_at b.now) }
{
    let Some((head, rest)) = b.split_at_checked(30) else {
        return Err(BoxFault::BadMessageHeader);
    };
    match header_size(head) {
        Some(size) => Ok((size, rest)),
        None => Err(BoxFault::BadMessageHeader),
    }
}

/// Takes the message's bytes, and what follows.
fn message_of(size: u64, b: &[u8]) -> Result<(&[u8], &[u8]), BoxFault>
    ensures { Reads (λ x. (x.0.now, x.1.now)) result (message_at size b.now) }
{
    if (b.len() as u64) < size {
        return Err(BoxFault::BadSize);
    }
    Ok(b.split_at(size as usize))
}

/// Takes away the bytes that stand between the message and the metadata.
fn end_of(b: &[u8]) -> Result<&[u8], BoxFault>
    ensures { Reads (λ x. x.now) result (end_at b.now) }
{
    match b.strip_prefix(b"\n\x01\x03\n") {
        Some(rest) => Ok(rest),
        None => Err(BoxFault::BadEnd),
    }
}

/// The lines before the first empty one.
fn lines_of(alloc: Global, b: &[u8]) -> Result<Vec<&[u8]>, BoxEnd>
    ensures { Gives (λ lines. texts lines.items) result
        (ok_or (before_empty (slice_split is_feed b.now)) MetadataBroken) }
{
    let mut lines = Vec::new(alloc);
    let mut rest = b;
    while let Some((line, after)) = split_line(rest) {
        if line.is_empty() {
            return Ok(lines);
        }
        lines.push(line)?;
        rest = after;
    }
    Err(BoxEnd::Fault(BoxFault::BadMetadata))
}

/// The lines of the metadata.
fn entries_of(alloc: Global, b: &[u8]) -> Result<Vec<&[u8]>, BoxEnd>
    ensures { Gives (λ entries. texts entries.items) result
        (ok_or (entries_of b.now) MetadataBroken) }
{
    let lines = lines_of(alloc, b)?;
    if !are_items(&lines) {
        return Err(BoxEnd::Fault(BoxFault::BadMetadata));
    }
    Ok(lines)
}

/// The number of a metadata value, where there is one.
fn number_at(value: Option<&[u8]>) -> Result<Option<u64>, BoxFault>
    ensures { Reads (λ x. x) result (read_at (hex_number 16) (option_copied value.entry)) }
{
    let Some(text) = value else {
        return Ok(None);
    };
    match hex_number(text, 16) {
        Some(n) => Ok(Some(n)),
        None => Err(BoxFault::BadMetadata),
    }
}

/// The GUID of a metadata value, where there is one.
fn guid_at(value: Option<&[u8]>) -> Result<Option<[u8; 16]>, BoxFault>
    ensures { Reads (λ x. x) result (read_at guid_number (option_copied value.entry)) }
{
    let Some(text) = value else {
        return Ok(None);
    };
    match guid_of(text) {
        Some(guid) => Ok(Some(guid)),
        None => Err(BoxFault::BadMetadata),
    }
}

/// Whether a line has another key than G, R, Z and V.
fn is_other(entry: &[u8]) -> bool
    ensures { result ≡ is_other entry.now }
{
    !matches!(entry, [b'G' | b'R' | b'Z' | b'V', ..])
}

/// The lines of other keys than G, R, Z and V.
fn others_of(alloc: Global, entries: &[&[u8]]) -> Result<List<Bytes>, BoxEnd>
    ensures { Gives (λ others. others) result (Ok (filter is_other (texts entries.now))) }
{
    let mut others = List::new(alloc);
    for entry in entries {
        if is_other(*entry) {
            others.push(Bytes::from_slice(alloc, *entry)?)?;
        }
    }
    Ok(others)
}

/// The message of these bytes and these lines of metadata.
fn message_from(
    alloc: Global,
    stamp: u32,
    bytes: &[u8],
    entries: &[&[u8]],
) -> Result<Message, BoxEnd>
    ensures { Gives content_of result (content_from stamp bytes.now (texts entries.now)) }
{
    let guid = guid_at(value_of(entries, b'G'))?;
    let received = number_at(value_of(entries, b'R'))?;
    let physical = number_at(value_of(entries, b'Z'))?;
    let virtual_size = number_at(value_of(entries, b'V'))?;
    let bytes = Bytes::from_slice(alloc, bytes)?;
    let others = others_of(alloc, entries)?;
    Ok(Message {
        stamp,
        bytes,
        guid,
        received,
        physical,
        virtual_size,
        others,
    })
}

/// Reads the parts of a message file, one behind the other.
fn read_parts(alloc: Global, b: &[u8]) -> Result<Message, BoxEnd>
    ensures { Gives content_of result (box_content b.now) }
{
    let (stamp, rest) = header_of(alloc, b)?;
    let (size, rest) = size_of(rest)?;
    let (message, rest) = message_of(size, rest)?;
    let rest = end_of(rest)?;
    let entries = entries_of(alloc, rest)?;
    message_from(alloc, stamp, message, &entries)
}

/// Reads a message file. The fault is the first that the file's bytes have, by the order of
/// `BoxFault`; bytes behind the metadata's empty line aren't looked at.
pub fn read(alloc: Global, b: &[u8]) -> Result<Message, BoxEnd>
    // The message that the bytes hold, or their first fault, unless memory runs out.
    ensures exact { Gives content_of result (box_content b.now) }
    // What is read is of the format.
    ensures found { IfOk result (λ m. BoxText (content_of m) b.now) }
    // What is of the format is read.
    ensures only { (m : BoxContent) → BoxText m b.now → Gives content_of result (Ok m) }
{
    read_parts(alloc, b)
}
