ghost use Rattle.dv_model.specs.Spelling.{IsRecord};

mod numbers;
mod worked;

use crate::ends::{is_so, no_other};
use dv_model::{Body, Bytes, List, NoMemory, Record};
use dv_records::{DecodeEnd, RecordFault, check, decode, encode};
use numbers::numbers_of;
use std::alloc::Global;
use std::test::Fail;
use worked::{EXPUNGE, WORKED, Worked};

// These bytes with two bytes before them and three behind.
fn framed(alloc: Global, bytes: &[u8]) -> Result<Bytes, NoMemory> {
    let mut text = List::from_slice(alloc, &[0x80, 0x80])?;
    text.extend(bytes)?;
    text.extend(&[0x80, 0x80, 0x80])?;
    Ok(text)
}

fn has_numbers(alloc: Global, body: &Body, wanted: &[u32]) -> Result<bool, NoMemory> {
    let numbers = numbers_of(alloc, body)?;
    Ok(numbers.as_slice() == wanted)
}

// Whether these bytes are written of the record, behind three others.
fn is_written(alloc: Global, record: &Record, wanted: &[u8]) -> Result<bool, NoMemory>
    requires { IsRecord record.now }
{
    let mut written = List::from_slice(alloc, &[1, 2, 3])?;
    encode(alloc, record, &mut written)?;
    let (_, behind) = written.as_slice().split_at(written.len().min(3));
    Ok(behind == wanted)
}

// Whether the text of a record stands at this place, up to the end that is wanted, and the text
// that is wanted is written of it.
fn goes_both_ways(
    alloc: Global,
    text: &[u8],
    at: usize,
    end: usize,
    wanted: &[u8],
) -> Result<bool, NoMemory> {
    if at > text.len() {
        return Ok(false);
    }
    let is_same = match decode(alloc, text, at) {
        Ok((record, behind)) => behind == end && is_written(alloc, &record, wanted)?,
        Err(_) => false,
    };
    Ok(is_same && check(text, at) == Ok(end))
}

// Whether a record with these highest bits and these numbers stands at this place.
fn says(alloc: Global, text: &[u8], at: usize, top: u8, numbers: &[u32]) -> Result<bool, NoMemory> {
    if at > text.len() {
        return Ok(false);
    }
    match decode(alloc, text, at) {
        Ok((record, _)) => Ok(record.top == top && has_numbers(alloc, &record.body, numbers)?),
        Err(_) => Ok(false),
    }
}

fn is_worked(alloc: Global, worked: &Worked) -> Result<bool, NoMemory> {
    let (bytes, top, numbers) = *worked;
    let text = framed(alloc, bytes)?;
    let behind = bytes.len().saturating_add(2);
    Ok(
        goes_both_ways(alloc, text.as_slice(), 2, behind, bytes)?
            && says(alloc, text.as_slice(), 2, top, numbers)?,
    )
}

// The place of the first record that is read or written in another way.
fn first_not_worked(alloc: Global, records: &[Worked]) -> Option<usize> {
    for (at, worked) in records.iter().enumerate() {
        if is_worked(alloc, worked) != Ok(true) {
            return Some(at);
        }
    }
    None
}

#[test]
fn worked_records_both_ways(rt: HostRuntime) -> Result<(), Fail> {
    no_other(first_not_worked(rt.alloc(), &WORKED))
}

// A text that is a record, and what is written of that.
type Spelling = (&'static [u8], &'static [u8]);

// Padding of any kind and a short reset, and what is written so.
const OTHERS: [Spelling; 6] = [
    (
        b"\x80\x80\x80\x84\x02\0\0\0\x01\0\0\0\x08\x07\x07\x07",
        b"\x80\x80\x80\x84\x02\0\0\0\x01\0\0\0\x08\0\0\0",
    ),
    // the flag that raises a modification sequence is padding
    (
        b"\x80\x80\x80\x85\x04\0\0\0\x01\0\0\0\x01\0\0\0\x08\x01\x01\x09",
        b"\x80\x80\x80\x85\x04\0\0\0\x01\0\0\0\x01\0\0\0\x08\x01\0\0",
    ),
    (
        b"\x80\x80\x80\x84\x20\0\0\0\x05\0\x01\0\x03\x09\x09\x09",
        b"\x80\x80\x80\x84\x20\0\0\0\x05\0\x01\0\x03\0\0\0",
    ),
    (
        b"\x80\x80\x80\x84\0\x04\0\0\x02\x09\x01\0k\x09\x09\x09",
        b"\x80\x80\x80\x84\0\x04\0\0\x02\0\x01\0k\0\0\0",
    ),
    (
        b"\x80\x80\x80\x83\x80\0\0\0\x07\0\0\0",
        b"\x80\x80\x80\x84\x80\0\0\0\x07\0\0\0\0\0\0\0",
    ),
    (&EXPUNGE, &EXPUNGE),
];

// The place of the first spelling that isn't read or written so.
fn first_other_spelling(alloc: Global, spellings: &[Spelling]) -> Option<usize> {
    for (at, (bytes, canonical)) in spellings.iter().enumerate() {
        if goes_both_ways(alloc, bytes, 0, bytes.len(), canonical) != Ok(true) {
            return Some(at);
        }
    }
    None
}

#[test]
fn other_spellings_are_read(rt: HostRuntime) -> Result<(), Fail> {
    no_other(first_other_spelling(rt.alloc(), &OTHERS))
}

// What no record is, and why.
type Refused = (&'static [u8], RecordFault);

const CLOSED: RecordFault = RecordFault::Closed;

const SIZE: RecordFault = RecordFault::BadSize;

const GUARD: RecordFault = RecordFault::BadGuard;

const PAYLOAD: RecordFault = RecordFault::BadPayload;

const HOSTILE: [Refused; 10] = [
    (b"\0\0\0\0", CLOSED),
    (b"\x80\x80\0\x82\x02\0\0\0", CLOSED),
    (b"\x80\x80\x80\x82\x02\0\0", SIZE),
    (b"\x80\xff\xff\xff\x01\0\0\0", SIZE),
    (b"\x80\x80\x80\x82\x01\0\0\x10", GUARD),
    (b"\x80\x80\x80\x82\0\x20\0\0", GUARD),
    (b"\x80\x80\x80\x84\x91\xcd\0\0\x02\0\0\0\x01\0\0\0", PAYLOAD),
    (b"\x80\x80\x80\x84\x02\0\0\0\0\0\0\0\0\0\0\0", PAYLOAD),
    (b"\x80\x80\x80\x84\0\x04\0\0\x03\0\x01\0k\0\0\0", PAYLOAD),
    (b"\x80\x80\x80\x83\x90\xed\0\0\x01\0\0\0", PAYLOAD),
];

// Whether the first bytes are no record, because of this fault.
fn is_refused(alloc: Global, refused: &Refused) -> bool {
    let (bytes, fault) = *refused;
    match decode(alloc, bytes, 0) {
        Err(DecodeEnd::Fault(found)) => found == fault && check(bytes, 0) == Err(fault),
        _ => false,
    }
}

fn first_not_refused(alloc: Global, hostile: &[Refused]) -> Option<usize> {
    for (at, refused) in hostile.iter().enumerate() {
        if !is_refused(alloc, refused) {
            return Some(at);
        }
    }
    None
}

#[test]
fn hostile_bytes_are_refused(rt: HostRuntime) -> Result<(), Fail> {
    no_other(first_not_refused(rt.alloc(), &HOSTILE))
}

// The longest record.
fn longest(alloc: Global) -> Result<Bytes, NoMemory> {
    let bytes = vec![in alloc; 7; 8_388_596]?;
    let mut text = List::from_slice(alloc, &[0x80, 0xff, 0xff, 0xff, 0, 2, 0, 0])?;
    text.extend(&bytes)?;
    Ok(text)
}

// An append of as many rows as one is written with at most.
fn longest_append(alloc: Global) -> Result<Bytes, NoMemory> {
    let mut text = List::from_slice(alloc, &[0x80, 0x88, 0x80, 0x82, 2, 0, 0, 0x10])?;
    for uid in 1..=65_536_u32 {
        text.extend(&uid.to_le_bytes())?;
        text.extend(&[8, 0, 0, 0])?;
    }
    Ok(text)
}

fn is_kept(alloc: Global, text: &Bytes) -> Result<bool, NoMemory> {
    let bytes = text.as_slice();
    goes_both_ways(alloc, bytes, 0, bytes.len(), bytes)
}

fn are_kept(alloc: Global) -> Result<bool, NoMemory> {
    Ok(is_kept(alloc, &longest(alloc)?)? && is_kept(alloc, &longest_append(alloc)?)?)
}

#[test]
fn long_records_both_ways(rt: HostRuntime) -> Result<(), Fail> {
    is_so(are_kept(rt.alloc()))
}
