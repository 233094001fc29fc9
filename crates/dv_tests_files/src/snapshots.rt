use dv_index::{IndexEnd, IndexFault, read, write};
use dv_model::{Bytes, Mailbox, Mark, NoMemory};
use std::alloc::Global;
use std::test::Fail;

// Two keywords, an extension with three bytes of each row, and two rows; place 164 is the first.
const TEXT: [u8; 212] = [
    201, 2, 120, 0, 164, 0, 0, 0, 24, 0, 0, 0, 0, 0, 0, 0, 7, 0, 0, 0, 0, 0, 0, 0, 5, 0, 0, 0, 8,
    0, 0, 0, 2, 0, 0, 0, 2, 0, 0, 0, 44, 1, 0, 0, 2, 0, 0, 0, 1, 0, 0, 0, 1, 0, 0, 0, 3, 0, 0, 0,
    2, 0, 0, 0, 1, 0, 0, 0, 9, 0, 0, 0, 0, 0, 0, 0, 0, 0, 0, 0, 0, 0, 0, 0, 0, 0, 0, 0, 0, 0, 0, 0,
    0, 0, 0, 0, 0, 0, 0, 0, 0, 0, 0, 0, 0, 0, 0, 0, 0, 0, 0, 0, 0, 0, 0, 0, 0, 0, 0, 0, 3, 0, 111,
    108, 100, 0, 0, 0, 3, 0, 110, 101, 119, 0, 0, 0, 9, 0, 0, 0, 3, 0, 0, 0, 3, 0, 4, 0, 0, 0, 5,
    0, 99, 97, 99, 104, 101, 0, 0, 0, 1, 2, 3, 0, 3, 0, 0, 0, 8, 0, 0, 0, 5, 0, 0, 0, 0, 0, 0, 0,
    1, 0, 0, 0, 10, 11, 12, 0, 7, 0, 0, 0, 12, 0, 0, 0, 9, 0, 0, 0, 0, 0, 0, 0, 3, 0, 0, 0, 0, 0,
    1, 0,
];

// One row, of version 1, at 1:72.
const OLD: [u8; 128] = [
    201, 1, 120, 0, 120, 0, 0, 0, 8, 0, 0, 0, 0, 0, 0, 0, 7, 0, 0, 0, 0, 0, 0, 0, 5, 0, 0, 0, 2, 0,
    0, 0, 1, 0, 0, 0, 1, 0, 0, 0, 72, 0, 0, 0, 0, 0, 0, 0, 0, 0, 0, 0, 0, 0, 0, 0, 0, 0, 0, 0, 0,
    0, 0, 0, 0, 0, 0, 0, 0, 0, 0, 0, 0, 0, 0, 0, 0, 0, 0, 0, 0, 0, 0, 0, 0, 0, 0, 0, 0, 0, 0, 0, 0,
    0, 0, 0, 0, 0, 0, 0, 0, 0, 0, 0, 0, 0, 0, 0, 0, 0, 0, 0, 0, 0, 0, 0, 0, 0, 0, 0, 1, 0, 0, 0, 0,
    0, 0, 0,
];

// A row's UID, flags and modification sequence, the places of its keywords, and its parts.
struct Row {
    numbers: (u32, u8, u64),
    keywords: &'static [u32],
    parts: &'static [&'static [u8]],
}

// A text, with the snapshot that it is.
struct Case {
    text: &'static [u8],
    indexid: u32,
    mark: Mark,
    version: u8,
    // The UIDVALIDITY, the UIDNEXT and the highest modification sequence.
    numbers: (u32, u32, u64),
    // How many keywords and extensions there are.
    counts: (usize, usize),
    rows: &'static [Row],
}

const CASES: [Case; 2] = [
    Case {
        text: &TEXT,
        indexid: 7,
        mark: Mark {
            file_seq: 2,
            offset: 300,
        },
        version: 2,
        numbers: (5, 8, 9),
        counts: (2, 1),
        rows: &[
            Row {
                numbers: (3, 8, 5),
                keywords: &[0],
                parts: &[&[10, 11, 12]],
            },
            Row {
                numbers: (7, 12, 9),
                keywords: &[0, 1],
                parts: &[&[0, 0, 1]],
            },
        ],
    },
    Case {
        text: &OLD,
        indexid: 7,
        mark: Mark {
            file_seq: 1,
            offset: 72,
        },
        version: 1,
        numbers: (5, 2, 1),
        counts: (0, 0),
        rows: &[Row {
            numbers: (1, 0, 1),
            keywords: &[],
            parts: &[],
        }],
    },
];

fn are_parts(parts: &[Bytes], expected: &[&[u8]]) -> bool {
    if parts.len() != expected.len() {
        return false;
    }
    for (part, bytes) in parts.iter().zip(expected) {
        if part.as_slice() != *bytes {
            return false;
        }
    }
    true
}

fn is_row(row: &dv_model::Row, expected: &Row) -> bool {
    (row.uid, row.flags, row.modseq) == expected.numbers
        && row.keywords.as_slice() == expected.keywords
        && are_parts(row.parts.as_slice(), expected.parts)
}

fn are_rows(rows: &[dv_model::Row], expected: &[Row]) -> bool {
    if rows.len() != expected.len() {
        return false;
    }
    for (row, other) in rows.iter().zip(expected) {
        if !is_row(row, other) {
            return false;
        }
    }
    true
}

fn is_mailbox(mailbox: &Mailbox, case: &Case) -> bool {
    (mailbox.uid_validity, mailbox.next_uid, mailbox.highest) == case.numbers
        && (mailbox.keywords.len(), mailbox.extensions.len()) == case.counts
        && are_rows(mailbox.rows.as_slice(), case.rows)
}

fn is_read(alloc: Global, case: &Case) -> bool {
    match read(alloc, case.text) {
        Ok((mailbox, indexid, mark, version)) => {
            (indexid, mark, version) == (case.indexid, case.mark, case.version)
                && is_mailbox(&mailbox, case)
        }
        Err(_) => false,
    }
}

fn are_read(alloc: Global, cases: &[Case]) -> Result<(), Fail> {
    for case in cases {
        if !is_read(alloc, case) {
            return Err(Fail::from(case.version));
        }
    }
    Ok(())
}

#[test]
fn texts_are_read_with_their_rows(rt: HostRuntime) -> Result<(), Fail> {
    are_read(rt.alloc(), &CASES)
}

// Whether a text is read, and what is read is written as the same text.
fn is_written(alloc: Global, text: &[u8]) -> Result<bool, IndexEnd> {
    let (mailbox, indexid, mark, _) = read(alloc, text)?;
    let again = write(alloc, &mailbox, indexid, mark)?;
    Ok(again.as_slice() == text)
}

fn passes(found: Result<bool, IndexEnd>) -> Result<(), Fail> {
    match found {
        Ok(true) => Ok(()),
        Ok(false) => Err(Fail::from("another text")),
        Err(end) => Err(Fail::from(end)),
    }
}

#[test]
fn what_is_read_is_written(rt: HostRuntime) -> Result<(), Fail> {
    passes(is_written(rt.alloc(), &TEXT))
}

// The text with another byte at a place.
fn changed(alloc: Global, text: &[u8], at: usize, byte: u8) -> Result<Bytes, NoMemory> {
    let mut bytes = Bytes::new(alloc);
    for place in 0..text.len() {
        bytes.push(if place == at { byte } else { text[place] })?;
    }
    Ok(bytes)
}

// Where a byte is changed, and to what, and the fault that is found then.
const FAULTS: [(usize, u8, IndexFault); 9] = [
    (1, 3, IndexFault::Version { byte: 3 }),
    (12, 1, IndexFault::Counts { check: 1 }),
    (122, b'(', IndexFault::Counts { check: 2 }),
    (8, 25, IndexFault::Counts { check: 3 }),
    (32, 3, IndexFault::Counts { check: 4 }),
    (52, 2, IndexFault::Counts { check: 5 }),
    (169, 1, IndexFault::Counts { check: 6 }),
    (60, 1, IndexFault::Counts { check: 7 }),
    (188, 3, IndexFault::Order { at: 188 }),
];

fn end_of(alloc: Global, at: usize, byte: u8) -> Result<Option<IndexEnd>, NoMemory> {
    let text = changed(alloc, &TEXT, at, byte)?;
    Ok(read(alloc, text.as_slice()).err())
}

// Fails by the place of the first byte whose change is another fault.
fn are_faults(alloc: Global, faults: &[(usize, u8, IndexFault)]) -> Result<(), Fail> {
    for (at, byte, fault) in faults {
        if end_of(alloc, *at, *byte) != Ok(Some(IndexEnd::Fault(*fault))) {
            return Err(Fail::from(*at));
        }
    }
    Ok(())
}

#[test]
fn fault_of_a_changed_byte_is_named(rt: HostRuntime) -> Result<(), Fail> {
    are_faults(rt.alloc(), &FAULTS)
}

// A text with so many keywords of three bytes, and one row, of UID 7 and the last keyword.
fn wide_text(alloc: Global, names: u16, size: u8, bits: &[u8]) -> Result<Bytes, NoMemory> {
    let header = 120 + 8 * u32::from(names);
    let mut text = Bytes::from_slice(alloc, &[201, 2, 120, 0])?;
    text.extend(&header.to_le_bytes())?;
    text.extend(&[
        size, 0, 0, 0, 0, 0, 0, 0, 7, 0, 0, 0, 0, 0, 0, 0, 5, 0, 0, 0, 8, 0, 0, 0,
    ])?;
    text.extend(&[1, 0, 0, 0, 1, 0, 0, 0, 92, 0, 0, 0])?;
    text.extend(&names.to_le_bytes())?;
    text.extend(&[0; 22])?;
    text.extend(&[4])?;
    text.extend(&[0; 51])?;
    for at in 0..names {
        text.extend(&[3, 0, 0x41 + (at / 26 % 26) as u8, 0x41 + (at % 26) as u8])?;
        text.extend(&[0x41 + (at / 676 % 26) as u8, 0, 0, 0])?;
    }
    text.extend(&[7, 0, 0, 0, 0, 0, 0, 0, 4, 0, 0, 0, 0, 0, 0, 0])?;
    text.extend(bits)?;
    Ok(text)
}

// A text with 2,048 keywords, and one row with the last one.
fn wide(alloc: Global) -> Result<Bytes, NoMemory> {
    let mut bits = [0; 256];
    bits[255] = 0x80;
    let text = wide_text(alloc, 2048, 16, &bits)?;
    changed(alloc, text.as_slice(), 9, 1)
}

fn count_keywords(alloc: Global, text: &[u8]) -> Result<usize, IndexEnd> {
    let (mailbox, _, _, _) = read(alloc, text)?;
    Ok(mailbox.keywords.len())
}

fn is_wide(alloc: Global, text: &[u8]) -> Result<bool, IndexEnd> {
    Ok(
        text.len() == 120 + 16384 + 272
            && count_keywords(alloc, text)? == 2048
            && is_written(alloc, text)?,
    )
}

fn tables_are_wide(alloc: Global) -> Result<bool, IndexEnd> {
    let text = wide(alloc)?;
    is_wide(alloc, text.as_slice())
}

#[test]
fn tables_of_sixteen_kilobytes_are_read_and_written(rt: HostRuntime) -> Result<(), Fail> {
    passes(tables_are_wide(rt.alloc()))
}
