use crate::ends::{is_so, no_other};
use dv_dbox::{BoxEnd, BoxFault, Message, read, write};
use dv_model::Bytes;
use std::alloc::{AllocError, Global};
use std::test::Fail;

const HELLO: &[u8] = b"Subject: Hello\r\n world\r\n\r\nHi\n";

const USUAL: &[u8] =
    b"2 M1e C4a6f7b2c\n\x01\x02N          000000000000001D\nSubject: Hello\r\n world\r\n\r\nHi\n\n\x01\x03\nG0123456789abcdef0123456789ABCDEF\nR4a6f7b2c\nZ1d\nV1e\nXabc\n\n";

const WRITTEN: &[u8] =
    b"2 M1e C4a6f7b2c\n\x01\x02N          000000000000001d\nSubject: Hello\r\n world\r\n\r\nHi\n\n\x01\x03\nG0123456789abcdef0123456789abcdef\nR4a6f7b2c\nZ1d\nV1e\n\n";

const FIRST: &[u8] =
    b"2 M1e C3e9\n\x01\x02N          0000000000000005\nhello\n\x01\x03\nG000003e8000003e800000001000003e9\nR3e9\nZ5\nV5\n\n";

const GUID: [u8; 16] = [
    0x01, 0x23, 0x45, 0x67, 0x89, 0xab, 0xcd, 0xef, 0x01, 0x23, 0x45, 0x67, 0x89, 0xab, 0xcd, 0xef,
];

const FIRST_GUID: [u8; 16] = [
    0x00, 0x00, 0x03, 0xe8, 0x00, 0x00, 0x03, 0xe8, 0x00, 0x00, 0x00, 0x01, 0x00, 0x00, 0x03, 0xe9,
];

// The numbers of a message: its stamp, its GUID, when it was received, and both sizes.
type Numbers = (u32, Option<[u8; 16]>, Option<u64>, Option<u64>, Option<u64>);

// A file with the message that it holds: its bytes, its numbers, and the lines of other keys.
struct Held {
    file: &'static [u8],
    bytes: &'static [u8],
    numbers: Numbers,
    others: &'static [&'static [u8]],
}

const HELD: [Held; 2] = [
    Held {
        file: USUAL,
        bytes: HELLO,
        numbers: (
            0x4a6f_7b2c,
            Some(GUID),
            Some(0x4a6f_7b2c),
            Some(29),
            Some(30),
        ),
        others: &[b"Xabc"],
    },
    Held {
        file: FIRST,
        bytes: b"hello",
        numbers: (1001, Some(FIRST_GUID), Some(1001), Some(5), Some(5)),
        others: &[],
    },
];

fn are_lines(lines: &[Bytes], expected: &[&[u8]]) -> bool {
    if lines.len() != expected.len() {
        return false;
    }
    for (line, bytes) in lines.iter().zip(expected) {
        if line.as_slice() != *bytes {
            return false;
        }
    }
    true
}

fn has_numbers(m: &Message, numbers: &Numbers) -> bool {
    m.stamp == numbers.0
        && m.guid == numbers.1
        && m.received == numbers.2
        && m.physical == numbers.3
        && m.virtual_size == numbers.4
}

fn is_held(alloc: Global, held: &Held) -> bool {
    match read(alloc, held.file) {
        Ok(m) => {
            m.bytes.as_slice() == held.bytes
                && has_numbers(&m, &held.numbers)
                && are_lines(m.others.as_slice(), held.others)
        }
        Err(_) => false,
    }
}

fn first_not_held(alloc: Global, files: &[Held]) -> Option<usize> {
    for (at, held) in files.iter().enumerate() {
        if !is_held(alloc, held) {
            return Some(at);
        }
    }
    None
}

#[test]
fn files_are_read(rt: HostRuntime) -> Result<(), Fail> {
    no_other(first_not_held(rt.alloc(), &HELD))
}

// When a message was received and saved, its GUID, its bytes, and its file.
type Written = (u32, [u8; 16], &'static [u8], &'static [u8]);

const FILES: [Written; 2] = [
    (1001, FIRST_GUID, b"hello", FIRST),
    (0x4a6f_7b2c, GUID, HELLO, WRITTEN),
];

fn is_written(alloc: Global, written: &Written) -> bool {
    let (time, guid, message, file) = *written;
    match write(alloc, time, &guid, time, message) {
        Ok(text) => text.as_slice() == file,
        Err(_) => false,
    }
}

fn first_not_written(alloc: Global, files: &[Written]) -> Option<usize> {
    for (at, written) in files.iter().enumerate() {
        if !is_written(alloc, written) {
            return Some(at);
        }
    }
    None
}

#[test]
fn files_are_written(rt: HostRuntime) -> Result<(), Fail> {
    no_other(first_not_written(rt.alloc(), &FILES))
}

// A file that breaks the form at one place, and its fault.
type Broken = (&'static [u8], BoxFault);

const FAULTS: [Broken; 6] = [
    (b"2 M1f C1\n", BoxFault::BadHeader),
    (
        b"2 M1e C1\n\x01\x02N         x0000000000000000\n\n\x01\x03\n\n",
        BoxFault::BadMessageHeader,
    ),
    (
        b"2 M1e C1\n\x01\x02N          ffffffffffffffff\n\n\x01\x03\n\n",
        BoxFault::BadSize,
    ),
    (
        b"2 M1e C1\n\x01\x02N          0000000000000001\n\n\x01\x03\n\n",
        BoxFault::BadEnd,
    ),
    (
        b"2 M1e C1\n\x01\x02N          0000000000000000\n\n\x01\x03\nR1\n",
        BoxFault::BadMetadata,
    ),
    (
        b"2 M1e C1\n\x01\x02N          0000000000000000\n\n\x01\x03\nG00\n\n",
        BoxFault::BadMetadata,
    ),
];

fn has_fault(alloc: Global, broken: &Broken) -> bool {
    match read(alloc, broken.0) {
        Err(BoxEnd::Fault(fault)) => fault == broken.1,
        _ => false,
    }
}

fn first_other_fault(alloc: Global, files: &[Broken]) -> Option<usize> {
    for (at, broken) in files.iter().enumerate() {
        if !has_fault(alloc, broken) {
            return Some(at);
        }
    }
    None
}

#[test]
fn first_broken_part_is_named(rt: HostRuntime) -> Result<(), Fail> {
    no_other(first_other_fault(rt.alloc(), &FAULTS))
}

// Whether a message is read of its file with both of these sizes.
fn is_read(alloc: Global, file: &[u8], message: &[u8], sizes: (u64, u64)) -> bool {
    match read(alloc, file) {
        Ok(m) => {
            m.bytes.as_slice() == message
                && m.physical == Some(sizes.0)
                && m.virtual_size == Some(sizes.1)
        }
        Err(_) => false,
    }
}

// Whether a message of so many line feeds is written and read, with these sizes.
fn are_read(alloc: Global, count: usize, sizes: (u64, u64)) -> Result<bool, AllocError> {
    let message = vec![in alloc; b'\n'; count]?;
    match write(alloc, 1001, &FIRST_GUID, 1001, &message) {
        Ok(text) => Ok(is_read(alloc, text.as_slice(), &message, sizes)),
        Err(_) => Ok(false),
    }
}

// The longest message that is taken, of line feeds alone: sent, each has two bytes.
#[test]
fn message_of_32_mebibytes_both_ways(rt: HostRuntime) -> Result<(), Fail> {
    is_so(are_read(rt.alloc(), 33_554_432, (33_554_432, 67_108_864)))
}
