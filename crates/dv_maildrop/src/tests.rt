use crate::{
    Asked, Found, Listed, Maildrop, PopLine, Removal, open_lines, put_found, put_greeting,
};
use dv_model::{Bytes, End, List, NoMemory};
use std::alloc::Global;
use std::test::*;

// A maildrop of messages of these sizes, the k-th with UID 10 k, under UIDVALIDITY 9.
fn maildrop_of(alloc: Global, sizes: &[u64]) -> Result<Maildrop, NoMemory> {
    let mut rows = List::new(alloc);
    let mut uid: u32 = 0;
    for size in sizes {
        uid = uid.wrapping_add(10);
        rows.push(Listed { uid, size: *size })?;
    }
    Maildrop::new(alloc, 9, rows)
}

// Answers a line, where the store has this message for each UID and removes what it is asked to.
fn answer_line(
    alloc: Global,
    maildrop: &mut Maildrop,
    line: PopLine,
    message: &[u8],
    text: &mut Bytes,
) -> Result<(), NoMemory> {
    match maildrop.asked(&line) {
        Asked::Nothing => maildrop.answer(&line, text),
        Asked::Message(row) => {
            let held = Found::Held(List::from_slice(alloc, message)?);
            put_found(text, row, &held)
        }
        Asked::Removal => maildrop.quit(Removal::Done, text),
    }
}

// What is said in a session of a script's lines.
fn spoken(alloc: Global, sizes: &[u64], message: &[u8], script: &[u8]) -> Result<Bytes, NoMemory> {
    let mut maildrop = maildrop_of(alloc, sizes)?;
    let mut text = List::new(alloc);
    put_greeting(&mut text)?;
    let Some(mut lines) = open_lines(script) else {
        return Ok(text);
    };
    for _line in 0..script.len() {
        if maildrop.has_ended() {
            return Ok(text);
        }
        let Some(line) = lines.next() else {
            return Ok(text);
        };
        answer_line(alloc, &mut maildrop, line, message, &mut text)?;
    }
    Ok(text)
}

fn says(
    alloc: Global,
    sizes: &[u64],
    message: &[u8],
    script: &[u8],
    wanted: &[u8],
) -> Result<bool, NoMemory> {
    let text = spoken(alloc, sizes, message, script)?;
    Ok(text.as_slice() == wanted)
}

// Sizes, the bytes of each message, a script, and what is said.
const CASES: [(&[u64], &[u8], &[u8], &[u8]); 12] = [
    // No lines.
    (&[5], b"", b"", b"+OK\r\n"),
    // No messages.
    (
        &[],
        b"",
        b"STAT\nLIST\nUIDL\nLIST 1\nRETR 1\nDELE 1\nQUIT\n",
        b"+OK\r\n+OK 0 0\r\n+OK\r\n.\r\n+OK\r\n.\r\n-ERR NONE\r\n-ERR NONE\r\n-ERR NONE\r\n+OK\r\n",
    ),
    // Lines of no command.
    (
        &[5],
        b"",
        b"stat\n STAT\nSTAT \nLIST  1\nRETR\nDELE x\nRETR 01\nQUIT 1\n\n#\n",
        b"+OK\r\n-ERR LINE\r\n-ERR LINE\r\n-ERR LINE\r\n-ERR LINE\r\n-ERR LINE\r\n-ERR LINE\r\n-ERR LINE\r\n-ERR LINE\r\n-ERR LINE\r\n-ERR LINE\r\n",
    ),
    // A return that no line feed follows belongs to its line.
    (
        &[5],
        b"",
        b"NOOP\r\nNO\rOP\nNOOP\r",
        b"+OK\r\n+OK\r\n-ERR LINE\r\n-ERR LINE\r\n",
    ),
    // The last line ends with the script, and numbers go up to 2^32 - 1.
    (
        &[5],
        b"",
        b"RETR 0\nLIST 4294967295\nLIST 4294967296\nNOOP",
        b"+OK\r\n-ERR NONE\r\n-ERR NONE\r\n-ERR LINE\r\n+OK\r\n",
    ),
    // Marks, and numbers that stay.
    (
        &[5, 7, 11],
        b"",
        b"DELE 2\nDELE 2\nRETR 2\nSTAT\nLIST\nUIDL 3\nLIST 2\nRSET\nSTAT\nLIST 2\n",
        b"+OK\r\n+OK\r\n-ERR NONE\r\n-ERR NONE\r\n+OK 2 16\r\n+OK\r\n1 5\r\n3 11\r\n.\r\n+OK 3 9.30\r\n-ERR NONE\r\n+OK\r\n+OK 3 23\r\n+OK 2 7\r\n",
    ),
    (
        &[5, 7],
        b"",
        b"DELE 2\nDELE 1\nUIDL\nSTAT\nQUIT\nNOOP\n",
        b"+OK\r\n+OK\r\n+OK\r\n+OK\r\n.\r\n+OK 0 0\r\n+OK\r\n",
    ),
    // A sum above 2^64.
    (
        &[0xffff_ffff_ffff_ffff, 3],
        b"",
        b"STAT\n",
        b"+OK\r\n+OK 2 18446744073709551618\r\n",
    ),
    // Messages.
    (&[0], b"", b"RETR 1\n", b"+OK\r\n+OK 0\r\n.\r\n"),
    (&[2], b"a\r", b"RETR 1\n", b"+OK\r\n+OK 2\r\na\r\r\n.\r\n"),
    (
        &[9],
        b".\r\n\n..\nx.\r\n",
        b"RETR 1\n",
        b"+OK\r\n+OK 9\r\n..\r\n\r\n...\r\nx.\r\n.\r\n",
    ),
    (&[9], b"\n\n", b"RETR 1\n", b"+OK\r\n+OK 9\r\n\r\n\r\n.\r\n"),
];

#[test]
fn lines_are_answered(rt: HostRuntime) {
    for (sizes, message, script, wanted) in CASES {
        assert_eq!(rt; says(rt.alloc(), sizes, message, script, wanted), Ok(true));
    }
}

// The answers to a RETR and a QUIT of which the store says so.
fn refusals(alloc: Global, found: &Found, removal: Removal) -> Result<Bytes, NoMemory> {
    let mut maildrop = maildrop_of(alloc, &[5])?;
    let mut text = List::new(alloc);
    if let Asked::Message(row) = maildrop.asked(&PopLine::Retr(1)) {
        put_found(&mut text, row, found)?;
    }
    maildrop.answer(&PopLine::Noop, &mut text)?;
    maildrop.quit(removal, &mut text)?;
    Ok(text)
}

fn refuses(
    alloc: Global,
    found: &Found,
    removal: Removal,
    wanted: &[u8],
) -> Result<bool, NoMemory> {
    let text = refusals(alloc, found, removal)?;
    Ok(text.as_slice() == wanted)
}

#[test]
fn stores_refuse(rt: HostRuntime) {
    let cases: [(Found, Removal, &[u8]); 3] = [
        (
            Found::Gone,
            Removal::Disk(7),
            b"-ERR GONE\r\n+OK\r\n-ERR DISK 7\r\n",
        ),
        (
            Found::Damaged,
            Removal::TooLong(8),
            b"-ERR DAMAGED\r\n+OK\r\n-ERR BYTES 8\r\n",
        ),
        (
            Found::Disk(18446744073709551615),
            Removal::Done,
            b"-ERR DISK 18446744073709551615\r\n+OK\r\n+OK\r\n",
        ),
    ];
    for (found, removal, wanted) in &cases {
        assert_eq!(rt; refuses(rt.alloc(), found, *removal, wanted), Ok(true));
    }
}

// The UIDs of the marked messages behind these marks.
fn marked_uids(alloc: Global, marks: &[u32]) -> Result<List<u32>, NoMemory> {
    let mut maildrop = maildrop_of(alloc, &[5, 7, 11])?;
    let mut text = List::new(alloc);
    for mark in marks {
        answer_line(alloc, &mut maildrop, PopLine::Dele(*mark), b"", &mut text)?;
    }
    let mut uids = List::new(alloc);
    for span in maildrop.marked_set(alloc)?.as_slice() {
        if let End::Number(uid) = span.from {
            uids.push(uid)?;
        }
    }
    Ok(uids)
}

fn marks(alloc: Global, numbers: &[u32], wanted: &[u32]) -> Result<bool, NoMemory> {
    let uids = marked_uids(alloc, numbers)?;
    Ok(uids.as_slice() == wanted)
}

#[test]
fn marked_messages_are_named(rt: HostRuntime) {
    let cases: [(&[u32], &[u32]); 3] = [(&[], &[]), (&[3, 1, 3, 4], &[10, 30]), (&[2], &[20])];
    for (numbers, wanted) in cases {
        assert_eq!(rt; marks(rt.alloc(), numbers, wanted), Ok(true));
    }
}
