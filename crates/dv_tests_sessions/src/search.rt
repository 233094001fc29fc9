use crate::cases::{Case, all_hold};
use crate::mailboxes::{command_of, live_of};
use dv_apply::Live;
use dv_model::{Boxed, Bytes, Command, Key, List, NoMemory};
use dv_search::{Mail, MailFacts, eval, is_shallow, needs_mail};
use dv_view::View;
use std::alloc::Global;
use std::test::Fail;

// UID 3 with the flag Seen, UID 5 with Draft, and UID 9.
const APPEND: &[u8] =
    b"\x80\x80\x80\x88\x02\0\0\x10\x03\0\0\0\x08\0\0\0\x05\0\0\0\x10\0\0\0\x09\0\0\0\0\0\0\0";

// UIDs 5 to 9 get the keyword k1.
const ADD_K1: &[u8] = b"\x80\x80\x80\x86\0\x04\0\x10\0\0\x02\0k1\0\0\x05\0\0\0\x09\0\0\0";

fn key_of(alloc: Global, search: &str) -> Result<Key, NoMemory> {
    match command_of(alloc, search.as_bytes(), b"")? {
        Command::Search { key, .. } => Ok(key),
        _ => Err(NoMemory),
    }
}

fn subject(alloc: Global) -> Result<List<(Bytes, Option<Bytes>)>, NoMemory> {
    let name = Bytes::from_slice(alloc, b"Subject")?;
    let value = Bytes::from_slice(alloc, b"Hello World")?;
    let mut fields = List::new(alloc);
    fields.push((name, Some(value)))?;
    Ok(fields)
}

// What is known of UID 3: five bytes, and its subject.
fn mail_of(alloc: Global) -> Result<Mail, NoMemory> {
    let fields = subject(alloc)?;
    let mut mail = Mail::new(alloc);
    mail.push(MailFacts {
        uid: 3,
        size: 5,
        body: None,
        fields,
    })?;
    Ok(mail)
}

// Whether these rows are found. Each value has one owner, so that it is let go in one place.
fn are_found(
    alloc: Global,
    key: &Key,
    view: &View,
    live: &Live,
    expected: &[u32],
) -> Result<bool, NoMemory> {
    if !is_shallow(key) {
        return Err(NoMemory);
    }
    let mail = mail_of(alloc)?;
    let found = eval(alloc, key, view, live, &mail)?;
    Ok(found.as_slice() == expected)
}

fn finds_in(alloc: Global, key: &Key, live: &Live, expected: &[u32]) -> Result<bool, NoMemory> {
    let view = View::of(alloc, live)?;
    are_found(alloc, key, &view, live, expected)
}

fn key_finds(alloc: Global, key: &Key, expected: &[u32]) -> Result<bool, NoMemory> {
    let live = live_of(alloc, 1, &[APPEND, ADD_K1])?;
    finds_in(alloc, key, &live, expected)
}

/// Whether these of the three rows are found; of the second and the third no message is known.
pub fn finds(alloc: Global, search: &str, expected: &[u32]) -> Result<bool, NoMemory> {
    let key = key_of(alloc, search)?;
    key_finds(alloc, &key, expected)
}

// The key behind NOT so often.
fn behind_nots(alloc: Global, count: u32, key: Key) -> Result<Key, NoMemory> {
    let mut key = key;
    for _ in 0..count {
        key = Key::Not(Boxed::new(alloc, key)?);
    }
    Ok(key)
}

fn nests_so(key: &Key, reads: Option<bool>) -> bool {
    match reads {
        Some(reads) => is_shallow(key) && needs_mail(key) == reads,
        None => !is_shallow(key),
    }
}

/// Whether the key behind so many NOTs nests in its bounds, and whether it reads messages then.
pub fn nests(
    alloc: Global,
    nots: u32,
    search: &str,
    reads: Option<bool>,
) -> Result<bool, NoMemory> {
    let key = behind_nots(alloc, nots, key_of(alloc, search)?)?;
    Ok(nests_so(&key, reads))
}

const CASES: [(&str, Case); 8] = [
    (
        "NOT before OR",
        Case::Finds("SEARCH NOT OR SEEN DRAFT", &[3]),
    ),
    (
        "keys in parentheses",
        Case::Finds("SEARCH OR SEEN (DRAFT KEYWORD k1)", &[1, 2]),
    ),
    ("a size", Case::Finds("SEARCH LARGER 4", &[1])),
    (
        "a part of a field",
        Case::Finds("SEARCH HEADER Subject \"LO w\"", &[1]),
    ),
    (
        "no part of a field",
        Case::Finds("SEARCH HEADER Subject \"worlds\"", &[]),
    ),
    (
        "the deepest key",
        Case::Nests(32, "SEARCH ALL", Some(false)),
    ),
    (
        "a key that is too deep",
        Case::Nests(33, "SEARCH ALL", None),
    ),
    (
        "a size inside keys",
        Case::Nests(0, "SEARCH OR SEEN NOT (ALL LARGER 4)", Some(true)),
    ),
];

#[test]
fn keys_find_rows_and_nest(rt: HostRuntime) -> Result<(), Fail> {
    all_hold(rt.alloc(), &CASES)
}
