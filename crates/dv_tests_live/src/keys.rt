use crate::follower::kept_key;
use dv_model::{Bytes, NoMemory};
use std::alloc::Global;
use std::test::Fail;

// Keys that may be kept.
const KEPT: [&str; 12] = [
    "ALL",
    "SEEN",
    "UNDRAFT",
    "KEYWORD k1",
    "UID 1:5,9",
    "NOT DELETED",
    "OR SEEN KEYWORD k1",
    "(SEEN)",
    "(SEEN UNDELETED UID 7)",
    "((SEEN))",
    "NOT (OR FLAGGED UID 4 DRAFT)",
    "OR NOT SEEN (ANSWERED UNFLAGGED)",
];

// Several keys, other case, spaces out of place, nothing, and keys that read messages or the
// largest UID, wherever they stand.
const NOT_KEPT: [&str; 23] = [
    "SEEN DELETED",
    "seen",
    "Seen",
    " SEEN",
    "SEEN ",
    "NOT  SEEN",
    "",
    "()",
    "(SEEN",
    "SEEN)",
    "KEYWORD (",
    "UID 0",
    "NOTHING",
    "UID *",
    "UID 1:*",
    "NOT UID *:4",
    "OR SEEN UID 2,*",
    "(SEEN UID *)",
    "LARGER 5",
    "NOT LARGER 5",
    "OR SEEN LARGER 5",
    "(SEEN HEADER Subject \"a\")",
    "HEADER Subject \"\"",
];

fn is_kept(alloc: Global, text: &[u8]) -> bool {
    kept_key(alloc, text).is_some()
}

// Fails by the first text of which it isn't so.
fn are_kept(alloc: Global, texts: &[&'static str], kept: bool) -> Result<(), Fail> {
    for text in texts {
        if is_kept(alloc, text.as_bytes()) != kept {
            return Err(Fail::from(*text));
        }
    }
    Ok(())
}

#[test]
fn a_steady_key_is_kept(rt: HostRuntime) -> Result<(), Fail> {
    are_kept(rt.alloc(), &KEPT, true)
}

#[test]
fn no_other_text_is_kept(rt: HostRuntime) -> Result<(), Fail> {
    are_kept(rt.alloc(), &NOT_KEPT, false)
}

// Whether ALL behind so many NOTs is kept.
fn is_kept_behind(alloc: Global, nots: u32) -> Result<bool, NoMemory> {
    let mut text = Bytes::new(alloc);
    for _ in 0..nots {
        text.extend(b"NOT ")?;
    }
    text.extend(b"ALL")?;
    Ok(is_kept(alloc, text.as_slice()))
}

// Whether keys nest in as many levels.
fn nest_in(alloc: Global, levels: u32) -> Result<bool, NoMemory> {
    Ok(is_kept_behind(alloc, levels.saturating_sub(1))? && !is_kept_behind(alloc, levels)?)
}

#[test]
fn keys_nest_in_32_levels(rt: HostRuntime) -> Result<(), Fail> {
    match nest_in(rt.alloc(), 32) {
        Ok(true) => Ok(()),
        _ => Err(Fail::from("other levels")),
    }
}
