use crate::runs::is_kept;
use dv_model::{Bytes, NoMemory};
use std::alloc::Global;
use std::test::*;

// One key each.
const TAKEN: &[&[u8]] = &[
    b"ALL",
    b"SEEN",
    b"UNDRAFT",
    b"KEYWORD k1",
    b"UID 7",
    b"UID 1:5,9",
    b"NOT DELETED",
    b"NOT NOT SEEN",
    b"OR SEEN KEYWORD k1",
    b"(SEEN)",
    b"((SEEN))",
    b"(SEEN DELETED)",
    b"(SEEN UID 7)",
    b"NOT (OR FLAGGED UID 4 DRAFT)",
    b"OR NOT SEEN (ANSWERED UNFLAGGED)",
];

const REFUSED: &[&[u8]] = &[
    // Two keys, and none.
    b"SEEN DELETED",
    b"NOT SEEN DELETED",
    b"OR SEEN DELETED DRAFT",
    b"(SEEN) (DELETED)",
    b"",
    b"()",
    b"NOT",
    b"NOT ",
    b"OR SEEN",
    b"OR SEEN ",
    // Another case.
    b"seen",
    b"Seen",
    b"not SEEN",
    b"OR SEEN keyword k1",
    b"uid 7",
    // Spaces out of place.
    b" ",
    b" SEEN",
    b"SEEN ",
    b"NOT  SEEN",
    b"OR SEEN  DRAFT",
    b"( SEEN)",
    b"(SEEN )",
    b"(SEEN  DRAFT)",
    b"KEYWORD  k1",
    b"UID 1, 2",
    b"SEEN\n",
    b"\tSEEN",
    // Parentheses out of place, and words that are none.
    b"(SEEN",
    b"SEEN)",
    b"\"SEEN\"",
    b"UNALL",
    b"KEYWORD",
    b"UID 0",
    b"UID 4294967296",
    // The largest UID.
    b"UID *",
    b"UID 1:*",
    b"NOT UID *:4",
    b"NOT NOT UID 2,*",
    b"OR SEEN UID 2,*",
    b"OR UID * SEEN",
    b"(SEEN UID *)",
    b"((UID *))",
    b"NOT (OR FLAGGED UID *:4 DRAFT)",
    // Messages that are read.
    b"LARGER 5",
    b"NOT LARGER 5",
    b"OR SEEN LARGER 5",
    b"OR LARGER 5 SEEN",
    b"(LARGER 5)",
    b"(SEEN LARGER 5)",
    b"NOT (OR FLAGGED LARGER 5 DRAFT)",
    b"HEADER Subject \"\"",
    b"NOT HEADER Subject \"a\"",
    b"OR SEEN HEADER Subject \"a\"",
    b"OR HEADER Subject \"a\" SEEN",
    b"(HEADER Subject \"a\")",
    b"(SEEN HEADER Subject \"a\")",
    b"NOT (OR FLAGGED HEADER Subject \"a\" DRAFT)",
];

// The place of the first of these texts that isn't taken as a key, or is, where none is to be.
fn first_other(alloc: Global, texts: &[&[u8]], taken: bool) -> Result<Option<usize>, Fail> {
    for (at, text) in texts.iter().enumerate() {
        if is_kept(alloc, text)? != taken {
            return Ok(Some(at));
        }
    }
    Ok(None)
}

#[test]
fn one_steady_key_is_taken(rt: HostRuntime) -> Result<(), Fail> {
    assert_eq!(rt; first_other(rt.alloc(), TAKEN, true)?, None);
    Ok(())
}

#[test]
fn other_texts_are_refused(rt: HostRuntime) -> Result<(), Fail> {
    assert_eq!(rt; first_other(rt.alloc(), REFUSED, false)?, None);
    Ok(())
}

// What stands before and behind a key inside.
const LAYERS: [(&[u8], &[u8]); 4] = [
    (b"NOT ", b""),
    (b"(", b")"),
    (b"OR ", b" SEEN"),
    (b"(DRAFT ", b")"),
];

// ALL inside so many layers.
fn nested(alloc: Global, layer: (&[u8], &[u8]), count: u32) -> Result<Bytes, NoMemory> {
    let mut text = Bytes::new(alloc);
    for _ in 0..count {
        text.extend(layer.0)?;
    }
    text.extend(b"ALL")?;
    for _ in 0..count {
        text.extend(layer.1)?;
    }
    Ok(text)
}

// Whether ALL is taken inside 31 layers, and not inside 32.
fn nests_in_32_levels(alloc: Global, layer: (&[u8], &[u8])) -> Result<bool, Fail> {
    let deepest = nested(alloc, layer, 31)?;
    let deeper = nested(alloc, layer, 32)?;
    Ok(is_kept(alloc, deepest.as_slice())? && !is_kept(alloc, deeper.as_slice())?)
}

#[test]
fn keys_nest_in_32_levels(rt: HostRuntime) -> Result<(), Fail> {
    for layer in LAYERS {
        assert!(rt; nests_in_32_levels(rt.alloc(), layer)?);
    }
    Ok(())
}
