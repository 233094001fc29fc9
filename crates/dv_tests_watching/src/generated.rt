//! Generated scripts beside which searches of keys of every kind are kept.

use crate::searching::agrees;
use dv_gen::script;
use dv_model::{Bytes, NoMemory};
use dv_script::print_script;
use std::alloc::Global;
use std::ops::Range;
use std::test::*;

// The commands of one script.
const COMMANDS: u32 = 10;

// Keys of one word or two, in which `k` is a keyword of the script.
const WORDS: [&[u8]; 14] = [
    b"ALL",
    b"ANSWERED",
    b"FLAGGED",
    b"DELETED",
    b"SEEN",
    b"DRAFT",
    b"UNANSWERED",
    b"UNFLAGGED",
    b"UNDELETED",
    b"UNSEEN",
    b"UNDRAFT",
    b"KEYWORD k",
    b"UID 3:7",
    b"UID 12,1:2,9",
];

// Keys of one or two of these, which are `a` and `b`.
const SHAPES: [&[u8]; 9] = [
    b"a",
    b"NOT a",
    b"OR a b",
    b"(a b)",
    b"((a))",
    b"NOT (a b)",
    b"OR NOT a b",
    b"NOT OR (a b) NOT a",
    b"(OR a KEYWORD k NOT b)",
];

// The text with other bytes for each of a letter.
fn replaced(alloc: Global, text: &[u8], letter: u8, by: &[u8]) -> Result<Bytes, NoMemory> {
    let mut made = Bytes::new(alloc);
    for byte in text {
        if *byte == letter {
            made.extend(by)?;
        } else {
            made.push(*byte)?;
        }
    }
    Ok(made)
}

// The first keyword of a script, or one that it doesn't have.
fn keyword_of(script: &[u8]) -> &[u8] {
    for part in script.split(|b| *b == b'(') {
        if part.starts_with(b"k") {
            return part.split(|b| *b == b')').next().unwrap_or(b"k0");
        }
    }
    b"k0"
}

// The key of a seed.
fn key_of(alloc: Global, seed: u32, script: &[u8]) -> Result<Bytes, NoMemory> {
    let shape = SHAPES[(seed % 9) as usize];
    let one = WORDS[(seed / 9 % 14) as usize];
    let other = WORDS[(seed / 5 % 14) as usize];
    let text = replaced(alloc, shape, b'a', one)?;
    let text = replaced(alloc, text.as_slice(), b'b', other)?;
    replaced(alloc, text.as_slice(), b'k', keyword_of(script))
}

// Whether the result told of a seed's key beside its script is what another session finds.
fn agrees_of(alloc: Global, seed: u32) -> Result<bool, Fail> {
    let lines = script(alloc, u64::from(seed), COMMANDS, 3)?;
    let text = print_script(alloc, &lines)?;
    let key = key_of(alloc, seed, text.as_slice())?;
    agrees(alloc, text.as_slice(), key.as_slice())
}

// The first of these seeds of which it isn't.
fn first_other(alloc: Global, seeds: Range<u32>) -> Result<Option<u32>, Fail> {
    for seed in seeds {
        if !agrees_of(alloc, seed)? {
            return Ok(Some(seed));
        }
    }
    Ok(None)
}

#[test]
fn scripts_to_250_agree(rt: HostRuntime) -> Result<(), Fail> {
    assert_eq!(rt; first_other(rt.alloc(), 0..250)?, None);
    Ok(())
}

#[test]
fn scripts_to_500_agree(rt: HostRuntime) -> Result<(), Fail> {
    assert_eq!(rt; first_other(rt.alloc(), 250..500)?, None);
    Ok(())
}

#[test]
fn scripts_to_750_agree(rt: HostRuntime) -> Result<(), Fail> {
    assert_eq!(rt; first_other(rt.alloc(), 500..750)?, None);
    Ok(())
}

#[test]
fn scripts_to_1000_agree(rt: HostRuntime) -> Result<(), Fail> {
    assert_eq!(rt; first_other(rt.alloc(), 750..1000)?, None);
    Ok(())
}
