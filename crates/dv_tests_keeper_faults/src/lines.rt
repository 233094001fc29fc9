//! Lines of what was told.

use dv_model::Bytes;
use std::alloc::{AllocError, Global};

/// What the line of a command has that the disk failed.
pub const UNAVAILABLE: &[u8] = b" NO [UNAVAILABLE] FAULTS ";

/// What the line of an answer has that tells a place of the log.
pub const MARK: &[u8] = b"[MARK ";

/// The bytes of a text from one place up to another; none where there are no such places.
pub fn part(text: &[u8], from: usize, to: usize) -> &[u8] {
    if from <= to && to <= text.len() {
        &text[from..to]
    } else {
        &[]
    }
}

/// Whether a text has these bytes.
pub fn has(text: &[u8], word: &[u8]) -> bool {
    for at in 0..text.len() {
        if text[at..].starts_with(word) {
            return true;
        }
    }
    false
}

/// The lines of a text that don't have these bytes, and how many have them.
pub fn without(alloc: Global, text: &[u8], word: &[u8]) -> Result<(Bytes, u64), AllocError> {
    let mut kept = Bytes::new(alloc);
    let mut count = 0u64;
    let mut from = 0usize;
    for at in 0..text.len() {
        if text[at] == b'\n' {
            let line = part(text, from, at + 1);
            if has(line, word) {
                count = count.saturating_add(1);
            } else {
                kept.extend(line)?;
            }
            from = at + 1;
        }
    }
    Ok((kept, count))
}
