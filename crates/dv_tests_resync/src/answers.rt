//! Answers as plain values.

use dv_model::{Bytes, Pair};
use dv_qresync::Answer;

/// What is to be heard.
#[derive(Clone, Copy)]
pub enum Told {
    Stale(u32),
    Vanished(&'static [(u32, u32)]),
    Highest(u64),
    /// Number, UID, flags, keywords and modification sequence.
    Fetch(u32, u32, u8, &'static [&'static [u8]], u64),
}

fn are_pairs(pairs: &[Pair], expected: &[(u32, u32)]) -> bool {
    if pairs.len() != expected.len() {
        return false;
    }
    for (pair, ends) in pairs.iter().zip(expected) {
        if pair.first != ends.0 || pair.last != ends.1 {
            return false;
        }
    }
    true
}

fn are_names(names: &[Bytes], expected: &[&[u8]]) -> bool {
    if names.len() != expected.len() {
        return false;
    }
    for (name, other) in names.iter().zip(expected) {
        if name.as_slice() != *other {
            return false;
        }
    }
    true
}

fn is_answer(a: &Answer, told: Told) -> bool {
    match (a, told) {
        (Answer::Stale(validity), Told::Stale(expected)) => *validity == expected,
        (Answer::Vanished(pairs), Told::Vanished(expected)) => are_pairs(
            pairs.as_slice(),
            expected,
        ),
        (Answer::Highest(n), Told::Highest(expected)) => *n == expected,
        (
            Answer::Fetch {
                number,
                uid,
                flags,
                keywords,
                modseq,
            },
            Told::Fetch(place, row, bits, names, last),
        ) => {
            *number == place
                && *uid == row
                && *flags == bits
                && are_names(keywords.as_slice(), names)
                && *modseq == last
        }
        _ => false,
    }
}

/// Whether these are the answers.
pub fn are_answers(answers: &[Answer], told: &[Told]) -> bool {
    if answers.len() != told.len() {
        return false;
    }
    for (a, expected) in answers.iter().zip(told) {
        if !is_answer(a, *expected) {
            return false;
        }
    }
    true
}
