//! Cases of tests as values, and how they are played.

use crate::groups::{Removal, leaves, limit_at};
use crate::responses::{Asked, is_answered, selects};
use crate::search::{finds, nests};
use crate::sets::{are_flags, are_no_flags, is_no_set, is_printed, misses, names};
use crate::view::{Line, Turn, are_right, is_right};
use dv_groups::Limit;
use dv_model::{NoMemory, Step};
use std::alloc::Global;
use std::test::Fail;

/// What is done, and what must come of it.
pub enum Case {
    Answer(Asked),
    /// What a SELECT says of the mailbox of these records.
    Select(&'static [&'static [u8]], &'static [u8]),
    Removes(Removal),
    /// A CHECK of so many bytes fits near the end of the last file.
    Fits(u64),
    /// One of so many is too long there, and the limit tells them.
    IsTooLong(u64),
    /// A search, and the numbers of the rows that are found.
    Finds(&'static str, &'static [u32]),
    /// So many NOTs, the key behind them, and whether it reads messages, if it nests in its bounds.
    Nests(u32, &'static str, Option<bool>),
    /// A set beside the UIDs of rows: the numbers that it names, and those that it names by UIDs.
    Names {
        set: &'static str,
        rows: &'static [u32],
        by_number: &'static [u32],
        by_uid: &'static [u32],
    },
    /// A set that names a number that none of the rows with these UIDs has.
    Misses(&'static str, &'static [u32], u32),
    /// A set, and how it is printed.
    Printed(&'static str, &'static str),
    /// A flag list, the bits of its system flags, and how it is printed.
    Flags(&'static str, u8, &'static str),
    /// A text that is neither a set nor a flag list.
    Neither(&'static str),
    /// A view that moves by records, one after another.
    Turns(&'static [Turn]),
    /// One that moves twice by changes, with what is said of the second move.
    Changes(Step, &'static [Line]),
}

fn is_too_long(alloc: Global, bytes: u64) -> bool {
    match limit_at(alloc, bytes) {
        Some(Limit::TooLong { bytes: told }) => told == bytes,
        _ => false,
    }
}

fn is_neither(alloc: Global, text: &[u8]) -> bool {
    is_no_set(alloc, text) && are_no_flags(alloc, text)
}

fn holds(alloc: Global, case: &Case) -> Result<bool, NoMemory> {
    match case {
        Case::Answer(asked) => is_answered(alloc, asked),
        Case::Select(records, says) => selects(alloc, records, says),
        Case::Removes(removal) => leaves(alloc, removal),
        Case::Fits(bytes) => Ok(limit_at(alloc, *bytes).is_none()),
        Case::IsTooLong(bytes) => Ok(is_too_long(alloc, *bytes)),
        Case::Finds(search, numbers) => finds(alloc, search, numbers),
        Case::Nests(nots, search, reads) => nests(alloc, *nots, search, *reads),
        Case::Names {
            set,
            rows,
            by_number,
            by_uid,
        } => names(alloc, set, rows, by_number, by_uid),
        Case::Misses(set, rows, number) => misses(alloc, set, rows, *number),
        Case::Printed(set, printed) => is_printed(alloc, set, printed),
        Case::Flags(text, bits, printed) => are_flags(alloc, text, *bits, printed),
        Case::Neither(text) => Ok(is_neither(alloc, text.as_bytes())),
        Case::Turns(turns) => are_right(alloc, turns),
        Case::Changes(step, lines) => is_right(alloc, *step, lines),
    }
}

/// Plays cases, each with its name. Fails by the name of the first that isn't as it says.
pub fn all_hold(alloc: Global, cases: &[(&'static str, Case)]) -> Result<(), Fail> {
    for (name, case) in cases {
        match holds(alloc, case) {
            Ok(true) => {}
            _ => return Err(Fail::from(*name)),
        }
    }
    Ok(())
}
