ghost use Rattle.std.specs.Prelude.{◌<◌, ◌^◌, IfOk, length, map};
ghost use Rattle.std.specs.List.Sorted.{IsStrictlyIncreasing};

use crate::cases::{Case, all_hold};
use dv_model::{List, NoMemory, Shown, Span};
use dv_sets::{ParseEnd, SetEnd, numbers, parse_flags, parse_set, print_flags, print_set, uids};
use std::alloc::Global;
use std::test::Fail;

// Rows of a view with these UIDs, which rise. Others count as want of memory, which no test
// expects.
fn rows_of(alloc: Global, uids: &[u32]) -> Result<List<Shown>, NoMemory>
    ensures few { IfOk result (λ rows. length rows < 2 ^ 32) }
    ensures rising { IfOk result (λ rows. IsStrictlyIncreasing (map (λ row. row.uid) rows)) }
{
    let mut rows = List::new(alloc);
    let mut last = 0;
    for uid in uids {
        if *uid <= last || rows.len() > 100 {
            return Err(NoMemory);
        }
        rows.push(Shown {
            uid: *uid,
            flags: 0,
            keywords: List::new(alloc),
            modseq: 1,
        })?;
        last = *uid;
    }
    Ok(rows)
}

fn set_of(alloc: Global, text: &str) -> Result<List<Span>, NoMemory> {
    match parse_set(alloc, text.as_bytes()) {
        Ok(set) => Ok(set),
        Err(_) => Err(NoMemory),
    }
}

fn has_numbers(
    alloc: Global,
    set: &List<Span>,
    rows: &List<Shown>,
    expected: &[u32],
) -> Result<bool, NoMemory>
    requires { length rows.now < 2 ^ 32 }
{
    match numbers(alloc, set, rows) {
        Ok(found) => Ok(found.as_slice() == expected),
        Err(_) => Ok(false),
    }
}

fn has_uids(
    alloc: Global,
    set: &List<Span>,
    rows: &List<Shown>,
    expected: &[u32],
) -> Result<bool, NoMemory>
    requires few { length rows.now < 2 ^ 32 }
    requires rising { IsStrictlyIncreasing (map (λ row. row.uid) rows.now) }
{
    let named = uids(alloc, set, rows)?;
    Ok(named.as_slice() == expected)
}

// Whether the set names these numbers of rows with these UIDs, and these by the UIDs. Each value
// has one owner, so that it is let go in one place.
fn set_names(
    alloc: Global,
    set: &List<Span>,
    uids: &[u32],
    by_number: &[u32],
    by_uid: &[u32],
) -> Result<bool, NoMemory> {
    let rows = rows_of(alloc, uids)?;
    Ok(has_numbers(alloc, set, &rows, by_number)? && has_uids(alloc, set, &rows, by_uid)?)
}

/// Whether the set names these numbers of rows with these UIDs, and these by the UIDs.
pub fn names(
    alloc: Global,
    text: &str,
    uids: &[u32],
    by_number: &[u32],
    by_uid: &[u32],
) -> Result<bool, NoMemory> {
    let set = set_of(alloc, text)?;
    set_names(alloc, &set, uids, by_number, by_uid)
}

fn set_misses(
    alloc: Global,
    set: &List<Span>,
    uids: &[u32],
    number: u32,
) -> Result<bool, NoMemory> {
    let rows = rows_of(alloc, uids)?;
    match numbers(alloc, set, &rows) {
        Err(SetEnd::NoMessage(missed)) => Ok(missed == number),
        _ => Ok(false),
    }
}

/// Whether the set names this number, which no row has.
pub fn misses(alloc: Global, text: &str, uids: &[u32], number: u32) -> Result<bool, NoMemory> {
    let set = set_of(alloc, text)?;
    set_misses(alloc, &set, uids, number)
}

fn prints(alloc: Global, set: &List<Span>, printed: &[u8]) -> Result<bool, NoMemory> {
    let again = print_set(alloc, set)?;
    Ok(again.as_slice() == printed)
}

/// Whether the set is printed so.
pub fn is_printed(alloc: Global, text: &str, printed: &str) -> Result<bool, NoMemory> {
    let set = set_of(alloc, text)?;
    prints(alloc, &set, printed.as_bytes())
}

/// Whether the flag list has these bits of system flags, and is printed so.
pub fn are_flags(alloc: Global, text: &str, bits: u8, printed: &str) -> Result<bool, NoMemory> {
    let Ok((flags, keywords)) = parse_flags(alloc, text.as_bytes()) else {
        return Err(NoMemory);
    };
    let again = print_flags(alloc, flags, &keywords)?;
    Ok(flags == bits && again.as_slice() == printed.as_bytes())
}

/// Whether the text is refused as a set.
pub fn is_no_set(alloc: Global, text: &[u8]) -> bool {
    match parse_set(alloc, text) {
        Err(ParseEnd::Bad) => true,
        _ => false,
    }
}

/// Whether the text is refused as a flag list.
pub fn are_no_flags(alloc: Global, text: &[u8]) -> bool {
    match parse_flags(alloc, text) {
        Err(ParseEnd::Bad) => true,
        _ => false,
    }
}

const ROWS: &[u32] = &[3, 5, 9, 12];

const CASES: [(&str, Case); 20] = [
    (
        "rows between ends in either order",
        Case::Names {
            set: "3:2",
            rows: ROWS,
            by_number: &[2, 3],
            by_uid: &[1],
        },
    ),
    (
        "rows by numbers, a range and a star",
        Case::Names {
            set: "1,3:2,*",
            rows: ROWS,
            by_number: &[1, 2, 3, 4],
            by_uid: &[1, 4],
        },
    ),
    (
        "rows that are named often",
        Case::Names {
            set: "4:3,1:3,2:4,2",
            rows: ROWS,
            by_number: &[1, 2, 3, 4],
            by_uid: &[1],
        },
    ),
    (
        "rows from a star down",
        Case::Names {
            set: "*:3,4,1",
            rows: ROWS,
            by_number: &[1, 3, 4],
            by_uid: &[1, 2, 3, 4],
        },
    ),
    (
        "a number that no row has",
        Case::Misses("2,9:4,3", &[7, 8], 9),
    ),
    ("a range", Case::Printed("5:9", "5:9")),
    ("a range of one", Case::Printed("5:5", "5")),
    (
        "ranges of stars",
        Case::Printed("*:*,4294967295", "*,4294967295"),
    ),
    ("a list of ranges", Case::Printed("1,3:2,*", "1,3:2,*")),
    ("no flags", Case::Flags("()", 0, "()")),
    (
        "flags that count once",
        Case::Flags("(\\Seen k1 \\Seen)", 8, "(\\Seen k1)"),
    ),
    (
        "flags in their order",
        Case::Flags(
            "(k2 \\Draft k1 k2 \\Answered)",
            17,
            "(\\Answered \\Draft k2 k1)",
        ),
    ),
    (
        "keywords by their case",
        Case::Flags("(k1 K1)", 0, "(k1 K1)"),
    ),
    ("nothing", Case::Neither("")),
    ("a number with a zero before it", Case::Neither("01")),
    ("a list with a gap", Case::Neither("1,,2")),
    ("a number that is too large", Case::Neither("4294967296")),
    ("a flag in other case", Case::Neither("(\\seen)")),
    ("a space at the end", Case::Neither("(k1 )")),
    ("a flag that can't be set", Case::Neither("(\\Recent)")),
];

#[test]
fn sets_and_flags_are_read(rt: HostRuntime) -> Result<(), Fail> {
    all_hold(rt.alloc(), &CASES)
}
