use crate::cases::{Case, all_hold};
use dv_keywords::{Table, TableEnd, change};
use dv_model::{How, List, NoMemory};
use dv_records::is_name;
use std::alloc::Global;
use std::test::Fail;

fn is_send<T: Send>() {}

fn table_is_send() {
    is_send::<Table>();
}

type Names = &'static [&'static [u8]];

// What is done with a table of names, or with the places of a row's keywords.
enum Named {
    // A copy has the same names.
    Copied(Names),
    // The table's text.
    Written(Names, &'static [u8]),
    // The text begins with a table of so many names, in so many bytes.
    Read {
        text: &'static [u8],
        count: u32,
        size: usize,
        names: Names,
    },
    // The text begins with no table of so many names.
    Hostile(&'static [u8], u32),
    // The last names of three are hidden, and shown again in turn.
    Hidden(Names),
    // The places of a row before a change, what is done with which place, and the places after it.
    Changed(&'static [u32], How, u32, &'static [u32]),
}

// The table of these, added in turn, as far as they are names.
fn table_of(alloc: Global, names: &[&[u8]]) -> Result<Table, NoMemory> {
    let mut table = Table::empty(alloc);
    for name in names {
        if is_name(*name) {
            table.add(*name)?;
        }
    }
    Ok(table)
}

// Whether the table has this name at this place.
fn has_name(table: &Table, at: u32, name: &[u8]) -> bool {
    at < table.count() && table.name(at).as_slice() == name && table.index_of(name) == Some(at)
}

// Whether the table has these names, in this order.
fn has_names(table: &Table, names: &[&[u8]]) -> bool {
    let mut at = 0;
    for name in names {
        if !has_name(table, at, name) {
            return false;
        }
        at = at.saturating_add(1);
    }
    at == table.count()
}

fn is_copied(alloc: Global, names: &[&[u8]]) -> Result<bool, NoMemory> {
    let table = table_of(alloc, names)?;
    let copy = table.copy(alloc)?;
    Ok(has_names(&copy, names))
}

fn is_written(alloc: Global, names: &[&[u8]], wanted: &[u8]) -> Result<bool, NoMemory> {
    let table = table_of(alloc, names)?;
    let text = table.to_bytes(alloc)?;
    Ok(text.as_slice() == wanted)
}

fn is_read(alloc: Global, text: &[u8], names: &[&[u8]], count: u32, size: usize) -> bool {
    match Table::from_bytes(alloc, text, count) {
        Ok((table, found)) => found == size && has_names(&table, names),
        Err(_) => false,
    }
}

fn is_bad(alloc: Global, text: &[u8], count: u32) -> bool {
    match Table::from_bytes(alloc, text, count) {
        Err(TableEnd::Bad) => true,
        _ => false,
    }
}

fn are_hidden_and_shown(table: &mut Table, names: &[&[u8]]) -> bool {
    if table.count() != 3 {
        return false;
    }
    let [first, second, third] = names else {
        return false;
    };
    table.hide(1);
    let is_first_left = has_names(table, &[*first]);
    let is_unknown = table.index_of(*second).is_none();
    table.hide(5);
    let is_first_left_still = has_names(table, &[*first]);
    table.show(1);
    let are_two = has_names(table, &[*first, *second]);
    table.show(1);
    let are_three = has_names(table, &[*first, *second, *third]);
    is_first_left && is_unknown && is_first_left_still && are_two && are_three
}

fn three_are_hidden_and_shown(alloc: Global, names: &[&[u8]]) -> Result<bool, NoMemory> {
    let mut table = table_of(alloc, names)?;
    Ok(are_hidden_and_shown(&mut table, names))
}

// Whether a row's places are these after a change.
fn changes_to(
    alloc: Global,
    before: &[u32],
    how: How,
    place: u32,
    after: &[u32],
) -> Result<bool, NoMemory> {
    let mut places = List::from_slice(alloc, before)?;
    change(alloc, how, place, &mut places)?;
    Ok(places.as_slice() == after)
}

impl Case for Named {
    fn holds(&self, alloc: Global) -> Result<bool, NoMemory> {
        match self {
            Named::Copied(names) => is_copied(alloc, names),
            Named::Written(names, text) => is_written(alloc, names, text),
            Named::Read {
                text,
                count,
                size,
                names,
            } => Ok(is_read(alloc, text, names, *count, *size)),
            Named::Hostile(text, count) => Ok(is_bad(alloc, text, *count)),
            Named::Hidden(names) => three_are_hidden_and_shown(alloc, names),
            Named::Changed(before, how, place, after) => {
                changes_to(alloc, before, *how, *place, after)
            }
        }
    }
}

const TEXT: &[u8] = b"\x01\0a\0\x03\0abc\0\0\0\x04\0abcd\0\0";

const CASES: [(&str, Named); 15] = [
    ("a copy", Named::Copied(&[b"old", b"new"])),
    (
        "a place between others",
        Named::Changed(&[1, 5], How::Add, 3, &[1, 3, 5]),
    ),
    (
        "a place that is there",
        Named::Changed(&[1, 5], How::Add, 5, &[1, 5]),
    ),
    (
        "a place that leaves",
        Named::Changed(&[1, 3, 5], How::Remove, 3, &[1, 5]),
    ),
    (
        "a place in place of none",
        Named::Changed(&[], How::Replace, 3, &[3]),
    ),
    (
        "a place in place of two",
        Named::Changed(&[1, 5], How::Replace, 3, &[3]),
    ),
    (
        "a table's text",
        Named::Written(&[b"a", b"abc", b"abcd"], TEXT),
    ),
    (
        "a text's table",
        Named::Read {
            text: TEXT,
            count: 3,
            size: 20,
            names: &[b"a", b"abc", b"abcd"],
        },
    ),
    ("an empty name", Named::Hostile(b"\0\0\0\0", 1)),
    ("a name that isn't one", Named::Hostile(b"\x01\0(\0", 1)),
    ("padding that isn't zero", Named::Hostile(b"\x01\0a\x01", 1)),
    (
        "one name twice",
        Named::Hostile(b"\x01\0a\0\x01\0b\0\x01\0a\0", 3),
    ),
    (
        "padding that is cut off",
        Named::Hostile(b"\x03\0abc\0\0", 1),
    ),
    ("too few names", Named::Hostile(b"\x01\0a\0", 4294967295)),
    (
        "names that are hidden",
        Named::Hidden(&[b"old", b"new", b"off"]),
    ),
];

#[test]
fn names_and_places_are_kept(rt: HostRuntime) -> Result<(), Fail> {
    all_hold(rt.alloc(), &CASES)
}
