//! Calls of a folder, with what they have to answer.

use crate::entries::Entry;
use dv_shelf::{Name, Shelf};
use std::alloc::Global;

/// A call on a folder with what it has to answer, or something that is done or looked at beside it.
#[derive(Clone, Copy)]
pub enum Step {
    /// Whether a mailbox is there; `None` is a failure.
    Has(Option<bool>),
    /// How many names are listed; `None` is a failure.
    Lists(Option<usize>),
    /// The names that are listed, in this order.
    Names(&'static [Name]),
    /// The bytes that a read gives; `None` where there is no file.
    Reads(Name, Option<&'static [u8]>),
    /// A read gives so many bytes.
    Length(Name, usize),
    ReadFails(Name),
    /// A read doesn't say that there is no file.
    IsNotMissing(Name),
    /// Whether the change answers Ok.
    Replaces(Name, &'static [u8], bool),
    Writes(Name, u32, &'static [u8], bool),
    Syncs(Name, bool),
    Removes(Name, bool),
    /// So many failures are counted.
    Faults(u64),
    /// A folder in memory has had so many calls.
    Calls(u64),
    /// The samples of what a crash may leave have the log alone, with these bytes.
    Images(&'static [&'static [u8]]),
    /// What stands at this path of a real folder, whose own is empty.
    At(&'static str, Entry),
}

fn reads<S: Shelf>(alloc: Global, shelf: &mut S, name: Name, expected: Option<&[u8]>) -> bool {
    match (shelf.read(alloc, name), expected) {
        (Ok(Some(bytes)), Some(expected)) => bytes.as_slice() == expected,
        (Ok(None), None) => true,
        (_, _) => false,
    }
}

fn has_length<S: Shelf>(alloc: Global, shelf: &mut S, name: Name, length: usize) -> bool {
    match shelf.read(alloc, name) {
        Ok(Some(bytes)) => bytes.len() == length,
        _ => false,
    }
}

fn read_fails<S: Shelf>(alloc: Global, shelf: &mut S, name: Name) -> bool {
    shelf.read(alloc, name).is_err()
}

fn is_missing<S: Shelf>(alloc: Global, shelf: &mut S, name: Name) -> bool {
    match shelf.read(alloc, name) {
        Ok(found) => found.is_none(),
        Err(_) => false,
    }
}

fn count_listed<S: Shelf>(alloc: Global, shelf: &mut S) -> Option<usize> {
    match shelf.list(alloc) {
        Ok(names) => Some(names.len()),
        Err(_) => None,
    }
}

fn are_listed<S: Shelf>(alloc: Global, shelf: &mut S, names: &[Name]) -> bool {
    match shelf.list(alloc) {
        Ok(found) => found.as_slice() == names,
        Err(_) => false,
    }
}

// A place of a file, in bytes, and the length of what is written there.
const LONGEST: u32 = 4096;

fn writes<S: Shelf>(shelf: &mut S, name: Name, place: u32, bytes: &[u8]) -> bool {
    if place > LONGEST || bytes.len() > LONGEST as usize {
        return false;
    }
    shelf.write_at(name, place, bytes).is_ok()
}

/// Whether a call answers what it has to.
pub fn is_answered<S: Shelf>(alloc: Global, shelf: &mut S, step: Step) -> bool {
    match step {
        Step::Has(expected) => shelf.has_mailbox(alloc).ok() == expected,
        Step::Lists(expected) => count_listed(alloc, shelf) == expected,
        Step::Names(names) => are_listed(alloc, shelf, names),
        Step::Reads(name, expected) => reads(alloc, shelf, name, expected),
        Step::Length(name, length) => has_length(alloc, shelf, name, length),
        Step::ReadFails(name) => read_fails(alloc, shelf, name),
        Step::IsNotMissing(name) => !is_missing(alloc, shelf, name),
        Step::Replaces(name, bytes, is_ok) => shelf.replace(name, bytes).is_ok() == is_ok,
        Step::Writes(name, place, bytes, is_ok) => writes(shelf, name, place, bytes) == is_ok,
        Step::Syncs(name, is_ok) => shelf.sync(name).is_ok() == is_ok,
        Step::Removes(name, is_ok) => shelf.remove(name).is_ok() == is_ok,
        Step::Faults(count) => shelf.faults() == count,
        _ => false,
    }
}
