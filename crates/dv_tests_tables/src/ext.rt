use crate::cases::{Case, all_hold};
use dv_ext::{Extensions, PartsChange, RowUpdates};
use dv_model::{Duplicate, Extension, Intro, List, NoMemory, Part};
use std::alloc::Global;
use std::test::Fail;

// The `ext_id` of an introduction by name.
const NAMED: u32 = 4294967295;

// What an extension must be.
struct Expected {
    name: &'static [u8],
    reset_id: u32,
    header: &'static [u8],
    record_size: u16,
    record_align: u16,
    flags: u16,
}

#[derive(Clone, Copy)]
enum Action {
    // `ext_id`, name, reset number, header size and record size
    Intro(u32, &'static [u8], u32, u32, u16),
    Reset(u32, u8),
    // an offset, and bytes
    Header(u16, &'static [u8]),
}

// What is done, what happens to the parts of rows, the table and the current extension.
struct Done {
    action: Action,
    change: PartsChange,
    table: &'static [Expected],
    current: Option<(u32, u16)>,
}

fn introduce(
    alloc: Global,
    extensions: &mut Extensions,
    ext_id: u32,
    name: &[u8],
    numbers: (u32, u32, u16),
) -> Result<PartsChange, NoMemory> {
    let name = List::from_slice(alloc, name)?;
    let (reset_id, hdr_size, record_size) = numbers;
    extensions.intro(&Intro {
        ext_id,
        reset_id,
        hdr_size,
        record_size,
        record_align: 4,
        flags: 1,
        name,
    })
}

fn part(alloc: Global, offset: u16, bytes: &[u8]) -> Result<Part, NoMemory> {
    let bytes = List::from_slice(alloc, bytes)?;
    Ok(Part { offset, bytes })
}

fn put(
    alloc: Global,
    extensions: &mut Extensions,
    offset: u16,
    bytes: &[u8],
) -> Result<PartsChange, NoMemory> {
    let mut parts = List::new(alloc);
    parts.push(part(alloc, offset, bytes)?)?;
    extensions.header(&parts);
    Ok(PartsChange::Same)
}

fn act(
    alloc: Global,
    extensions: &mut Extensions,
    action: Action,
) -> Result<PartsChange, NoMemory> {
    match action {
        Action::Intro(ext_id, name, reset_id, hdr_size, record_size) => introduce(
            alloc,
            extensions,
            ext_id,
            name,
            (reset_id, hdr_size, record_size),
        ),
        Action::Reset(reset_id, preserve) => Ok(extensions.reset(reset_id, preserve)),
        Action::Header(offset, bytes) => put(alloc, extensions, offset, bytes),
    }
}

fn is_expected(extension: &Extension, e: &Expected) -> bool {
    extension.reset_id == e.reset_id
        && extension.record_size == e.record_size
        && extension.record_align == e.record_align
        && extension.flags == e.flags
        && extension.name.as_slice() == e.name
        && extension.header.as_slice() == e.header
}

fn are_expected(list: &[Extension], expected: &[Expected]) -> bool {
    if list.len() != expected.len() {
        return false;
    }
    for (extension, e) in list.iter().zip(expected) {
        if !is_expected(extension, e) {
            return false;
        }
    }
    true
}

fn is_current(extensions: &Extensions, expected: Option<(u32, u16)>) -> bool {
    match (extensions.current(), expected) {
        (Some(current), Some((extension, size))) => {
            current.extension == extension && current.size == size
        }
        (None, None) => true,
        _ => false,
    }
}

fn is_left(extensions: &Extensions, done: &Done) -> bool {
    are_expected(extensions.list().as_slice(), done.table) && is_current(extensions, done.current)
}

// The table that the parts of another make.
fn made_again(alloc: Global, extensions: Extensions) -> Extensions {
    let (list, current) = extensions.into_parts();
    Extensions::new(alloc, list, current)
}

// Whether a copy is left so too, and what the copy's parts make.
fn is_copied(alloc: Global, extensions: &Extensions, done: &Done) -> Result<bool, NoMemory> {
    let copy = extensions.duplicate(alloc)?;
    let is_same = is_left(&copy, done);
    let again = made_again(alloc, copy);
    Ok(is_same && is_left(&again, done))
}

fn is_done(alloc: Global, extensions: &mut Extensions, done: &Done) -> Result<bool, NoMemory> {
    let change = act(alloc, extensions, done.action)?;
    if change != done.change || !is_left(extensions, done) {
        return Ok(false);
    }
    is_copied(alloc, extensions, done)
}

fn are_done(alloc: Global, all: &[Done]) -> Result<bool, NoMemory> {
    let mut extensions = Extensions::empty(alloc);
    for done in all {
        if !is_done(alloc, &mut extensions, done)? {
            return Ok(false);
        }
    }
    Ok(true)
}

fn are_rows(updates: &RowUpdates, rows: &[(u32, &[u8])]) -> bool {
    if updates.len() != rows.len() {
        return false;
    }
    for (at, row) in rows.iter().enumerate() {
        if at >= updates.len() || updates.get(at) != *row {
            return false;
        }
    }
    true
}

// What is done to a new table; or the bytes of an update for this size, and its rows, each with its
// UID and bytes.
enum Played {
    All(&'static [Done]),
    Update(u16, &'static [u8], &'static [(u32, &'static [u8])]),
}

impl Case for Played {
    fn holds(&self, alloc: Global) -> Result<bool, NoMemory> {
        match self {
            Played::All(all) => are_done(alloc, all),
            Played::Update(size, bytes, rows) => match RowUpdates::new(*size, bytes) {
                Some(updates) => Ok(are_rows(&updates, rows)),
                None => Ok(false),
            },
        }
    }
}

const CACHE: [Done; 6] = [
    Done {
        action: Action::Intro(NAMED, b"cache", 0, 0, 4),
        change: PartsChange::Added { size: 4 },
        table: &[Expected {
            name: b"cache",
            reset_id: 0,
            header: &[],
            record_size: 4,
            record_align: 4,
            flags: 1,
        }],
        current: Some((0, 4)),
    },
    Done {
        action: Action::Reset(1, 0),
        change: PartsChange::Zeroed { place: 0 },
        table: &[Expected {
            name: b"cache",
            reset_id: 1,
            header: &[],
            record_size: 4,
            record_align: 4,
            flags: 1,
        }],
        current: Some((0, 4)),
    },
    // a part that doesn't fit
    Done {
        action: Action::Header(1, &[7, 9]),
        change: PartsChange::Same,
        table: &[Expected {
            name: b"cache",
            reset_id: 1,
            header: &[],
            record_size: 4,
            record_align: 4,
            flags: 1,
        }],
        current: Some((0, 4)),
    },
    Done {
        action: Action::Intro(NAMED, b"cache", 1, 4, 8),
        change: PartsChange::Grown { place: 0, size: 8 },
        table: &[Expected {
            name: b"cache",
            reset_id: 1,
            header: &[0, 0, 0, 0],
            record_size: 8,
            record_align: 4,
            flags: 1,
        }],
        current: Some((0, 8)),
    },
    // smaller sizes
    Done {
        action: Action::Intro(NAMED, b"cache", 1, 1, 2),
        change: PartsChange::Same,
        table: &[Expected {
            name: b"cache",
            reset_id: 1,
            header: &[0, 0, 0, 0],
            record_size: 8,
            record_align: 4,
            flags: 1,
        }],
        current: Some((0, 2)),
    },
    // another reset number
    Done {
        action: Action::Intro(NAMED, b"cache", 0, 9, 9),
        change: PartsChange::Same,
        table: &[Expected {
            name: b"cache",
            reset_id: 1,
            header: &[0, 0, 0, 0],
            record_size: 8,
            record_align: 4,
            flags: 1,
        }],
        current: None,
    },
];

const HEADERS: [Done; 5] = [
    Done {
        action: Action::Intro(NAMED, b"x", 3, 4, 0),
        change: PartsChange::Added { size: 0 },
        table: &[Expected {
            name: b"x",
            reset_id: 3,
            header: &[0, 0, 0, 0],
            record_size: 0,
            record_align: 4,
            flags: 1,
        }],
        current: Some((0, 0)),
    },
    Done {
        action: Action::Header(1, &[7, 9]),
        change: PartsChange::Same,
        table: &[Expected {
            name: b"x",
            reset_id: 3,
            header: &[0, 7, 9, 0],
            record_size: 0,
            record_align: 4,
            flags: 1,
        }],
        current: Some((0, 0)),
    },
    // preserved
    Done {
        action: Action::Reset(4, 1),
        change: PartsChange::Same,
        table: &[Expected {
            name: b"x",
            reset_id: 4,
            header: &[0, 7, 9, 0],
            record_size: 0,
            record_align: 4,
            flags: 1,
        }],
        current: Some((0, 0)),
    },
    Done {
        action: Action::Reset(5, 0),
        change: PartsChange::Zeroed { place: 0 },
        table: &[Expected {
            name: b"x",
            reset_id: 5,
            header: &[0, 0, 0, 0],
            record_size: 0,
            record_align: 4,
            flags: 1,
        }],
        current: Some((0, 0)),
    },
    // by its place
    Done {
        action: Action::Intro(0, b"y", 5, 0, 0),
        change: PartsChange::Same,
        table: &[Expected {
            name: b"x",
            reset_id: 5,
            header: &[0, 0, 0, 0],
            record_size: 0,
            record_align: 4,
            flags: 1,
        }],
        current: Some((0, 0)),
    },
];

const UPDATE: &[u8] = &[
    1, 0, 0, 0, 7, 8, 9, 1, 2, 9, 9, 9, //
    0xff, 0xff, 0xff, 0xff, 1, 2, 3, 4, 5, 0, 0, 0,
];

const CASES: [(&str, Played); 3] = [
    (
        "extensions are introduced, reset and written",
        Played::All(&CACHE),
    ),
    ("headers are written and reset", Played::All(&HEADERS)),
    (
        "rows of an update are padded",
        Played::Update(
            5,
            UPDATE,
            &[(1, &[7, 8, 9, 1, 2]), (4294967295, &[1, 2, 3, 4, 5])],
        ),
    ),
];

#[test]
fn extensions_are_as_records_say(rt: HostRuntime) -> Result<(), Fail> {
    all_hold(rt.alloc(), &CASES)
}
