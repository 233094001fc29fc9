use crate::ends::{is_so, no_other};
use crate::folders::{File, has_file, shelf_of};
use dv_chain::{Chain, create, open};
use dv_model::{Mark, NoMemory, OpenFault};
use dv_shelf::{MemShelf, Name, Shelf};
use std::alloc::Global;
use std::test::Fail;

// The first file of index 1000, with initial_modseq 1: a UIDVALIDITY of 1000, an append of UID 1,
// and its flag Seen. Its records end at 56, 72 and 92.
pub const LOG: [u8; 96] = [
    1, 3, 40, 0, 0xe8, 3, 0, 0, 1, 0, 0, 0, 0, 0, 0, 0, 0, 0, 0, 0, //
    0xe8, 3, 0, 0, 1, 0, 0, 0, 0, 0, 0, 0, 1, 0, 0, 0, 0, 0, 0, 0, //
    0x80, 0x80, 0x80, 0x84, 0x20, 0, 0, 0, 24, 0, 4, 0, 0xe8, 3, 0, 0, //
    0x80, 0x80, 0x80, 0x84, 2, 0, 0, 0x10, 1, 0, 0, 0, 0, 0, 0, 0, //
    0x80, 0x80, 0x80, 0x85, 4, 0, 0, 0x10, 1, 0, 0, 0, 1, 0, 0, 0, 8, 0, 0, 0, //
    0, 0, 0, 0,
];

// The same without the four bytes behind its end.
const BARE: [u8; 92] = [
    1, 3, 40, 0, 0xe8, 3, 0, 0, 1, 0, 0, 0, 0, 0, 0, 0, 0, 0, 0, 0, //
    0xe8, 3, 0, 0, 1, 0, 0, 0, 0, 0, 0, 0, 1, 0, 0, 0, 0, 0, 0, 0, //
    0x80, 0x80, 0x80, 0x84, 0x20, 0, 0, 0, 24, 0, 4, 0, 0xe8, 3, 0, 0, //
    0x80, 0x80, 0x80, 0x84, 2, 0, 0, 0x10, 1, 0, 0, 0, 0, 0, 0, 0, //
    0x80, 0x80, 0x80, 0x85, 4, 0, 0, 0x10, 1, 0, 0, 0, 1, 0, 0, 0, 8, 0, 0, 0,
];

// The same with its first record alone, as it is made at 1000.
const NEW: [u8; 60] = [
    1, 3, 40, 0, 0xe8, 3, 0, 0, 1, 0, 0, 0, 0, 0, 0, 0, 0, 0, 0, 0, //
    0xe8, 3, 0, 0, 1, 0, 0, 0, 0, 0, 0, 0, 1, 0, 0, 0, 0, 0, 0, 0, //
    0x80, 0x80, 0x80, 0x84, 0x20, 0, 0, 0, 24, 0, 4, 0, 0xe8, 3, 0, 0, //
    0, 0, 0, 0,
];

// The second file, which names the first one and its end 92, with initial_modseq 4.
const SECOND: [u8; 44] = [
    1, 3, 40, 0, 0xe8, 3, 0, 0, 2, 0, 0, 0, 1, 0, 0, 0, 92, 0, 0, 0, //
    0xe8, 3, 0, 0, 4, 0, 0, 0, 0, 0, 0, 0, 1, 0, 0, 0, 0, 0, 0, 0, //
    0, 0, 0, 0,
];

// The snapshot of UID 1 without flags at 1:72, in version 1.
const OLD_INDEX: [u8; 128] = [
    201, 1, 120, 0, 120, 0, 0, 0, 8, 0, 0, 0, 0, 0, 0, 0, //
    0xe8, 3, 0, 0, 0, 0, 0, 0, 0xe8, 3, 0, 0, 2, 0, 0, 0, //
    1, 0, 0, 0, 1, 0, 0, 0, 72, 0, 0, 0, 0, 0, 0, 0, //
    0, 0, 0, 0, 0, 0, 0, 0, 0, 0, 0, 0, 0, 0, 0, 0, //
    0, 0, 0, 0, 0, 0, 0, 0, 0, 0, 0, 0, 0, 0, 0, 0, //
    0, 0, 0, 0, 0, 0, 0, 0, 0, 0, 0, 0, 0, 0, 0, 0, //
    0, 0, 0, 0, 0, 0, 0, 0, 0, 0, 0, 0, 0, 0, 0, 0, //
    0, 0, 0, 0, 0, 0, 0, 0, 1, 0, 0, 0, 0, 0, 0, 0,
];

// The same at 1:92 with the flag Seen: another mark, number of rows with the flag, and row.
const SEEN_INDEX: [u8; 128] = [
    201, 1, 120, 0, 120, 0, 0, 0, 8, 0, 0, 0, 0, 0, 0, 0, //
    0xe8, 3, 0, 0, 0, 0, 0, 0, 0xe8, 3, 0, 0, 2, 0, 0, 0, //
    1, 0, 0, 0, 1, 0, 0, 0, 92, 0, 0, 0, 0, 0, 0, 0, //
    0, 0, 0, 0, 0, 0, 0, 0, 0, 0, 0, 0, 1, 0, 0, 0, //
    0, 0, 0, 0, 0, 0, 0, 0, 0, 0, 0, 0, 0, 0, 0, 0, //
    0, 0, 0, 0, 0, 0, 0, 0, 0, 0, 0, 0, 0, 0, 0, 0, //
    0, 0, 0, 0, 0, 0, 0, 0, 0, 0, 0, 0, 0, 0, 0, 0, //
    0, 0, 0, 0, 0, 0, 0, 0, 1, 0, 0, 0, 8, 0, 0, 0,
];

// What is found in a folder: the number of its log's file, and where the records there end; flags
// and modification sequence of its row, where that is UID 1 alone; the highest one; and how long
// the log is behind opening.
#[derive(Clone, Copy)]
struct Told {
    file_seq: u32,
    end: u32,
    row: Option<(u8, u64)>,
    highest: u64,
    length: usize,
}

// The folder's mailbox, or why there is none.
type Answer = Result<Told, OpenFault>;

fn found(file_seq: u32, end: u32, row: Option<(u8, u64)>, highest: u64, length: usize) -> Answer {
    Ok(Told {
        file_seq,
        end,
        row,
        highest,
        length,
    })
}

fn only_row(chain: &Chain) -> Option<(u8, u64)> {
    if chain.live.count() != 1 {
        return None;
    }
    let row = chain.live.row(0);
    if row.uid == 1 {
        Some((row.flags, row.modseq))
    } else {
        None
    }
}

fn log_length(alloc: Global, shelf: &mut MemShelf) -> Option<usize> {
    match shelf.read(alloc, Name::Log) {
        Ok(Some(log)) => Some(log.len()),
        _ => None,
    }
}

fn is_told(alloc: Global, chain: &Chain, shelf: &mut MemShelf, told: &Told) -> bool {
    chain.log.file_seq == told.file_seq
        && chain.log.end == told.end
        && only_row(chain) == told.row
        && chain.live.highest() == told.highest
        && log_length(alloc, shelf) == Some(told.length)
}

fn opens(alloc: Global, shelf: &mut MemShelf, answer: &Answer) -> bool {
    match (open(alloc, shelf), answer) {
        (Ok(chain), Ok(told)) => is_told(alloc, &chain, shelf, told),
        (Err(fault), Err(other)) => fault == *other,
        _ => false,
    }
}

// What is found of the log's first bytes.
fn cut(length: usize) -> Answer {
    match length {
        0..=39 => Err(OpenFault::BadLogHeader),
        40..=43 => found(1, 40, None, 1, 44),
        44..=55 => Err(OpenFault::BadRecord { offset: 40 }),
        56..=59 => found(1, 56, None, 2, 60),
        60..=71 => Err(OpenFault::BadRecord { offset: 56 }),
        72..=75 => found(1, 72, Some((0, 3)), 3, 76),
        76..=91 => Err(OpenFault::BadRecord { offset: 72 }),
        92 => found(1, 92, Some((8, 4)), 4, 96),
        longer => found(1, 92, Some((8, 4)), 4, longer),
    }
}

fn is_cut(alloc: Global, length: usize) -> Result<bool, NoMemory> {
    let (log, _) = LOG.split_at(length.min(96));
    let mut shelf = shelf_of(alloc, &[(Name::Log, log)], &[], None)?;
    Ok(opens(alloc, &mut shelf, &cut(length)))
}

// Whether that is so up to this length.
fn are_cut(alloc: Global, longest: usize) -> Result<bool, NoMemory> {
    for length in 0..=longest {
        if !is_cut(alloc, length)? {
            return Ok(false);
        }
    }
    Ok(true)
}

#[test]
fn a_cut_log_ends_behind_its_last_whole_record(rt: HostRuntime) -> Result<(), Fail> {
    is_so(are_cut(rt.alloc(), 96))
}

// Something that is done with a folder, and its answer.
#[derive(Clone, Copy)]
enum Step {
    // It is made at 1000, by one call.
    Creates(Answer),
    Opens(Answer),
    // The log has these bytes.
    Log(&'static [u8]),
}

// A folder's files, the calls of it that fail, and what is done then.
struct Case {
    name: &'static str,
    files: &'static [File<'static>],
    fails: &'static [u32],
    steps: &'static [Step],
}

const MADE: Answer = Ok(Told {
    file_seq: 1,
    end: 56,
    row: None,
    highest: 2,
    length: 60,
});

const FIRST: Answer = Ok(Told {
    file_seq: 1,
    end: 92,
    row: Some((8, 4)),
    highest: 4,
    length: 96,
});

const BOTH: Answer = Ok(Told {
    file_seq: 2,
    end: 40,
    row: Some((8, 4)),
    highest: 4,
    length: 44,
});

const GAP: Answer = Err(OpenFault::Gap {
    index: Mark {
        file_seq: 1,
        offset: 72,
    },
    log: Mark {
        file_seq: 2,
        offset: 40,
    },
});

const CASES: [Case; 9] = [
    Case {
        name: "a closed end has four zero bytes",
        files: &[(Name::Log, &BARE)],
        fails: &[],
        steps: &[Step::Opens(FIRST), Step::Log(&LOG)],
    },
    // files are joined in five ways
    Case {
        name: "log, rotated log and snapshot",
        files: &[
            (Name::Log, &SECOND),
            (Name::Log2, &LOG),
            (Name::Index, &OLD_INDEX),
        ],
        fails: &[],
        steps: &[Step::Opens(BOTH)],
    },
    Case {
        name: "a rotated log that isn't before the log",
        files: &[
            (Name::Log, &LOG),
            (Name::Log2, &LOG),
            (Name::Index, &OLD_INDEX),
        ],
        fails: &[],
        steps: &[Step::Opens(FIRST)],
    },
    Case {
        name: "a gap",
        files: &[(Name::Log, &SECOND), (Name::Index, &OLD_INDEX)],
        fails: &[],
        steps: &[Step::Opens(GAP)],
    },
    Case {
        name: "a snapshot at the end of the file before",
        files: &[(Name::Log, &SECOND), (Name::Index, &SEEN_INDEX)],
        fails: &[],
        steps: &[Step::Opens(BOTH)],
    },
    Case {
        name: "no snapshot",
        files: &[(Name::Log, &SECOND), (Name::Log2, &LOG)],
        fails: &[],
        steps: &[Step::Opens(BOTH)],
    },
    Case {
        name: "the second log alone",
        files: &[(Name::Log, &SECOND)],
        fails: &[],
        steps: &[Step::Opens(Err(OpenFault::BadIndex))],
    },
    Case {
        name: "a folder is made by one replace",
        files: &[],
        fails: &[],
        steps: &[Step::Creates(MADE), Step::Log(&NEW)],
    },
    Case {
        name: "a failed replace makes no folder",
        files: &[],
        fails: &[1, 3],
        steps: &[
            Step::Creates(Err(OpenFault::Disk(1))),
            Step::Opens(Err(OpenFault::NoLog)),
            Step::Opens(Err(OpenFault::Disk(2))),
        ],
    },
];

// Whether a chain has the first record alone, and its mailbox the number of its index.
fn is_new(chain: &Chain) -> bool {
    chain.log.count == 1 && chain.records == 1 && chain.indexid == chain.live.uid_validity()
}

fn creates(alloc: Global, shelf: &mut MemShelf, answer: &Answer) -> bool {
    match (create(alloc, shelf, 1000), answer) {
        (Ok(chain), Ok(told)) => {
            shelf.call_count() == 1 && is_new(&chain) && is_told(alloc, &chain, shelf, told)
        }
        (Err(fault), Err(other)) => fault == *other,
        _ => false,
    }
}

fn holds(alloc: Global, shelf: &mut MemShelf, step: &Step) -> bool {
    match step {
        Step::Creates(answer) => creates(alloc, shelf, answer),
        Step::Opens(answer) => opens(alloc, shelf, answer),
        Step::Log(bytes) => has_file(alloc, shelf, (Name::Log, bytes)),
    }
}

fn play(alloc: Global, case: &Case) -> Result<bool, NoMemory> {
    let mut shelf = shelf_of(alloc, case.files, case.fails, None)?;
    for step in case.steps {
        if !holds(alloc, &mut shelf, step) {
            return Ok(false);
        }
    }
    Ok(true)
}

fn first_other(alloc: Global, cases: &[Case]) -> Result<Option<&'static str>, NoMemory> {
    for case in cases {
        if !play(alloc, case)? {
            return Ok(Some(case.name));
        }
    }
    Ok(None)
}

#[test]
fn folders_are_opened_and_made(rt: HostRuntime) -> Result<(), Fail> {
    no_other(first_other(rt.alloc(), &CASES))
}
