//! The real folder, and the real streams and clock.

use crate::entries::{Entry, is_entry, is_missing, path_in};
use crate::steps::{Step, is_answered};
use dv_folder::{Folder, Input, Layout, Missing, Output, SystemClock, write_error};
use dv_shelf::{Clock, Name, Sink, Source};
use std::alloc::AllocError;
use std::fs::{self, File};
use std::process;
use std::test::Fail;

/// Whether a step does or finds what it says.
fn holds(rt: HostRuntime, shelf: &mut Folder, path: &str, step: Step) -> bool {
    match step {
        Step::At(file, entry) => is_entry(rt, path, file, entry),
        _ => is_answered(rt.alloc(), shelf, step),
    }
}

/// A folder in that of a test, or that one itself, what it is opened as, and the steps that have to
/// hold of it then; or others, where the test's folder may not be read.
#[derive(Clone, Copy)]
struct Part {
    inside: &'static str,
    layout: Layout,
    missing: Missing,
    steps: &'static [Step],
    denied: Option<&'static [Step]>,
}

const MAILBOX: Part = Part {
    inside: "",
    layout: Layout::Mailbox,
    missing: Missing::Make,
    steps: &[],
    denied: None,
};

const STORAGE: Part = Part {
    layout: Layout::Storage,
    ..MAILBOX
};

fn steps_of(rt: HostRuntime, path: &str, part: &Part) -> &'static [Step] {
    match part.denied {
        Some(steps) if File::open(&rt, path).is_err() => steps,
        _ => part.steps,
    }
}

/// The place of the first step that doesn't hold of a folder that isn't touched yet.
fn first_other(rt: HostRuntime, path: &str, part: &Part, steps: &[Step]) -> Option<usize> {
    let Ok(mut shelf) = Folder::new(rt.alloc(), rt, path, part.layout, part.missing) else {
        return Some(0);
    };
    for (at, step) in steps.iter().enumerate() {
        if !holds(rt, &mut shelf, path, *step) {
            return Some(at);
        }
    }
    None
}

fn first_other_of(rt: HostRuntime, path: &str, part: &Part) -> Option<usize> {
    match path_in(rt, path, part.inside) {
        Ok(folder) => first_other(rt, folder.as_str(), part, steps_of(rt, path, part)),
        Err(_) => Some(0),
    }
}

/// The first part that doesn't hold, and the place of its step.
fn first_other_part(rt: HostRuntime, path: &str, parts: &[Part]) -> Option<(usize, usize)> {
    for (at, part) in parts.iter().enumerate() {
        if let Some(step) = first_other_of(rt, path, part) {
            return Some((at, step));
        }
    }
    None
}

/// Removes the folder, where it is there.
fn is_cleared(rt: HostRuntime, path: &str) -> bool {
    is_missing(rt, path) || fs::remove_dir_all(&rt, path).is_ok()
}

/// The path of a folder for a test of this name.
fn scratch(rt: HostRuntime, name: &str) -> Result<String, AllocError> {
    let id = process::id(rt.process());
    format!(in rt.alloc(); "scratch_{name}_{id}")
}

const LAST: Name = Name::Mail(4_294_967_295);

const FILES: [Step; 31] = [
    Step::At("", Entry::Counts(0)),
    Step::Has(Some(false)),
    Step::At("", Entry::Mode(0o700)),
    Step::Lists(Some(0)),
    Step::Reads(Name::Log, None),
    Step::Syncs(Name::Log, true),
    Step::Removes(Name::Mail(7), true),
    Step::At("dovecot.tmp", Entry::Put("a longer text of a killed run")),
    Step::Replaces(Name::Log, b"log", true),
    Step::At("dovecot.index.log", Entry::Mode(0o600)),
    Step::Reads(Name::Log, Some(b"log")),
    Step::Writes(Name::Log, 1, b"ive", true),
    Step::Writes(LAST, 2, b"x", true),
    Step::Syncs(Name::Log, true),
    Step::Syncs(LAST, true),
    Step::Reads(Name::Log, Some(b"live")),
    Step::Reads(LAST, Some(b"\0\0x")),
    Step::At("u.01", Entry::Put("")),
    Step::At("dovecot-uidlist", Entry::Put("")),
    Step::Lists(Some(2)),
    Step::Replaces(Name::Log, b"", true),
    Step::Writes(Name::Log, 0, b"new", true),
    Step::Reads(Name::Log, Some(b"new")),
    Step::Removes(Name::Log, true),
    Step::Reads(Name::Log, None),
    // It is gone, and stands nowhere else.
    Step::At("", Entry::Counts(3)),
    Step::Lists(Some(1)),
    Step::Has(Some(true)),
    Step::Removes(LAST, true),
    Step::Has(Some(false)),
    Step::Faults(0),
];

// A directory has the index's name, a link that leads to another file the log's and the temporary
// file's, and a file that is too long a message's.
const NO_FILE: [Step; 11] = [
    Step::At("", Entry::Folder),
    Step::At("dovecot.index", Entry::Folder),
    Step::At("outside", Entry::Put("outside")),
    Step::At("dovecot.index.log", Entry::Link("outside")),
    Step::At("dovecot.tmp", Entry::Link("outside")),
    Step::At("u.5", Entry::Long),
    Step::Has(None),
    Step::Faults(1),
    Step::Lists(None),
    Step::Faults(2),
    Step::At("", Entry::Counts(5)),
];

// A cache file makes no mailbox: beside one alone a name that is no file fails each look.
const CACHE_ALONE: [Step; 9] = [
    Step::At("", Entry::Folder),
    Step::At("dovecot.index.cache", Entry::Put("cache")),
    Step::Has(Some(false)),
    Step::Lists(Some(1)),
    Step::At("dovecot.index", Entry::Folder),
    Step::Has(None),
    Step::Lists(None),
    Step::Faults(2),
    Step::At("", Entry::Counts(2)),
];

const IRREGULAR: [Step; 30] = [
    Step::At("", Entry::Folder),
    Step::At("dovecot.index", Entry::Folder),
    Step::At("outside", Entry::Put("outside")),
    Step::At("dovecot.index.log", Entry::Link("outside")),
    Step::At("dovecot.tmp", Entry::Link("outside")),
    Step::At("u.5", Entry::Long),
    Step::At("u.3", Entry::Put("mail")),
    Step::Has(Some(true)),
    Step::Lists(Some(1)),
    Step::Reads(Name::Mail(3), Some(b"mail")),
    Step::Reads(Name::Index, None),
    Step::Reads(Name::Log, None),
    Step::Reads(Name::Mail(5), None),
    Step::Syncs(Name::Index, true),
    Step::Syncs(Name::Log, true),
    Step::Syncs(Name::Mail(5), true),
    Step::Removes(Name::Index, true),
    Step::Removes(Name::Log, true),
    Step::Removes(Name::Mail(5), true),
    Step::At("", Entry::Counts(6)),
    Step::Faults(0),
    Step::Writes(Name::Log, 0, b"log", false),
    Step::Faults(1),
    Step::Replaces(Name::Index, b"index", false),
    Step::Faults(2),
    // The temporary file's link was removed and not followed, and so was its file.
    Step::At("", Entry::Counts(5)),
    Step::Replaces(Name::Log, b"log", true),
    Step::Reads(Name::Log, Some(b"log")),
    Step::At("outside", Entry::Text("outside")),
    Step::Faults(2),
];

// A file that may only be read is read, and one of which nothing may be known isn't missing. To
// root nothing is denied.
const DENIED: [Step; 6] = [
    Step::Replaces(Name::Mail(1), b"mail", true),
    Step::At("u.1", Entry::SetMode(0o400)),
    Step::Reads(Name::Mail(1), Some(b"mail")),
    Step::At("", Entry::SetMode(0o000)),
    Step::IsNotMissing(Name::Mail(1)),
    Step::At("", Entry::SetMode(0o700)),
];

const WRITTEN: [Step; 4] = [
    Step::Has(Some(false)),
    Step::Replaces(Name::Log, b"log", true),
    Step::Reads(Name::Log, Some(b"log")),
    Step::Faults(0),
];

const UNSYNCED: [Step; 4] = [
    Step::Has(Some(false)),
    Step::Replaces(Name::Log, b"log", false),
    Step::Reads(Name::Log, None),
    Step::Faults(1),
];

// A parent that may be entered and written, and not read, can't be synced: what is made there isn't
// durable, and what was there is taken to be. To root nothing is denied.
const PARENT: [Part; 4] = [
    Part {
        steps: &[
            Step::At("", Entry::Folder),
            Step::At("there", Entry::Folder),
            Step::At("", Entry::SetMode(0o311)),
        ],
        ..MAILBOX
    },
    Part {
        inside: "there",
        steps: &WRITTEN,
        ..MAILBOX
    },
    Part {
        inside: "made",
        steps: &WRITTEN,
        denied: Some(&UNSYNCED),
        ..MAILBOX
    },
    Part {
        steps: &[Step::At("", Entry::SetMode(0o700))],
        ..MAILBOX
    },
];

// Behind a storage a mailbox is opened: the first call fails, and nothing is made.
const BOTH: [Part; 2] = [
    Part {
        steps: &[
            Step::Has(Some(false)),
            Step::At("storage", Entry::Mode(0o700)),
            Step::Replaces(Name::Log, b"log", true),
            Step::Replaces(Name::Mail(3), b"", true),
            Step::At("", Entry::Counts(1)),
            Step::At("storage", Entry::Counts(2)),
            Step::At("storage/dovecot.map.index.log", Entry::Text("log")),
            Step::At("storage/m.3", Entry::Text("")),
            Step::Faults(0),
        ],
        ..STORAGE
    },
    Part {
        steps: &[
            Step::Has(None),
            Step::Faults(1),
            Step::At("", Entry::Counts(1)),
        ],
        ..MAILBOX
    },
];

// The same the other way round.
const OF_MAILBOX: [Part; 1] = [Part {
    steps: &[
        Step::At("", Entry::Folder),
        Step::At("u.1", Entry::Put("")),
        Step::Has(None),
        Step::Faults(1),
        Step::At("", Entry::Counts(1)),
    ],
    ..STORAGE
}];

// A link that has the name of a storage's folder isn't followed: it is no folder, and no file that
// stands where it leads is one of the other layout.
const LINKED: [Part; 2] = [
    Part {
        steps: &[
            Step::At("", Entry::Folder),
            Step::At("elsewhere", Entry::Folder),
            Step::At("storage", Entry::Link("elsewhere")),
            Step::Has(None),
            Step::Faults(1),
            Step::At("elsewhere", Entry::Counts(0)),
        ],
        ..STORAGE
    },
    Part {
        steps: &[
            Step::At("elsewhere/dovecot.map.index.log", Entry::Put("log")),
            Step::Has(Some(false)),
            Step::Replaces(Name::Log, b"log", true),
            Step::At("elsewhere", Entry::Counts(1)),
            Step::Faults(0),
        ],
        ..MAILBOX
    },
];

const UNMADE: [Step; 5] = [
    Step::Has(None),
    Step::Lists(None),
    Step::Replaces(Name::Log, b"log", false),
    Step::Faults(3),
    Step::At("", Entry::Missing),
];

// A missing folder isn't made where that is refused, nor one that is in a missing folder.
const REFUSED: [Part; 3] = [
    Part {
        missing: Missing::Refuse,
        steps: &UNMADE,
        ..MAILBOX
    },
    Part {
        missing: Missing::Refuse,
        steps: &UNMADE,
        ..STORAGE
    },
    Part {
        inside: "folder",
        steps: &UNMADE,
        ..MAILBOX
    },
];

// The folder is a link, and what it names is moved away and has another folder in its place.
const SWAPPED: [Part; 2] = [
    Part {
        steps: &[
            Step::At("", Entry::Folder),
            Step::At("link.real", Entry::Folder),
            Step::At("link", Entry::Link("link.real")),
        ],
        ..MAILBOX
    },
    Part {
        inside: "link",
        steps: &[
            Step::Replaces(Name::Log, b"log", true),
            Step::At("", Entry::Swap),
            Step::Reads(Name::Log, Some(b"log")),
            Step::Replaces(Name::Mail(1), b"mail", true),
            Step::Lists(Some(2)),
            Step::At("", Entry::Counts(0)),
            Step::Faults(0),
        ],
        ..MAILBOX
    },
];

// Each call on a folder that another value has fails, and none on that one.
const IN_USE: [Part; 2] = [
    Part {
        steps: &[
            Step::Replaces(Name::Log, b"kept", true),
            Step::At("", Entry::InUse),
            Step::Reads(Name::Log, Some(b"kept")),
        ],
        ..MAILBOX
    },
    Part {
        steps: &[Step::Reads(Name::Log, Some(b"kept")), Step::Faults(0)],
        ..MAILBOX
    },
];

/// A test's folder, by its name, and what has to hold of it.
struct Case {
    name: &'static str,
    parts: &'static [Part],
}

const CASES: [Case; 12] = [
    Case {
        name: "files_of_a_real_folder",
        parts: &[Part {
            steps: &FILES,
            ..MAILBOX
        }],
    },
    Case {
        name: "no_name_is_a_file",
        parts: &[Part {
            steps: &NO_FILE,
            ..MAILBOX
        }],
    },
    Case {
        name: "a_cache_file_alone",
        parts: &[Part {
            steps: &CACHE_ALONE,
            ..MAILBOX
        }],
    },
    Case {
        name: "what_is_no_file_is_not_there",
        parts: &[Part {
            steps: &IRREGULAR,
            ..MAILBOX
        }],
    },
    Case {
        name: "denied_is_not_missing",
        parts: &[Part {
            steps: &DENIED,
            ..MAILBOX
        }],
    },
    Case {
        name: "a_parent_may_not_be_read",
        parts: &PARENT,
    },
    Case {
        name: "a_mailbox_over_a_storage",
        parts: &BOTH,
    },
    Case {
        name: "a_storage_over_a_mailbox",
        parts: &OF_MAILBOX,
    },
    Case {
        name: "a_link_is_named_storage",
        parts: &LINKED,
    },
    Case {
        name: "a_missing_folder_is_refused",
        parts: &REFUSED,
    },
    Case {
        name: "another_folder_takes_its_place",
        parts: &SWAPPED,
    },
    Case {
        name: "a_folder_is_in_use",
        parts: &IN_USE,
    },
];

/// Fails unless all parts hold, one after the other. The folder is removed then.
fn play(rt: HostRuntime, case: &Case) -> Result<(), Fail> {
    let path = scratch(rt, case.name)?;
    let other = first_other_part(rt, path.as_str(), case.parts);
    if !is_cleared(rt, path.as_str()) {
        return Err(Fail::from("the folder is left"));
    }
    match other {
        Some(place) => Err(Fail::from((case.name, place))),
        None => Ok(()),
    }
}

fn all_hold(rt: HostRuntime, cases: &[Case]) -> Result<(), Fail> {
    for case in cases {
        play(rt, case)?;
    }
    Ok(())
}

#[test]
fn a_real_folder_answers(rt: HostRuntime) -> Result<(), Fail> {
    all_hold(rt, &CASES)
}

const HERE: [Step; 4] = [
    Step::Replaces(Name::Mail(1), b"mail", true),
    Step::Reads(Name::Mail(1), Some(b"mail")),
    Step::Removes(Name::Mail(1), true),
    Step::Faults(0),
];

fn first_other_here(rt: HostRuntime, steps: &[Step]) -> Option<usize> {
    first_other(rt, ".", &MAILBOX, steps)
}

#[test]
fn the_working_folder_is_written(rt: HostRuntime) -> Result<(), Fail> {
    match first_other_here(rt, &HERE) {
        Some(at) => Err(Fail::from(at)),
        None => Ok(()),
    }
}

fn is_send<T: Send + Drop>(_value: T) {}

fn folder_is_send(folder: Folder) {
    is_send(folder);
}

fn is_folder_sent(rt: HostRuntime) -> bool {
    match Folder::new(rt.alloc(), rt, "", Layout::Mailbox, Missing::Make) {
        Ok(folder) => {
            folder_is_send(folder);
            true
        }
        Err(_) => false,
    }
}

fn is_nothing_read(rt: HostRuntime) -> bool {
    let mut input = Input::new(rt);
    let mut room = [0u8; 0];
    input.read(&mut room).is_ok() && input.faults() == 0
}

fn is_nothing_written(rt: HostRuntime) -> bool {
    let mut output = Output::new(rt);
    write_error(rt, b"");
    output.write_all(b"").is_ok() && output.faults() == 0
}

fn is_clock_set(rt: HostRuntime) -> bool {
    is_send(SystemClock::new(rt));
    SystemClock::new(rt).now() > 1_600_000_000
}

fn all_are(found: &[bool]) -> Result<(), Fail> {
    match found.iter().position(|is_so| !*is_so) {
        Some(at) => Err(Fail::from(at)),
        None => Ok(()),
    }
}

#[test]
fn streams_and_clock(rt: HostRuntime) -> Result<(), Fail> {
    all_are(&[
        is_folder_sent(rt),
        is_nothing_read(rt),
        is_nothing_written(rt),
        is_clock_set(rt),
    ])
}
