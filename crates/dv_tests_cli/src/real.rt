//! Runs over real folders.

use crate::rows::FIRST_FILE;
use crate::runs::{Left, RUN, Run, is_as_said, play_in};
use dv_folder::{Folder, Layout, Missing};
use dv_model::NoMemory;
use std::alloc::Global;
use std::test::*;
use std::{fs, process};

// A file of the folder, which is there or not.
type There = (&'static str, bool);

// Two runs over a real folder.
struct Case {
    name: &'static str,
    is_storage: bool,
    /// The first one still holds the folder while the second is asked.
    is_held: bool,
    first: Run,
    /// A file that the first one leaves, with its bytes.
    kept: Option<(&'static str, &'static [u8])>,
    second: Run,
    /// What the second one leaves.
    left: &'static [There],
}

const FIRST: Run = Run {
    script: "a SELECT\na APPEND () {5}\nhello\na STORE 1 +FLAGS (\\Seen)\n",
    text: &[
        "a * 0 EXISTS
a * OK [UIDVALIDITY 1000]
a * OK [UIDNEXT 1]
a OK [MARK 1:56] SELECT
a * 1 EXISTS
a * 1 FETCH (UID 1 FLAGS ())
a OK [APPENDUID 1000 1] [MARK 1:72] APPEND
a * 1 FETCH (UID 1 FLAGS (\\Seen))
a OK [MARK 1:92] STORE
END 0 MARK 1:92 GROUPS 2
",
    ],
    ..RUN
};

const SECOND: Run = Run {
    script: "b SELECT\nb FETCH 1 (BODY[])\nb STORE 1 +FLAGS (\\Deleted)\nb EXPUNGE\n",
    text: &[
        "b * 1 EXISTS
b * OK [UIDVALIDITY 1000]
b * OK [UIDNEXT 2]
b * 1 FETCH (UID 1 FLAGS (\\Seen))
b OK [MARK 1:92] SELECT
b * 1 FETCH (UID 1 BODY[] {5}
hello)
b OK [MARK 1:92] FETCH
b * 1 FETCH (UID 1 FLAGS (\\Deleted \\Seen))
b OK [MARK 1:112] STORE
b * 1 EXPUNGE
b OK [MARK 1:140] EXPUNGE
END 0 MARK 1:140 GROUPS 2
",
    ],
    ..RUN
};

const CASES: &[Case] = &[
    Case {
        name: "keeps_mail_until_the_next_run",
        is_storage: false,
        is_held: false,
        first: FIRST,
        kept: Some(("u.1", FIRST_FILE)),
        second: SECOND,
        left: &[],
    },
    Case {
        name: "keeps_messages_until_the_next_run",
        is_storage: true,
        is_held: false,
        first: Run {
            words: &["mdbox"],
            script: "SAVE {1}\na\nSAVE {2}\nbc\nDROP 1\n",
            text: &["OK 1\nOK 2\nOK 1\nEND 0 MARK 1:344 GROUPS 3\n"],
            ..RUN
        },
        kept: None,
        second: Run {
            words: &["mdbox"],
            script: "PURGE\nGET 2\n",
            text: &["OK PURGED 1\nOK {2}\nbc\nEND 0 MARK 1:416 GROUPS 1\n"],
            ..RUN
        },
        left: &[
            ("storage/m.1", false),
            ("storage/m.2", true),
            ("storage/dovecot.map.index.log", true),
        ],
    },
    Case {
        name: "refuses_a_second_run_at_once",
        is_storage: false,
        is_held: true,
        first: FIRST,
        kept: None,
        second: Run {
            status: 2,
            text: &["FAULT 2 DISK 1\n"],
            ..SECOND
        },
        left: &[],
    },
];

fn run_in(
    alloc: Global,
    rt: HostRuntime,
    path: &str,
    is_storage: bool,
    asked: &Run,
) -> Result<Left<Folder>, NoMemory> {
    let layout = if is_storage {
        Layout::Storage
    } else {
        Layout::Mailbox
    };
    let shelf = Folder::new(alloc, rt, path, layout, Missing::Make)?;
    play_in(alloc, shelf, asked.script.as_bytes(), asked)
}

fn is_run_so(
    alloc: Global,
    rt: HostRuntime,
    path: &str,
    is_storage: bool,
    asked: &Run,
) -> Result<bool, NoMemory> {
    let left = run_in(alloc, rt, path, is_storage, asked)?;
    is_as_said(alloc, &left, asked)
}

// Whether the first run is so, and the second one too where it comes while the first holds the
// folder.
fn is_first_so(alloc: Global, rt: HostRuntime, path: &str, case: &Case) -> Result<bool, NoMemory> {
    let first = run_in(alloc, rt, path, case.is_storage, &case.first)?;
    let is_refused = !case.is_held || is_run_so(alloc, rt, path, case.is_storage, &case.second)?;
    Ok(is_refused && is_as_said(alloc, &first, &case.first)?)
}

// Whether a file of the folder has these bytes.
fn has_file(alloc: Global, rt: HostRuntime, path: &str, name: &str, bytes: &[u8]) -> bool {
    let Ok(place) = format!(in alloc; "{path}/{name}") else {
        return false;
    };
    match fs::read(&rt, place) {
        Ok(file) => file.as_slice() == bytes,
        Err(_) => false,
    }
}

// Whether each of these files is there or not, as it says.
fn are_there(alloc: Global, rt: HostRuntime, path: &str, files: &[There]) -> bool {
    for (name, is_there) in files {
        let Ok(place) = format!(in alloc; "{path}/{name}") else {
            return false;
        };
        if fs::metadata(&rt, place).is_ok() != *is_there {
            return false;
        }
    }
    true
}

fn is_so(alloc: Global, rt: HostRuntime, path: &str, case: &Case) -> Result<bool, NoMemory> {
    if !is_first_so(alloc, rt, path, case)? {
        return Ok(false);
    }
    if let Some((name, bytes)) = case.kept {
        if !has_file(alloc, rt, path, name, bytes) {
            return Ok(false);
        }
    }
    Ok(
        (case.is_held || is_run_so(alloc, rt, path, case.is_storage, &case.second)?)
            && are_there(alloc, rt, path, case.left),
    )
}

#[test]
fn real_folders_are_kept(rt: HostRuntime) -> Result<(), Fail> {
    let alloc = rt.alloc();
    let id = process::id(rt.process());
    for case in CASES {
        let name = case.name;
        let path = format!(in alloc; "{name}_of_test_{id}")?;
        let is_so = matches!(is_so(alloc, rt, path.as_str(), case), Ok(true));
        assert!(rt; is_so, "{name}");
        fs::remove_dir_all(&rt, path.as_str())?;
    }
    Ok(())
}
