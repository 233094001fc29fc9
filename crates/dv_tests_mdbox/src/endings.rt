//! How runs end that answer no call, or not all.

use crate::runs::{Setting, ended, files_in, given, new_shelf, play, shelf_of};
use dv_model::{Bytes, List};
use dv_shelf::{Folder, Name};
use std::alloc::Global;
use std::test::Fail;

const GOOD: Setting = Setting {
    words: &["mdbox"],
    script: b"SAVE {1}\na\nGET 1\n",
    source_fails: &[],
    sink_fails: &[],
};

/// What a run over a new folder is given, of which these calls fail, and how it ends.
struct Case {
    given: Setting<'static>,
    fails: &'static [u32],
    status: u8,
    output: &'static str,
    is_made: bool,
}

const CASES: &[Case] = &[
    // Other words.
    Case {
        given: Setting {
            words: &["mdbox", "1"],
            ..GOOD
        },
        fails: &[],
        status: 1,
        output: "FAULT 1 USAGE\n",
        is_made: false,
    },
    Case {
        given: Setting {
            words: &["MDBOX"],
            ..GOOD
        },
        fails: &[],
        status: 1,
        output: "FAULT 1 USAGE\n",
        is_made: false,
    },
    // A folder that can't be listed, or made.
    Case {
        given: GOOD,
        fails: &[1],
        status: 2,
        output: "FAULT 2 DISK 1\n",
        is_made: false,
    },
    Case {
        given: GOOD,
        fails: &[2],
        status: 2,
        output: "FAULT 2 DISK 1\n",
        is_made: false,
    },
    // A script that is refused leaves the folder.
    Case {
        given: Setting {
            script: b"SAVE {1}\na\nGET 01\n",
            ..GOOD
        },
        fails: &[],
        status: 5,
        output: "FAULT 5 LINE 3\n",
        is_made: false,
    },
    Case {
        given: Setting {
            script: b"a SELECT\n",
            ..GOOD
        },
        fails: &[],
        status: 5,
        output: "FAULT 5 LINE 1\n",
        is_made: false,
    },
    Case {
        given: Setting {
            script: b"PURGE\nSAVE {3}\nab",
            ..GOOD
        },
        fails: &[],
        status: 5,
        output: "FAULT 5 SHORT LITERAL 2\n",
        is_made: false,
    },
    // The script can't be read, or the output written.
    Case {
        given: Setting {
            source_fails: &[1],
            ..GOOD
        },
        fails: &[],
        status: 6,
        output: "FAULT 6 SOURCE 1\n",
        is_made: false,
    },
    Case {
        given: Setting {
            sink_fails: &[1],
            ..GOOD
        },
        fails: &[],
        status: 7,
        output: "",
        is_made: true,
    },
    Case {
        given: Setting {
            sink_fails: &[5],
            ..GOOD
        },
        fails: &[],
        status: 7,
        output: "OK 1\nOK {",
        is_made: true,
    },
];

#[test]
fn each_end_has_its_status(rt: HostRuntime) -> Result<(), Fail> {
    let alloc = rt.alloc();
    for case in CASES {
        let mut left = play(alloc, new_shelf(alloc, case.fails)?, case.given)?;
        ended(&left, case.status, case.output)?;
        let is_made = !files_in(alloc, &mut left.shelf)?.is_empty();
        if is_made != case.is_made {
            return Err(Fail::from("another folder"));
        }
    }
    Ok(())
}

#[test]
fn a_script_of_more_than_64_mib_is_refused(rt: HostRuntime) -> Result<(), Fail> {
    let alloc = rt.alloc();
    let script = vec![in alloc; b'\n'; 67_108_865]?;
    let left = play(alloc, new_shelf(alloc, &[])?, given(script.as_slice()))?;
    ended(&left, 5, "FAULT 5 TOO LONG\n")
}

// The header of a log of file sequence 2, as a Dovecot server's storage has it, and the bytes of a
// snapshot that isn't this program's.
const SECOND: &[u8] = b"\x01\x03\x28\x00\xe8\x03\x00\x00\x02\x00\x00\x00\x01\x00\x00\x00\
    \x5c\x00\x00\x00\xe8\x03\x00\x00\x01\x00\x00\x00\x00\x00\x00\x00\
    \x01\x00\x00\x00\x00\x00\x00\x00\x00\x00\x00\x00";

const INDEX: &[u8] = b"\x07\x03\x78\x00\xe8\x00\x00\x00";

const TEXT: &[u8] = b"2 M1e C3e9\n";

fn another_storage(alloc: Global) -> Result<Folder, Fail> {
    let mut folder = List::new(alloc);
    for (name, bytes) in [
        (Name::Log, SECOND),
        (Name::Index, INDEX),
        (Name::Mail(1), TEXT),
    ] {
        folder.push((name, Bytes::from_slice(alloc, bytes)?))?;
    }
    Ok(folder)
}

const LINES: [&[u8]; 5] = [
    b"SAVE {1}\na\n",
    b"COPY 1\n",
    b"DROP 1\n",
    b"GET 1\n",
    b"PURGE\n",
];

#[test]
fn a_storage_of_another_server_is_left_as_it_was(rt: HostRuntime) -> Result<(), Fail> {
    let alloc = rt.alloc();
    let folder = another_storage(alloc)?;
    for line in LINES {
        let mut left = play(alloc, shelf_of(alloc, &folder)?, given(line))?;
        ended(&left, 3, "FAULT 3 BadIndex\n")?;
        if files_in(alloc, &mut left.shelf)?.len() != 3 {
            return Err(Fail::from("another number of files"));
        }
        for (name, bytes) in folder.as_slice() {
            if crate::runs::bytes_of(alloc, &mut left.shelf, *name).as_slice() != bytes.as_slice() {
                return Err(Fail::from("a file was changed"));
            }
        }
    }
    Ok(())
}
