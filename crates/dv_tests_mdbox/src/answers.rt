//! What is answered in storages whose log or files are another's: the log of one save, with other
//! numbers in it.

use crate::runs::{Left, bytes_of, ended, given, new_shelf, play, shelf_of};
use dv_model::{Bytes, List};
use dv_shelf::{Folder, Name};
use std::alloc::Global;
use std::test::Fail;

// Where the log of one save has the numbers of its row: the id three times, the text's file, offset
// and size, and the count.
const IDS: &[usize] = &[64, 112, 168];

const FILE: &[usize] = &[116];

const SIZE: &[usize] = &[124];

const COUNT: &[usize] = &[172];

// The count as the two low bytes of a number, with the two behind it.
const MOST_REFERENCES: u32 = 65_535;

/// Numbers at places of the log, whether the message file is kept, a script, and what is printed.
struct Case {
    numbers: &'static [(&'static [usize], u32)],
    keeps_file: bool,
    script: &'static [u8],
    output: &'static str,
}

const CASES: &[Case] = &[
    // The number of an id's references ends there.
    Case {
        numbers: &[(COUNT, MOST_REFERENCES)],
        keeps_file: true,
        script: b"COPY 1\nDROP 1\nCOPY 1\nGET 1\n",
        output: "NO FULL\nOK 1\nOK 1\nOK {1}\na\nEND 0 MARK 1:272 GROUPS 2\n",
    },
    // The last id was given.
    Case {
        numbers: &[(IDS, 4_294_967_294)],
        keeps_file: true,
        script: b"SAVE {1}\nb\nGET 4294967294\n",
        output: "NO IDS\nOK {1}\na\nEND 0 MARK 1:176 GROUPS 0\n",
    },
    // The last file has no room for one more text.
    Case {
        numbers: &[(FILE, 4_294_967_295), (SIZE, 2_097_152)],
        keeps_file: true,
        script: b"SAVE {1}\nb\nCOPY 1\n",
        output: "NO FILES\nOK 1\nEND 0 MARK 1:224 GROUPS 1\n",
    },
    // The text isn't in its file, or isn't whole.
    Case {
        numbers: &[],
        keeps_file: false,
        script: b"GET 1\n",
        output: "NO DAMAGED\nEND 0 MARK 1:176 GROUPS 0\n",
    },
    Case {
        numbers: &[(SIZE, 20)],
        keeps_file: true,
        script: b"GET 1\n",
        output: "NO DAMAGED\nEND 0 MARK 1:176 GROUPS 0\n",
    },
];

// The bytes with the number at these places.
fn with_number(alloc: Global, bytes: &[u8], places: &[usize], number: u32) -> Result<Bytes, Fail> {
    let digits = number.to_le_bytes();
    let mut changed = Bytes::new(alloc);
    for (at, byte) in bytes.iter().enumerate() {
        let place = places
            .iter()
            .find(|place| **place <= at && at - **place < 4);
        changed.push(match place {
            Some(place) => digits[at - *place],
            None => *byte,
        })?;
    }
    Ok(changed)
}

// The folder of a case.
fn folder_of(alloc: Global, case: &Case) -> Result<Folder, Fail> {
    let mut left = play(alloc, new_shelf(alloc, &[])?, given(b"SAVE {1}\na\n"))?;
    ended(&left, 0, "OK 1\nEND 0 MARK 1:176 GROUPS 1\n")?;
    let mut log = bytes_of(alloc, &mut left.shelf, Name::Log);
    for (places, number) in case.numbers {
        log = with_number(alloc, log.as_slice(), places, *number)?;
    }
    let mut folder = List::new(alloc);
    folder.push((Name::Log, log))?;
    if case.keeps_file {
        folder.push((
            Name::Mail(1),
            bytes_of(alloc, &mut left.shelf, Name::Mail(1)),
        ))?;
    }
    Ok(folder)
}

#[test]
fn limits_and_damage_are_answered(rt: HostRuntime) -> Result<(), Fail> {
    let alloc = rt.alloc();
    for case in CASES {
        let folder = folder_of(alloc, case)?;
        let left = play(alloc, shelf_of(alloc, &folder)?, given(case.script))?;
        ended(&left, 0, case.output)?;
    }
    Ok(())
}

// A message of so many bytes is saved, and then another.
fn saved(alloc: Global, size: usize) -> Result<Left, Fail> {
    let mut script = Bytes::new(alloc);
    script.extend(format!(in alloc; "SAVE {{{size}}}\n")?.as_bytes())?;
    script.extend(vec![in alloc; b'x'; size]?.as_slice())?;
    script.extend(b"\nSAVE {1}\na\n")?;
    play(alloc, new_shelf(alloc, &[])?, given(script.as_slice()))
}

#[test]
fn a_message_of_more_than_32_mib_is_refused(rt: HostRuntime) -> Result<(), Fail> {
    ended(
        &saved(rt.alloc(), 33_554_433)?,
        0,
        "NO BYTES 33554433\nOK 1\nEND 0 MARK 1:176 GROUPS 1\n",
    )
}
