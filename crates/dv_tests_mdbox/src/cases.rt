//! Scripts over a new folder, what is printed, and which message files are left.

use crate::runs::{ended, files_in, given, new_shelf, play};
use dv_shelf::Name;
use std::alloc::Global;
use std::test::Fail;

/// A script over a new folder of which these calls fail, what is printed, and the message files
/// that are left.
struct Case {
    script: &'static [u8],
    fails: &'static [u32],
    output: &'static str,
    files: &'static [u32],
}

const CASES: &[Case] = &[
    // One message, copied and dropped.
    Case {
        script: b"SAVE {5}\nhello\nCOPY 1\nDROP 1\nDROP 1\nGET 1\nPURGE\n",
        fails: &[],
        output: "OK 1\nOK 1\nOK 1\nOK 1\nNO NONE\nOK PURGED 1\nEND 0 MARK 1:336 GROUPS 5\n",
        files: &[],
    },
    // The kept text of a file goes into a new one.
    Case {
        script: b"SAVE {1}\na\nSAVE {2}\nbc\nDROP 1\nPURGE\nGET 2\n",
        fails: &[],
        output: "OK 1\nOK 2\nOK 1\nOK PURGED 1\nOK {2}\nbc\nEND 0 MARK 1:416 GROUPS 4\n",
        files: &[2],
    },
    // Nothing is asked, and what is passed over.
    Case {
        script: b"",
        fails: &[],
        output: "END 0 MARK 1:56 GROUPS 0\n",
        files: &[],
    },
    Case {
        script: b"\n# nothing\r\n\r\nPURGE",
        fails: &[],
        output: "OK PURGED 0\nEND 0 MARK 1:56 GROUPS 0\n",
        files: &[],
    },
    // Any bytes are a message, and so is none.
    Case {
        script: b"SAVE {4}\n\n\r\n#\nSAVE {0}\n\r\nGET 1\nGET 2\n",
        fails: &[],
        output: "OK 1\nOK 2\nOK {4}\n\n\r\n#\nOK {0}\n\nEND 0 MARK 1:296 GROUPS 2\n",
        files: &[1],
    },
    // Ids that aren't there, or have no reference. One that went isn't given again.
    Case {
        script: b"COPY 0\nDROP 1\nGET 4294967295\nSAVE {1}\na\nDROP 1\nCOPY 1\nDROP 1\nGET 1\n\
            PURGE\nCOPY 1\nSAVE {1}\nb\nGET 2\n",
        fails: &[],
        output: "NO NONE\nNO NONE\nNO NONE\nOK 1\nOK 1\nNO NONE\nNO NONE\nNO NONE\nOK PURGED 1\n\
            NO NONE\nOK 2\nOK {1}\nb\nEND 0 MARK 1:360 GROUPS 4\n",
        files: &[1],
    },
    // The listing before a text fails, and the next call is done.
    Case {
        script: b"SAVE {1}\na\nSAVE {1}\nb\nGET 1\n",
        fails: &[3],
        output: "NO DISK 1\nOK 1\nOK {1}\nb\nEND 0 MARK 1:176 GROUPS 1\n",
        files: &[1],
    },
];

// Fails unless the case ends as it is to.
fn check(alloc: Global, case: &Case) -> Result<(), Fail> {
    let mut left = play(alloc, new_shelf(alloc, case.fails)?, given(case.script))?;
    ended(&left, 0, case.output)?;
    let names = files_in(alloc, &mut left.shelf)?;
    if names.len() != case.files.len() + 1 {
        return Err(Fail::from("another number of files"));
    }
    for file in case.files {
        if !names.as_slice().contains(&Name::Mail(*file)) {
            return Err(Fail::from("a file is missing"));
        }
    }
    Ok(())
}

#[test]
fn calls_are_answered_by_their_rules(rt: HostRuntime) -> Result<(), Fail> {
    for case in CASES {
        check(rt.alloc(), case)?;
    }
    Ok(())
}
