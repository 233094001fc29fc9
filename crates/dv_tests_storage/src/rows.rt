//! Scripts with their answers, the place behind them and the files that are left.

use crate::runs::{Left, has_files, play, shelf_of};
use dv_mdbox_serving::StorageEnd;
use dv_model::{List, Mark};
use std::alloc::Global;
use std::test::*;

/// Whether a script over a new folder is answered so, ends at this offset of the first log with so
/// many groups, and leaves these message files.
fn is_row(
    alloc: Global,
    script: &[u8],
    answers: &[u8],
    offset: u32,
    groups: u64,
    files: &[u32],
) -> Result<bool, Fail> {
    let shelf = shelf_of(alloc, &List::new(alloc), &[], None)?;
    let Left {
        end,
        output,
        mut shelf,
    } = play(alloc, shelf, script)?;
    let wanted = StorageEnd::Answered {
        mark: Mark {
            file_seq: 1,
            offset,
        },
        groups,
    };
    let left = has_files(alloc, &mut shelf, files)?;
    Ok(end == wanted && output.as_slice() == answers && left)
}

#[test]
fn message_without_references_is_purged(rt: HostRuntime) -> Result<(), Fail> {
    let script = b"SAVE {5}\nhello\nCOPY 1\nDROP 1\nDROP 1\nGET 1\nPURGE\n";
    let answers = b"OK 1\nOK 1\nOK 1\nOK 1\nNO NONE\nOK PURGED 1\n";
    assert_eq!(rt; is_row(rt.alloc(), script, answers, 336, 5, &[])?, true);
    Ok(())
}

#[test]
fn kept_text_goes_into_a_new_file(rt: HostRuntime) -> Result<(), Fail> {
    let script = b"SAVE {1}\na\nSAVE {2}\nbc\nDROP 1\nPURGE\nGET 2\n";
    let answers = b"OK 1\nOK 2\nOK 1\nOK PURGED 1\nOK {2}\nbc\n";
    assert_eq!(rt; is_row(rt.alloc(), script, answers, 416, 4, &[2])?, true);
    Ok(())
}

#[test]
fn ids_that_are_not_there_have_no_reference(rt: HostRuntime) -> Result<(), Fail> {
    let script = b"COPY 0\nDROP 1\nGET 4294967295\nPURGE\nSAVE {0}\n\nGET 1\n";
    let answers = b"NO NONE\nNO NONE\nNO NONE\nOK PURGED 0\nOK 1\nOK {0}\n\n";
    assert_eq!(rt; is_row(rt.alloc(), script, answers, 176, 1, &[1])?, true);
    Ok(())
}
