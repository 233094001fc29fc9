use crate::cases::{Step, are_answered};
use crate::said::Said;
use dv_asks::{Ask, MemStore, append, clock_of, created, has_file, shelf_with};
use dv_model::{Bytes, Command, How, List};
use dv_plans::StoreFault;
use dv_shelf::{MemShelf, Name};
use dv_view::View;
use std::alloc::Global;
use std::test::*;

const FLAGGED: u8 = 0x02;

const BEFORE: [Step; 2] = [
    (Ask::Append(4, b"leaves"), Said::Appended(1, 72, 1)),
    (Ask::Append(0, b"stays"), Said::Appended(1, 88, 2)),
];

// Here the session's view is taken, which isn't told of these.
const UNTOLD: [Step; 2] = [
    (Ask::Expunge, Said::Wrote(1, 116, &[1])),
    (Ask::Append(4, b"comes"), Said::Appended(1, 132, 3)),
];

// By the view: of the first messages, those that are there; an EXPUNGE is of all.
const BEHIND: [Step; 4] = [
    (
        Ask::Store(1, 9, How::Add, FLAGGED),
        Said::Wrote(1, 152, &[2]),
    ),
    (Ask::Remove(3, 9), Said::Nothing(1, 152)),
    (Ask::Expunge, Said::Wrote(1, 180, &[3])),
    (Ask::Remove(1, 9), Said::Wrote(1, 208, &[2])),
];

// The flag of UID 2, and the two messages that leave.
const RECORDS: &[u8] = b"\x80\x80\x80\x85\x04\0\0\x10\x02\0\0\0\x02\0\0\0\x02\0\0\0\
    \x80\x80\x80\x87\x90\xed\0\x10\x03\0\0\0\0\0\x03\xe8\0\0\x03\xe8\0\0\0\x03\0\0\x03\xe8\
    \x80\x80\x80\x87\x90\xed\0\x10\x02\0\0\0\0\0\x03\xe8\0\0\x03\xe8\0\0\0\x02\0\0\x03\xe8\0\0\0\0";

// Whether a session that isn't told of all is answered so.
fn is_untold(alloc: Global, store: &mut MemStore) -> Result<bool, Fail> {
    let mut texts = Bytes::new(alloc);
    if !are_answered(alloc, store, None, &BEFORE, &mut texts)? {
        return Ok(false);
    }
    let view = View::of(alloc, store.live())?;
    if !are_answered(alloc, store, None, &UNTOLD, &mut texts)? {
        return Ok(false);
    }
    are_answered(alloc, store, Some(&view), &BEHIND, &mut texts)
}

fn untold_folder(alloc: Global) -> Result<MemShelf, Fail> {
    let mut store = created(
        alloc,
        shelf_with(alloc, &[], &[])?,
        clock_of(alloc, &[1000])?,
    )?;
    if !is_untold(alloc, &mut store)? {
        return Err(Fail::from("another answer"));
    }
    Ok(store.parts().0)
}

#[test]
fn untold_rows_are_passed_over(rt: HostRuntime) -> Result<(), Fail> {
    let alloc = rt.alloc();
    let mut shelf = untold_folder(alloc)?;
    assert!(rt; has_file(alloc, &mut shelf, Name::Log, 132, Some(RECORDS)));
    Ok(())
}

// The longest message.
const LONGEST: usize = 33_554_432;

// What comes of a message of so many bytes: the calls of the folder, and what is answered.
fn appended(alloc: Global, bytes: usize) -> Result<(u64, Option<StoreFault>), Fail> {
    let shelf = MemShelf::of(alloc, &List::new(alloc), 34_000_000, List::new(alloc), None)?;
    let mut store = created(alloc, shelf, clock_of(alloc, &[1000])?)?;
    let message = vec![in alloc; b'x'; bytes]?;
    let command = append(0, List::new(alloc), List::from_vec(message));
    let view = View::of(alloc, store.live())?;
    let fault = store.commit_command(&command, &view).err();
    Ok((store.parts().0.call_count(), fault))
}

#[test]
fn longest_message_is_written(rt: HostRuntime) -> Result<(), Fail> {
    assert!(rt; appended(rt.alloc(), LONGEST)? == (6, None));
    Ok(())
}

#[test]
fn longer_message_is_refused(rt: HostRuntime) -> Result<(), Fail> {
    let refused = StoreFault::TooLong { bytes: 33_554_433 };
    assert!(rt; appended(rt.alloc(), LONGEST + 1)? == (1, Some(refused)));
    Ok(())
}
