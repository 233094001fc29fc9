use crate::folders::{HELLO, LOG, add, rebuilt};
use dv_chain::open;
use dv_model::List;
use dv_rebuild::RebuildFault;
use dv_shelf::{Folder, MemShelf, Name};
use std::alloc::Global;
use std::test::*;

// The listing, three files and three messages are read, and then the log is replaced.
const CALLS: u32 = 8;

// The log has three messages, of which the third is empty. The calls that `fails` lists fail, and
// those behind the first `stop`.
fn folder(alloc: Global, fails: &[u32], stop: Option<u32>) -> Result<MemShelf, Fail> {
    let mut files = List::new(alloc);
    add(alloc, &mut files, Name::Log, LOG)?;
    add(alloc, &mut files, Name::Mail(1), HELLO)?;
    add(alloc, &mut files, Name::Mail(2), HELLO)?;
    add(alloc, &mut files, Name::Mail(3), b"")?;
    let fails = List::from_slice(alloc, fails)?;
    Ok(MemShelf::of(alloc, &files, 10_000, fails, stop)?)
}

// How many messages opening finds in an image, of which the second was seen.
fn messages_in(alloc: Global, image: &Folder) -> Result<u32, Fail> {
    let mut shelf = MemShelf::of(alloc, image, 10_000, List::new(alloc), None)?;
    let live = open(alloc, &mut shelf).ok().ok_or("not opened")?.live;
    if live.count() < 2 || live.row(1).flags != 8 || live.next_uid() != 4 {
        return Err("another mailbox".into());
    }
    Ok(live.count())
}

// Whether each image of the shelf has so many messages.
fn leaves(alloc: Global, shelf: &MemShelf, messages: u32) -> Result<bool, Fail> {
    let images = shelf.images(alloc)?;
    for image in images.as_slice() {
        if messages_in(alloc, image)? != messages {
            return Ok(false);
        }
    }
    Ok(!images.is_empty())
}

#[test]
fn each_call_may_be_the_last(rt: HostRuntime) -> Result<(), Fail> {
    let alloc = rt.alloc();
    for n in 0..CALLS {
        let mut shelf = folder(alloc, &[], Some(n))?;
        assert!(rt; rebuilt(alloc, &mut shelf)? == Err(RebuildFault::Disk(1)));
        assert!(rt; leaves(alloc, &shelf, 3)?);
    }
    let mut shelf = folder(alloc, &[], Some(CALLS))?;
    assert!(rt; rebuilt(alloc, &mut shelf)?.is_ok());
    assert!(rt; leaves(alloc, &shelf, 2)?);
    Ok(())
}

#[test]
fn replace_that_fails_leaves_either(rt: HostRuntime) -> Result<(), Fail> {
    let alloc = rt.alloc();
    let mut hidden = folder(alloc, &[CALLS], None)?;
    assert!(rt; rebuilt(alloc, &mut hidden)? == Err(RebuildFault::Disk(1)));
    assert!(rt; leaves(alloc, &hidden, 3)?);
    let mut shown = folder(alloc, &[CALLS], None)?.showing_failed();
    assert!(rt; rebuilt(alloc, &mut shown)? == Err(RebuildFault::Disk(1)));
    assert!(rt; leaves(alloc, &shown, 2)?);
    Ok(())
}
