//! A shelf that stops, over a folder in memory.
use crate::Stopping;
use dv_model::{List, NoMemory};
use dv_shelf::{MemShelf, Name, Shelf, ShelfFault};
use std::alloc::Global;
use std::test::Fail;

/// What four calls leave of a shelf that passes so many.
struct Case {
    calls: u64,
    faults: u64,
    /// How many calls the folder has had.
    made: u64,
    /// How many images of it there are.
    images: usize,
    log: &'static [u8],
}

const CASES: [Case; 6] = [
    Case {
        calls: 0,
        faults: 4,
        made: 1,
        images: 1,
        log: b"abc",
    },
    Case {
        calls: 1,
        faults: 3,
        made: 2,
        images: 6,
        log: b"aXc",
    },
    Case {
        calls: 2,
        faults: 2,
        made: 3,
        images: 1,
        log: b"aXc",
    },
    Case {
        calls: 3,
        faults: 1,
        made: 4,
        images: 1,
        log: b"new",
    },
    Case {
        calls: 4,
        faults: 0,
        made: 4,
        images: 1,
        log: b"new",
    },
    Case {
        calls: 5,
        faults: 0,
        made: 4,
        images: 1,
        log: b"new",
    },
];

fn new_shelf(alloc: Global, calls: u64) -> Result<Stopping<MemShelf>, NoMemory> {
    let folder = MemShelf::new(alloc, 4096, List::new(alloc), None)?;
    Ok(Stopping::new(folder, calls))
}

/// Whether four calls leave what the case says.
fn is_left(alloc: Global, case: &Case) -> Result<bool, NoMemory> {
    let mut shelf = new_shelf(alloc, case.calls)?;
    let _ = shelf.replace(Name::Log, b"abc");
    let _ = shelf.write_at(Name::Log, 1, b"X");
    let _ = shelf.sync(Name::Log);
    let _ = shelf.replace(Name::Log, b"new");
    let counts = shelf.faults() == case.faults && shelf.has_stopped() == (case.faults > 0);
    let mut folder = shelf.into_inner();
    let made = folder.call_count() == case.made;
    let images = folder.images(alloc)?.len() == case.images;
    let Ok(Some(log)) = folder.read(alloc, Name::Log) else {
        return Err(NoMemory);
    };
    Ok(counts && made && images && log.as_slice() == case.log)
}

#[test]
fn the_call_that_stops_is_made_and_none_behind_it(rt: HostRuntime) -> Result<(), Fail> {
    let alloc = rt.alloc();
    for case in &CASES {
        assert!(rt; is_left(alloc, case)?);
    }
    Ok(())
}

/// Three looks, of which the first passes: how many calls are made, if each answers as it is to.
fn looks(alloc: Global) -> Result<Option<u64>, NoMemory> {
    let mut shelf = new_shelf(alloc, 1)?;
    let is_new = shelf.has_mailbox(alloc) == Ok(false);
    let stops = is_failed(&shelf.list(alloc));
    let behind = is_failed(&shelf.read(alloc, Name::Mail(7)));
    if !(is_new && stops && behind && shelf.faults() == 2) {
        return Ok(None);
    }
    Ok(Some(shelf.into_inner().call_count()))
}

fn is_failed<T>(found: &Result<T, ShelfFault>) -> bool {
    matches!(found, Err(ShelfFault::Failed))
}

#[test]
fn a_look_that_stops_is_made_and_fails(rt: HostRuntime) -> Result<(), Fail> {
    assert!(rt; looks(rt.alloc())? == Some(2));
    Ok(())
}
