use crate::{RebuildFault, Rebuilt, rebuild};
use dv_chain::open;
use dv_model::{Bytes, List};
use dv_shelf::{MemClock, MemShelf, Name, Shelf};
use std::alloc::Global;
use std::test::*;

// The log of index 1000: its UIDVALIDITY of 1000, appends of UIDs 1 to 4 up to 120, and the flag
// Seen of UID 2. At 140 stand the first ten bytes of one more append.
const CUT: [u8; 150] = [
    1, 3, 40, 0, 0xe8, 3, 0, 0, 1, 0, 0, 0, 0, 0, 0, 0, 0, 0, 0, 0, //
    0xe8, 3, 0, 0, 1, 0, 0, 0, 0, 0, 0, 0, 1, 0, 0, 0, 0, 0, 0, 0, //
    0x80, 0x80, 0x80, 0x84, 0x20, 0, 0, 0, 24, 0, 4, 0, 0xe8, 3, 0, 0, //
    0x80, 0x80, 0x80, 0x84, 2, 0, 0, 0x10, 1, 0, 0, 0, 0, 0, 0, 0, //
    0x80, 0x80, 0x80, 0x84, 2, 0, 0, 0x10, 2, 0, 0, 0, 0, 0, 0, 0, //
    0x80, 0x80, 0x80, 0x84, 2, 0, 0, 0x10, 3, 0, 0, 0, 0, 0, 0, 0, //
    0x80, 0x80, 0x80, 0x84, 2, 0, 0, 0x10, 4, 0, 0, 0, 0, 0, 0, 0, //
    0x80, 0x80, 0x80, 0x85, 4, 0, 0, 0x10, 2, 0, 0, 0, 2, 0, 0, 0, 8, 0, 0, 0, //
    0x80, 0x80, 0x80, 0x84, 2, 0, 0, 0x10, 5, 0,
];

// A message file of the message hello.
const HELLO: &[u8] = b"2 M1e C3e9\n\x01\x02N          0000000000000005\nhello\n\x01\x03\nR3e9\n\n";

// What is read of a rebuilt folder: how long its log is, its UIDVALIDITY, UIDNEXT and highest
// modification sequence, where the records end, and how many rows it has.
#[derive(Clone, Copy, PartialEq, Eq, Debug)]
struct Told {
    length: usize,
    uid_validity: u32,
    next_uid: u32,
    highest: u64,
    end: u32,
    rows: u32,
}

// The counts of a rebuild.
#[derive(Clone, Copy, PartialEq, Eq, Debug)]
struct Counts {
    kept: u32,
    skipped: u32,
    indexid: u32,
}

fn add(
    alloc: Global,
    files: &mut List<(Name, Bytes)>,
    name: Name,
    bytes: &[u8],
) -> Result<(), Fail> {
    files.push((name, Bytes::from_slice(alloc, bytes)?))?;
    Ok(())
}

// A folder with the log and four messages, of which the third is empty. These calls fail.
fn cut_folder(alloc: Global, fails: &[u32]) -> Result<MemShelf, Fail> {
    let mut files = List::new(alloc);
    add(alloc, &mut files, Name::Log, &CUT)?;
    add(alloc, &mut files, Name::Mail(4), HELLO)?;
    add(alloc, &mut files, Name::Mail(3), b"")?;
    add(alloc, &mut files, Name::Mail(2), HELLO)?;
    add(alloc, &mut files, Name::Mail(1), HELLO)?;
    Ok(MemShelf::of(alloc, &files, 10_000, List::from_slice(alloc, fails)?, None)?)
}

fn rebuilt_at(
    alloc: Global,
    shelf: &mut MemShelf,
    now: u32,
) -> Result<Result<Counts, RebuildFault>, Fail> {
    let mut clock = MemClock::new(alloc, List::from_slice(alloc, &[now])?);
    match rebuild(alloc, shelf, &mut clock) {
        Ok(
            Rebuilt {
                kept,
                skipped,
                indexid,
                ..
            },
        ) => Ok(Ok(Counts {
            kept,
            skipped,
            indexid,
        })),
        Err(e) => Ok(Err(e)),
    }
}

fn told_of(alloc: Global, shelf: &mut MemShelf) -> Result<Told, Fail> {
    let length = match shelf.read(alloc, Name::Log) {
        Ok(Some(log)) => log.len(),
        _ => 0,
    };
    let chain = open(alloc, shelf).ok().ok_or("not opened")?;
    Ok(Told {
        length,
        uid_validity: chain.live.uid_validity(),
        next_uid: chain.live.next_uid(),
        highest: chain.live.highest(),
        end: chain.log.end,
        rows: chain.live.count(),
    })
}

fn cut_is_told(alloc: Global) -> Result<bool, Fail> {
    let mut shelf = cut_folder(alloc, &[])?;
    let rebuilt = rebuilt_at(alloc, &mut shelf, 2000)?;
    let told = told_of(alloc, &mut shelf)?;
    Ok(
        rebuilt
            == Ok(Counts {
                kept: 3,
                skipped: 1,
                indexid: 2000,
            })
            && told
                == Told {
                    length: 108,
                    uid_validity: 1000,
                    next_uid: 5,
                    highest: 10,
                    end: 104,
                    rows: 3,
                },
    )
}

#[test]
fn cut_log_is_salvaged_up_to_the_cut(rt: HostRuntime) -> Result<(), Fail> {
    assert!(rt; cut_is_told(rt.alloc())?);
    Ok(())
}

fn empty_is_told(alloc: Global) -> Result<bool, Fail> {
    let mut shelf = MemShelf::new(alloc, 10_000, List::new(alloc), None)?;
    let rebuilt = rebuilt_at(alloc, &mut shelf, 0)?;
    let told = told_of(alloc, &mut shelf)?;
    Ok(
        rebuilt
            == Ok(Counts {
                kept: 0,
                skipped: 0,
                indexid: 1,
            })
            && told
                == Told {
                    length: 76,
                    uid_validity: 1,
                    next_uid: 1,
                    highest: 3,
                    end: 72,
                    rows: 0,
                },
    )
}

#[test]
fn empty_folder_gets_two_header_updates(rt: HostRuntime) -> Result<(), Fail> {
    assert!(rt; empty_is_told(rt.alloc())?);
    Ok(())
}

fn rebuilt_again_is_told(alloc: Global) -> Result<bool, Fail> {
    let mut shelf = cut_folder(alloc, &[])?;
    let _first = rebuilt_at(alloc, &mut shelf, 2000)?;
    let again = rebuilt_at(alloc, &mut shelf, 2000)?;
    let told = told_of(alloc, &mut shelf)?;
    Ok(
        again
            == Ok(Counts {
                kept: 3,
                skipped: 1,
                indexid: 2001,
            })
            && told
                == Told {
                    length: 108,
                    uid_validity: 1000,
                    next_uid: 5,
                    highest: 13,
                    end: 104,
                    rows: 3,
                },
    )
}

#[test]
fn rebuilt_folder_is_rebuilt_alike_with_another_number(rt: HostRuntime) -> Result<(), Fail> {
    assert!(rt; rebuilt_again_is_told(rt.alloc())?);
    Ok(())
}

// A message file as Dovecot writes it: the fields in another order, digits of upper case, and
// further keys.
const SERVED: &[u8] = b"2 C4A6F7B2C M1e\n\x01\x02N          0000000000000002\nhi\n\x01\x03\n";

const FURTHER: &[u8] = b"P2\nV2\nZ2\nBINBOX\nR4A6F7B2C\nG0123456789abcdef0123456789ABCDEF\n\n";

fn add_served(alloc: Global, files: &mut List<(Name, Bytes)>, n: u32) -> Result<(), Fail> {
    let mut mail = Bytes::from_slice(alloc, SERVED)?;
    mail.extend(FURTHER)?;
    add(alloc, files, Name::Mail(n), mail.as_slice())
}

// A folder that another server made: its index is of a version that isn't read, its log has an
// append of UID 2 with the flag Answered and then a record of no known form, and two of its three
// numbers may be UIDs.
fn served_folder(alloc: Global) -> Result<MemShelf, Fail> {
    let mut log = Bytes::from_slice(alloc, CUT.as_slice().split_at(40).0)?;
    log.extend(&[
        0x80, 0x80, 0x80, 0x84, 2, 0, 0, 0x10, 2, 0, 0, 0, 1, 0, 0, 0,
    ])?;
    log.extend(&[0x80, 0x80, 0x80, 0x83, 0, 0, 0, 0x40, 9, 9, 9, 9])?;
    let mut files = List::new(alloc);
    add(alloc, &mut files, Name::Log, log.as_slice())?;
    add(
        alloc,
        &mut files,
        Name::Index,
        &[7, 3, 240, 0, 80, 1, 20, 0],
    )?;
    add_served(alloc, &mut files, 0)?;
    add_served(alloc, &mut files, 1)?;
    add_served(alloc, &mut files, 2)?;
    Ok(MemShelf::of(alloc, &files, 10_000, List::new(alloc), None)?)
}

fn served_is_told(alloc: Global) -> Result<bool, Fail> {
    let mut shelf = served_folder(alloc)?;
    let rebuilt = rebuilt_at(alloc, &mut shelf, 1000)?;
    let chain = open(alloc, &mut shelf).ok().ok_or("not opened")?;
    Ok(
        rebuilt
            == Ok(Counts {
                kept: 2,
                skipped: 1,
                indexid: 1001,
            })
            && chain.live.uid_validity() == 1001
            && chain.live.next_uid() == 3
            && chain.live.count() == 2
            && chain.live.row(0).flags == 0
            && chain.live.row(1).flags == 1,
    )
}

#[test]
fn folder_of_another_server_is_salvaged(rt: HostRuntime) -> Result<(), Fail> {
    assert!(rt; served_is_told(rt.alloc())?);
    Ok(())
}

// The listing, three files and four messages are read before the log is replaced.
const CALLS: u32 = 9;

fn failing_call_is_told(alloc: Global, n: u32) -> Result<bool, Fail> {
    let mut shelf = cut_folder(alloc, &[n])?;
    let failed = rebuilt_at(alloc, &mut shelf, 2000)? == Err(RebuildFault::Disk(1));
    Ok(failed && rebuilt_at(alloc, &mut shelf, 2000)?.is_ok())
}

#[test]
fn each_failing_call_is_told(rt: HostRuntime) -> Result<(), Fail> {
    for n in 1..=CALLS {
        assert!(rt; failing_call_is_told(rt.alloc(), n)?);
    }
    assert!(rt; !failing_call_is_told(rt.alloc(), CALLS + 1)?);
    Ok(())
}
