use crate::folders::{Counts, HELLO, LOG, add, rebuilt, shelf_of};
use dv_apply::Live;
use dv_chain::open;
use dv_model::{Bytes, List};
use dv_shelf::{MemShelf, Name};
use std::alloc::Global;
use std::test::*;

// Keywords that are added: gone to UID 3, zeta to UIDs 1 and 2, and alpha to UIDs 1 to 3; so the
// table has them in this order. Then zeta is removed from UID 1.
const KEYWORDS: &[u8] = &[
    0x80, 0x80, 0x80, 0x86, 0, 4, 0, 0x10, //
    0, 0, 4, 0, b'g', b'o', b'n', b'e', 3, 0, 0, 0, 3, 0, 0, 0, //
    0x80, 0x80, 0x80, 0x86, 0, 4, 0, 0x10, //
    0, 0, 4, 0, b'z', b'e', b't', b'a', 1, 0, 0, 0, 2, 0, 0, 0, //
    0x80, 0x80, 0x80, 0x87, 0, 4, 0, 0x10, //
    0, 0, 5, 0, b'a', b'l', b'p', b'h', b'a', 0, 0, 0, 1, 0, 0, 0, 3, 0, 0, 0, //
    0x80, 0x80, 0x80, 0x86, 0, 4, 0, 0x10, //
    1, 0, 4, 0, b'z', b'e', b't', b'a', 1, 0, 0, 0, 1, 0, 0, 0, //
    0, 0, 0, 0,
];

// The message file of UID 3 is empty, and that of UID 4 isn't in the log.
fn named_folder(alloc: Global) -> Result<MemShelf, Fail> {
    let mut log = Bytes::from_slice(alloc, LOG.split_at(116).0)?;
    log.extend(KEYWORDS)?;
    let mut files = List::new(alloc);
    add(alloc, &mut files, Name::Log, log.as_slice())?;
    add(alloc, &mut files, Name::Mail(1), HELLO)?;
    add(alloc, &mut files, Name::Mail(2), HELLO)?;
    add(alloc, &mut files, Name::Mail(3), b"")?;
    add(alloc, &mut files, Name::Mail(4), HELLO)?;
    shelf_of(alloc, &files)
}

fn has_row(live: &Live, k: u32, uid: u32, flags: u8, places: &[u32]) -> bool {
    if k >= live.count() {
        return false;
    }
    let row = live.row(k);
    row.uid == uid && row.flags == flags && row.keywords.as_slice() == places
}

fn has_name(live: &Live, at: u32, name: &[u8]) -> bool {
    at < live.names().count() && live.names().name(at).as_slice() == name
}

fn keywords_are_told(alloc: Global) -> Result<bool, Fail> {
    let mut shelf = named_folder(alloc)?;
    let told = rebuilt(alloc, &mut shelf)?
        == Ok(Counts {
            kept: 3,
            skipped: 1,
        });
    let live = open(alloc, &mut shelf).ok().ok_or("not opened")?.live;
    let names = live.names().count() == 2
        && has_name(&live, 0, b"zeta")
        && has_name(&live, 1, b"alpha");
    let rows = live.count() == 3
        && has_row(&live, 0, 1, 0, &[1])
        && has_row(&live, 1, 2, 8, &[0, 1])
        && has_row(&live, 2, 4, 0, &[]);
    Ok(told && names && rows)
}

#[test]
fn keywords_are_salvaged_by_their_names(rt: HostRuntime) -> Result<(), Fail> {
    assert!(rt; keywords_are_told(rt.alloc())?);
    Ok(())
}
