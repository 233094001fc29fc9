ghost use Rattle.std.specs.Prelude.{IfOk};
ghost use Rattle.dv_chain.specs.Openings.{HasBounds};

use dv_chain::{Chain, open};
use dv_files::snapshot;
use dv_model::{Bytes, List, NoMemory};
use dv_shelf::{MemShelf, Name};
use std::alloc::Global;
use std::test::*;

// The first file of index 1000: a UIDVALIDITY of 1000, an append of UID 7, its keyword old, and an
// update by which all UIDs have the keyword new alone.
const LOG: &[u8] =
    b"\x01\x03\x28\0\xe8\x03\0\0\x01\0\0\0\0\0\0\0\0\0\0\0\xe8\x03\0\0\x01\0\0\0\0\0\0\0\x01\0\0\0\0\0\0\0\
\x80\x80\x80\x84\x20\0\0\0\x18\0\x04\0\xe8\x03\0\0\
\x80\x80\x80\x84\x02\0\0\x10\x07\0\0\0\0\0\0\0\
\x80\x80\x80\x86\0\x04\0\x10\0\0\x03\0old\0\x07\0\0\0\x07\0\0\0\
\x80\x80\x80\x86\0\x04\0\x10\x02\0\x03\0new\0\x01\0\0\0\xff\xff\xff\xff";

// The log with so many names more, which no row has.
fn log_with(alloc: Global, more: u8) -> Result<Bytes, NoMemory> {
    let mut log = List::from_slice(alloc, LOG)?;
    for number in 0..more {
        log.extend(b"\x80\x80\x80\x86\0\x04\0\x10\0\0\x03\0k")?;
        log.extend(&[b'0' + number / 10, b'0' + number % 10])?;
        log.extend(b"\0\x01\0\0\0\x01\0\0\0")?;
    }
    Ok(log)
}

// A folder that doesn't open counts as want of memory, which no test expects; so do other rows.
fn opened(alloc: Global, log: Bytes) -> Result<Chain, NoMemory>
    ensures { IfOk result HasBounds }
{
    let mut files = List::new(alloc);
    files.push((Name::Log, log))?;
    let mut shelf = MemShelf::of(alloc, &files, 2000, List::new(alloc), None)?;
    match open(alloc, &mut shelf) {
        Ok(chain) => Ok(chain),
        Err(_) => Err(NoMemory),
    }
}

// Whether the chain has one row, UID 7 with the keyword new, and so many names.
fn has_row(chain: &Chain, names: u32) -> bool {
    if chain.live.count() != 1 || chain.live.names().count() != names {
        return false;
    }
    let row = chain.live.row(0);
    row.uid == 7 && row.keywords.as_slice() == [1].as_slice()
}

// What a snapshot says of the size of its rows.
fn size_in(text: &[u8]) -> Option<u32> {
    match text {
        [_, _, _, _, _, _, _, _, a, b, c, d, ..] => Some(u32::from_le_bytes([*a, *b, *c, *d])),
        _ => None,
    }
}

// The size of a row in the snapshot of a mailbox with so many names more; its one row is UID 7
// with the keyword new.
fn row_size(alloc: Global, more: u8) -> Result<Option<u32>, NoMemory> {
    let log = log_with(alloc, more)?;
    let chain = opened(alloc, log)?;
    if !has_row(&chain, 2 + u32::from(more)) {
        return Ok(None);
    }
    let text = snapshot(alloc, &chain)?;
    Ok(size_in(text.as_slice()))
}

#[test]
fn the_33rd_name_makes_rows_wider(rt: HostRuntime) {
    for (more, size) in [(0, 20), (30, 20), (31, 24)] {
        assert_eq!(rt; row_size(rt.alloc(), more), Ok(Some(size)), "{more}");
    }
}
