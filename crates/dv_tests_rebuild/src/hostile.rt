use crate::folders::{Counts, Files, HELLO, INDEX, LOG, add, rebuilt, shelf_of};
use dv_chain::open;
use dv_model::{Bytes, List};
use dv_shelf::{MemShelf, Name, Shelf};
use std::alloc::Global;
use std::test::*;

const CACHE: &[u8] = b"not a cache file, and not looked at";

// Names of a folder's files: the four of the index, and three of messages.
const NAMES: usize = 7;

// The rotated log is the log once more, and the file of UID 2 is empty.
fn base(alloc: Global) -> Result<Files, Fail> {
    let mut files = List::new(alloc);
    add(alloc, &mut files, Name::Log, LOG)?;
    add(alloc, &mut files, Name::Log2, LOG)?;
    add(alloc, &mut files, Name::Index, INDEX)?;
    add(alloc, &mut files, Name::Cache, CACHE)?;
    add(alloc, &mut files, Name::Mail(1), HELLO)?;
    add(alloc, &mut files, Name::Mail(2), b"")?;
    add(alloc, &mut files, Name::Mail(3), HELLO)?;
    Ok(files)
}

// Whether the folder has the same names, and, but for the log, these files, of which the last
// counts where a name stands twice.
fn others_stay(
    alloc: Global,
    shelf: &mut MemShelf,
    name: Name,
    bytes: &[u8],
) -> Result<bool, Fail> {
    let names = shelf.list(alloc).ok().ok_or("not listed")?;
    for (other, before) in base(alloc)?.as_slice() {
        let expected = if *other == name {
            bytes
        } else {
            before.as_slice()
        };
        match shelf.read(alloc, *other) {
            Ok(Some(file)) if *other == Name::Log || file.as_slice() == expected => (),
            _ => return Ok(false),
        }
    }
    Ok(names.len() == NAMES)
}

// Whether opening finds so many messages, and last UID 3.
fn finds(alloc: Global, shelf: &mut MemShelf, kept: u32) -> Result<bool, Fail> {
    let live = open(alloc, shelf).ok().ok_or("not opened")?.live;
    let count = live.count();
    Ok(count == kept && count > 0 && live.row(count - 1).uid == 3)
}

// Whether the folder in which a file has these bytes is rebuilt and keeps so many messages.
fn keeps(alloc: Global, name: Name, bytes: &[u8], kept: u32) -> Result<bool, Fail> {
    let mut files = base(alloc)?;
    add(alloc, &mut files, name, bytes)?;
    let mut shelf = shelf_of(alloc, &files)?;
    let told = rebuilt(alloc, &mut shelf)?
        == Ok(Counts {
            kept,
            skipped: 3u32.saturating_sub(kept),
        });
    Ok(told && others_stay(alloc, &mut shelf, name, bytes)? && finds(alloc, &mut shelf, kept)?)
}

fn turned(alloc: Global, bytes: &[u8], at: usize, mask: u8) -> Result<Bytes, Fail> {
    let mut made = Vec::from_slice(alloc, bytes)?;
    if at < made.len() {
        made[at] ^= mask;
    }
    Ok(List::from_vec(made))
}

fn extended(alloc: Global, bytes: &[u8], more: &[u8]) -> Result<Bytes, Fail> {
    let mut made = Bytes::from_slice(alloc, bytes)?;
    made.extend(more)?;
    Ok(made)
}

// Whether both messages are kept where a file has a front of these bytes, or two of their bits are
// turned.
fn any_front_or_bits(alloc: Global, name: Name, bytes: &[u8]) -> Result<bool, Fail> {
    for at in 0..bytes.len() {
        let (front, _) = bytes.split_at(at);
        let bits = turned(alloc, bytes, at, 0x81)?;
        if !keeps(alloc, name, front, 2)? || !keeps(alloc, name, bits.as_slice(), 2)? {
            return Ok(false);
        }
    }
    Ok(true)
}

// Whether they are where it has these bytes, those of another file, or more.
fn any_bytes(alloc: Global, name: Name, bytes: &[u8]) -> Result<bool, Fail> {
    let more = extended(alloc, bytes, HELLO)?;
    Ok(
        any_front_or_bits(alloc, name, bytes)?
            && keeps(alloc, name, LOG, 2)?
            && keeps(alloc, name, INDEX, 2)?
            && keeps(alloc, name, HELLO, 2)?
            && keeps(alloc, name, more.as_slice(), 2)?,
    )
}

#[test]
fn index_files_may_have_any_bytes(rt: HostRuntime) -> Result<(), Fail> {
    let alloc = rt.alloc();
    assert!(rt; any_bytes(alloc, Name::Log, LOG)?);
    assert!(rt; any_bytes(alloc, Name::Log2, LOG)?);
    assert!(rt; any_bytes(alloc, Name::Index, INDEX)?);
    assert!(rt; any_bytes(alloc, Name::Cache, CACHE)?);
    Ok(())
}

#[test]
fn front_of_a_message_file_is_skipped(rt: HostRuntime) -> Result<(), Fail> {
    let alloc = rt.alloc();
    for at in 0..HELLO.len() {
        assert!(rt; keeps(alloc, Name::Mail(1), HELLO.split_at(at).0, 1)?);
    }
    assert!(rt; keeps(alloc, Name::Mail(1), LOG, 1)?);
    assert!(rt; keeps(alloc, Name::Mail(1), HELLO, 2)?);
    assert!(rt;
        keeps(
            alloc,
            Name::Mail(1),
            extended(alloc, HELLO, LOG)?.as_slice(),
            2
        )?
    );
    Ok(())
}

// The places of a message file at which a turned bit leaves it well formed: the digits of the time
// of its making, eight bytes of any kind, the message, and the entry of the time of receipt.
fn is_free(at: usize) -> bool {
    (7..10).contains(&at)
        || (15..23).contains(&at)
        || (41..46).contains(&at)
        || (50..54).contains(&at)
}

#[test]
fn turned_bit_of_a_message_file_counts_where_the_form_has_it(rt: HostRuntime) -> Result<(), Fail> {
    let alloc = rt.alloc();
    for at in 0..HELLO.len() {
        let bytes = turned(alloc, HELLO, at, 1)?;
        let kept = if is_free(at) { 2 } else { 1 };
        assert!(rt; keeps(alloc, Name::Mail(1), bytes.as_slice(), kept)?);
    }
    Ok(())
}
