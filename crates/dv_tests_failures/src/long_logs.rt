//! A log that is due to be rotated.

use crate::states::LONG_ROWS;
use dv_model::{Bytes, List, NoMemory};
use dv_shelf::{Folder, Name};
use std::alloc::Global;
use std::test::Fail;

// A mailbox that was made at 1000.
const MADE: &[u8] = b"\x01\x03\x28\0\xe8\x03\0\0\x01\0\0\0\0\0\0\0\0\0\0\0\
    \xe8\x03\0\0\x01\0\0\0\0\0\0\0\x01\0\0\0\0\0\0\0\
    \x80\x80\x80\x84\x20\0\0\0\x18\0\x04\0\xe8\x03\0\0";

// How many records give the flag Seen to the odd UIDs.
const CHANGES: u32 = 130;

// The size 16, an append; and the size 992, a flag update.
const APPEND: &[u8] = b"\x80\x80\x80\x84\x02\0\0\x10";

const CHANGE: &[u8] = b"\x80\x80\x81\xf8\x04\0\0\x10";

// Seen is added.
const SEEN: &[u8] = b"\x08\0\0\0";

const MAIL: &[u8] = b"2 M1e C3e8\n\x01\x02N          0000000000000005\nhello\n\x01\x03\n\n";

fn add_append(text: &mut Bytes, uid: u32) -> Result<(), NoMemory> {
    text.extend(APPEND)?;
    text.extend(&uid.to_le_bytes())?;
    text.extend(&[0; 4])?;
    Ok(())
}

fn add_appends(text: &mut Bytes) -> Result<(), NoMemory> {
    for at in 0..LONG_ROWS {
        add_append(text, at.saturating_add(1))?;
    }
    Ok(())
}

// Seen of the odd UIDs.
fn change(alloc: Global) -> Result<Bytes, NoMemory> {
    let mut text = List::from_slice(alloc, CHANGE)?;
    for at in 0..LONG_ROWS / 2 {
        let uid = (2 * at).saturating_add(1).to_le_bytes();
        text.extend(&uid)?;
        text.extend(&uid)?;
        text.extend(SEEN)?;
    }
    Ok(text)
}

fn add_changes(alloc: Global, text: &mut Bytes) -> Result<(), NoMemory> {
    let change = change(alloc)?;
    for _ in 0..CHANGES {
        text.extend(change.as_slice())?;
    }
    Ok(())
}

fn long_log(alloc: Global) -> Result<Bytes, NoMemory> {
    let mut text = List::from_slice(alloc, MADE)?;
    add_appends(&mut text)?;
    add_changes(alloc, &mut text)?;
    text.extend(&[0; 4])?;
    Ok(text)
}

/// A folder of 164 messages, whose log has 130 flag updates of the odd UIDs behind them. The first
/// message alone has its file.
pub fn long_folder(alloc: Global) -> Result<Folder, Fail> {
    let mut folder = List::new(alloc);
    folder.push((Name::Log, long_log(alloc)?))?;
    folder.push((Name::Mail(1), List::from_slice(alloc, MAIL)?))?;
    Ok(folder)
}
