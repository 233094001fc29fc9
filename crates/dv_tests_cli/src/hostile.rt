//! Files of any bytes.

use crate::runs::{Left, RUN, Run, add, file_in, files_of, joined, play};
use dv_model::{Bytes, List, NoMemory};
use dv_shelf::{Folder, MemShelf, Name};
use std::alloc::Global;

// Leaves a log, a snapshot, a cache file and two message files.
const MAKE: Run = Run {
    script: "a SELECT\na APPEND (k1) {12}\nSubject: x\n\n\na APPEND () {1}\ny\n\
        a STORE 1:2 +FLAGS (\\Seen)\na CHECK\na STORE 2 +FLAGS (k2)\n",
    ..RUN
};

// Looks at all that a folder has.
const LOOK: Run = Run {
    script: "b SELECT\nb UID FETCH 1:* (FLAGS RFC822.SIZE BODY[] FIELD Subject)\n",
    ..RUN
};

fn add_others(
    alloc: Global,
    made: &mut Folder,
    folder: &Folder,
    name: Name,
) -> Result<(), NoMemory> {
    for (other, file) in folder.as_slice() {
        if *other != name {
            add(alloc, made, *other, file.as_slice())?;
        }
    }
    Ok(())
}

// Whether a run ended at 0 or 3, and left each file, but that it may close the log.
fn is_left_so(alloc: Global, left: &mut Left<MemShelf>, folder: &Folder) -> Result<bool, NoMemory> {
    if left.status != 0 && left.status != 3 {
        return Ok(false);
    }
    let files = files_of(alloc, &mut left.shelf)?;
    for (name, bytes) in folder.as_slice() {
        let may_differ = *name == Name::Log && left.status == 0;
        if !may_differ && file_in(&files, *name) != bytes.as_slice() {
            return Ok(false);
        }
    }
    Ok(files.len() == folder.len())
}

// Whether the folder in which the file of this name has these bytes is refused or read.
fn is_looked_at(
    alloc: Global,
    folder: &Folder,
    name: Name,
    bytes: &[u8],
) -> Result<bool, NoMemory> {
    let mut made = List::new(alloc);
    add_others(alloc, &mut made, folder, name)?;
    add(alloc, &mut made, name, bytes)?;
    let mut left = play(alloc, &made, &LOOK)?;
    is_left_so(alloc, &mut left, &made)
}

// The file with two bits of the byte turned behind this front.
fn turned(alloc: Global, front: &[u8], rest: &[u8]) -> Result<Bytes, NoMemory> {
    let mut made = Bytes::from_slice(alloc, front)?;
    if let [byte, behind @ ..] = rest {
        made.push(*byte ^ 0x81)?;
        made.extend(behind)?;
    }
    Ok(made)
}

// The first place at which the file isn't looked at where it is cut there, or bits are turned.
fn other_place(
    alloc: Global,
    folder: &Folder,
    name: Name,
    file: &[u8],
) -> Result<Option<usize>, NoMemory> {
    for at in 0..file.len() {
        let (front, rest) = file.split_at(at);
        let turned = turned(alloc, front, rest)?;
        if !is_looked_at(alloc, folder, name, turned.as_slice())?
            || !is_looked_at(alloc, folder, name, front)?
        {
            return Ok(Some(at));
        }
    }
    Ok(None)
}

// Whether the file is looked at with the bytes of each other one, and with these behind its own.
fn are_swapped(alloc: Global, folder: &Folder, name: Name, file: &[u8]) -> Result<bool, NoMemory> {
    for (_, other) in folder.as_slice() {
        let longer = joined(alloc, &[file, other.as_slice()])?;
        if !is_looked_at(alloc, folder, name, other.as_slice())?
            || !is_looked_at(alloc, folder, name, longer.as_slice())?
        {
            return Ok(false);
        }
    }
    Ok(true)
}

// The number of the first file that isn't looked at in each form, and the place.
fn other_file(alloc: Global, folder: &Folder) -> Result<Option<(usize, usize)>, NoMemory> {
    for (number, (name, file)) in folder.as_slice().iter().enumerate() {
        if let Some(at) = other_place(alloc, folder, *name, file.as_slice())? {
            return Ok(Some((number, at)));
        }
        if !are_swapped(alloc, folder, *name, file.as_slice())? {
            return Ok(Some((number, file.len())));
        }
    }
    let log = file_in(folder, Name::Log);
    match other_place(alloc, folder, Name::Log2, log)? {
        Some(at) => Ok(Some((folder.len(), at))),
        None => Ok(None),
    }
}

fn made_folder(alloc: Global) -> Result<Folder, NoMemory> {
    let mut made = play(alloc, &List::new(alloc), &MAKE)?;
    if made.status != 0 {
        return Err(NoMemory);
    }
    files_of(alloc, &mut made.shelf)
}

// The same of the folder that is made, which has five files.
fn other_made(alloc: Global) -> Result<Option<(usize, usize)>, NoMemory> {
    let folder = made_folder(alloc)?;
    if folder.len() == 5 {
        other_file(alloc, &folder)
    } else {
        Err(NoMemory)
    }
}

#[test]
fn a_file_of_any_bytes_is_refused_or_read(rt: HostRuntime) {
    let (file, at) = match other_made(rt.alloc()) {
        Ok(None) => return,
        Ok(Some(other)) => other,
        Err(_) => (1000, 1000),
    };
    assert!(rt; false, "file {file} at {at}");
}
