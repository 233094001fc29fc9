//! What is told of a key, by another session that searches anew behind each line.

use crate::runs::{unwatched, watched};
use dv_model::{Bytes, NoMemory};
use std::alloc::Global;
use std::test::Fail;

fn put_line(text: &mut Bytes, line: &[u8]) -> Result<(), NoMemory> {
    text.extend(line)?;
    text.push(b'\n')?;
    Ok(())
}

// The script in which the session `w` sends NOOP and a UID SEARCH of the key behind each command.
// A message is one line.
fn searched_script(alloc: Global, script: &[u8], key: &[u8]) -> Result<Bytes, NoMemory> {
    let mut text = Bytes::from_slice(alloc, b"w SELECT\nw NOOP\n")?;
    for line in script.split(|b| *b == b'\n') {
        put_line(&mut text, line)?;
        if !line.ends_with(b"}") {
            text.extend(b"w NOOP\nw UID SEARCH ")?;
            put_line(&mut text, key)?;
        }
    }
    Ok(text)
}

// What was written without `w`, with a line of what it finds where the log's end, which its NOOP
// tells, is another one than before.
fn told(alloc: Global, output: &[u8]) -> Result<Bytes, NoMemory> {
    let mut text = Bytes::new(alloc);
    let mut end = output;
    let mut wrote = false;
    for line in output.split(|b| *b == b'\n') {
        if let Some(found) = line.strip_prefix(b"w * SEARCH") {
            if wrote {
                text.extend(b"WATCH")?;
                put_line(&mut text, found)?;
            }
        } else if !line.starts_with(b"w ") {
            if !line.is_empty() {
                put_line(&mut text, line)?;
            }
        } else if line.ends_with(b"NOOP") {
            wrote = line != end;
            end = line;
        }
    }
    Ok(text)
}

/// Whether what is written of a script beside which a search is kept is what another session finds.
pub fn agrees(alloc: Global, script: &[u8], key: &[u8]) -> Result<bool, Fail> {
    let searched = searched_script(alloc, script, key)?;
    let output = unwatched(alloc, searched.as_slice())?;
    let wanted = told(alloc, output.as_slice())?;
    let text = watched(alloc, script, key)?;
    Ok(text.as_slice() == wanted.as_slice())
}
