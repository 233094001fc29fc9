//! What stands in a real folder, done and looked at from outside.

use dv_folder::{Folder, Layout, Missing};
use dv_shelf::{Name, Shelf};
use std::alloc::AllocError;
use std::fs::{self, File, Permissions};
use std::io;
use std::os::unix::fs::{PermissionsExt, symlink};

/// What is made at a path, or has to stand there.
#[derive(Clone, Copy)]
pub enum Entry {
    /// A folder is made.
    Folder,
    /// A file is put there.
    Put(&'static str),
    /// A link is made that leads there.
    Link(&'static str),
    /// A file is made that is one byte too long.
    Long,
    SetMode(u32),
    Mode(u32),
    Text(&'static str),
    /// So many names stand in it.
    Counts(usize),
    Missing,
    /// The folder that the link of this name leads to, which has its name with `.real`, is moved
    /// away, and another one takes its place.
    Swap,
    /// Each call on another value of this folder fails.
    InUse,
}

/// The path of a file in a folder, or of the folder itself.
pub fn path_in(rt: HostRuntime, path: &str, file: &str) -> Result<String, AllocError> {
    if file.is_empty() {
        format!(in rt.alloc(); "{path}")
    } else {
        format!(in rt.alloc(); "{path}/{file}")
    }
}

fn put(rt: HostRuntime, path: &str, text: &str) -> bool {
    fs::write(&rt, path, text.as_bytes()).is_ok()
}

fn make_long(rt: HostRuntime, path: &str) -> bool {
    match File::create(&rt, path) {
        Ok(file) => file.set_len(4_294_967_296).is_ok(),
        Err(_) => false,
    }
}

fn set_mode(rt: HostRuntime, path: &str, mode: u32) -> bool {
    fs::set_permissions(&rt, path, Permissions::from_mode(mode)).is_ok()
}

fn has_mode(rt: HostRuntime, path: &str, mode: u32) -> bool {
    match fs::metadata(&rt, path) {
        Ok(found) => found.permissions().mode() & 0o777 == mode,
        Err(_) => false,
    }
}

fn has_text(rt: HostRuntime, path: &str, text: &str) -> bool {
    match fs::read_to_string(&rt, path) {
        Ok(found) => found.as_str() == text,
        Err(_) => false,
    }
}

/// How many names stand in a folder, of whatever kind; of a missing folder none.
fn count_names(rt: HostRuntime, path: &str) -> usize {
    let mut count = 0usize;
    if let Ok(entries) = fs::read_dir(&rt, path) {
        for _ in entries {
            count = count.saturating_add(1);
        }
    }
    count
}

/// Whether nothing stands there.
pub fn is_missing(rt: HostRuntime, path: &str) -> bool {
    match fs::exists(&rt, path) {
        Ok(is_there) => !is_there,
        Err(_) => false,
    }
}

fn swap(rt: HostRuntime, path: &str) -> io::Result<()> {
    let alloc = rt.alloc();
    let real = format!(in alloc; "{path}.real")?;
    fs::rename(&rt, real.as_str(), format!(in alloc; "{path}.moved")?)?;
    fs::create_dir(&rt, real.as_str())?;
    Ok(())
}

/// Whether each call on another value of the same folder fails.
fn is_in_use(rt: HostRuntime, path: &str) -> bool {
    let alloc = rt.alloc();
    let Ok(mut other) = Folder::new(alloc, rt, path, Layout::Mailbox, Missing::Make) else {
        return false;
    };
    other.has_mailbox(alloc).is_err()
        && other.list(alloc).is_err()
        && other.replace(Name::Log, b"log").is_err()
        && other.faults() == 3
}

fn is_at(rt: HostRuntime, path: &str, entry: Entry) -> bool {
    match entry {
        Entry::Folder => fs::create_dir(&rt, path).is_ok(),
        Entry::Put(text) => put(rt, path, text),
        Entry::Link(target) => symlink(&rt, target, path).is_ok(),
        Entry::Long => make_long(rt, path),
        Entry::SetMode(mode) => set_mode(rt, path, mode),
        Entry::Mode(mode) => has_mode(rt, path, mode),
        Entry::Text(text) => has_text(rt, path, text),
        Entry::Counts(count) => count_names(rt, path) == count,
        Entry::Missing => is_missing(rt, path),
        Entry::Swap => swap(rt, path).is_ok(),
        Entry::InUse => is_in_use(rt, path),
    }
}

/// Whether it is made, or stands, at this place of the folder at the path.
pub fn is_entry(rt: HostRuntime, path: &str, file: &str, entry: Entry) -> bool {
    match path_in(rt, path, file) {
        Ok(place) => is_at(rt, place.as_str(), entry),
        Err(_) => false,
    }
}
