ghost use Rattle.std.specs.Prelude.{◌≡◌, ◌-◌, ◌++◌, [], length, take, replicate, unwrap_or, false, IfOk, IsOk};
ghost use Rattle.dv_shelf.specs.Folders.{patched, same_name, has_name, is_of_mailbox, name_number};
ghost use Rattle.std.specs.List.{list_any};
ghost use Rattle.dv_shelf.specs.Disks.{file_then, makes_bytes, stuck};

use crate::Name;
use crate::record::{Deed, Outcome, is_done, is_seen};
use dv_model::{Bytes, List, NoMemory};
use std::alloc::Global;

fn name_number(name: Name) -> u64
    ensures { result ≡ name_number name }
{
    match name {
        Name::Index => 0,
        Name::Log => 1,
        Name::Log2 => 2,
        Name::Cache => 3,
        Name::Mail(n) => 4 + u64::from(n),
    }
}

/// Whether two names are one.
pub fn same_name(a: Name, b: Name) -> bool
    ensures { result ≡ same_name a b }
{
    name_number(a) == name_number(b)
}

/// Whether a name is among others.
pub fn has_name(names: &[Name], name: Name) -> bool
    ensures { result ≡ has_name names.now name }
{
    names.iter().any(|n| same_name(*n, name))
}

/// Whether a file is one of a mailbox's. A cache file alone makes none.
pub fn is_of_mailbox(name: Name) -> bool
    ensures { result ≡ is_of_mailbox name }
{
    match name {
        Name::Index | Name::Log | Name::Log2 | Name::Mail(_) => true,
        Name::Cache => false,
    }
}

/// Whether one of these is a file of a mailbox.
pub fn are_of_mailbox(names: &[Name]) -> bool
    ensures { result ≡ list_any is_of_mailbox names.now }
{
    names.iter().any(|name| is_of_mailbox(*name))
}

/// Bytes written over the old ones from a place on, with zero bytes where the old ones end
/// before it.
pub fn patched(alloc: Global, old: &[u8], at: u32, bytes: &[u8]) -> Result<Bytes, NoMemory>
    ensures { IfOk result (λ made. made ≡ patched old.now at bytes.now) }
{
    let mut made = front(alloc, old, at as usize)?;
    made.extend(bytes)?;
    let end = at as usize + bytes.len();
    if end < old.len() {
        let (_, rest) = old.split_at(end);
        made.extend(rest)?;
    }
    Ok(made)
}

/// The bytes before a place, with zero bytes where they end before it.
fn front(alloc: Global, old: &[u8], at: usize) -> Result<Bytes, NoMemory>
    ensures { IfOk result (λ made. made ≡ take at (old.now ++ replicate (at - length old.now) 0)) }
{
    if at <= old.len() {
        let (front, _) = old.split_at(at);
        return Ok(List::from_slice(alloc, front)?);
    }
    let mut made = List::from_slice(alloc, old)?;
    for _ in old.len()..at {
        made.push(0)?;
    }
    Ok(made)
}

/// The bytes of a write that reads see after it.
fn stuck(outcome: Outcome, bytes: &[u8]) -> &[u8]
    ensures { result.now ≡ stuck outcome bytes.now }
{
    if is_done(outcome) {
        return bytes;
    }
    let (front, _) = bytes.split_at(bytes.len() / 2);
    front
}

/// A file as a read gives it, after one more call on it.
pub fn file_then(
    alloc: Global,
    deed: Deed,
    outcome: Outcome,
    bytes: &[u8],
    file: Option<Bytes>,
) -> Result<Option<Bytes>, NoMemory>
    ensures made { IfOk result (λ made. made ≡ file_then deed outcome bytes.now file) }
    // Where no bytes are made, no memory is taken.
    ensures succeeds { makes_bytes deed outcome ≡ false → IsOk result }
{
    match deed {
        Deed::Write { at } => Ok(Some(written(alloc, at, stuck(outcome, bytes), file)?)),
        Deed::Sync => Ok(file),
        Deed::Replace => {
            if is_seen(outcome) {
                Ok(Some(List::from_slice(alloc, bytes)?))
            } else {
                Ok(file)
            }
        }
        Deed::Remove => { if is_seen(outcome) { Ok(None) } else { Ok(file) } }
    }
}

/// A file with bytes written over it.
pub fn written(alloc: Global, at: u32, bytes: &[u8], file: Option<Bytes>) -> Result<Bytes, NoMemory>
    ensures { IfOk result (λ made. made ≡ patched (unwrap_or file []) at bytes.now) }
{
    match file {
        Some(old) => patched(alloc, old.as_slice(), at, bytes),
        None => patched(alloc, &[], at, bytes),
    }
}
