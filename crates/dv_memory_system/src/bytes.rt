ghost use Rattle.std.specs.Prelude.{◌≡◌, ◌-◌, [], ◌++◌, length, take, replicate, option_map, unwrap_or, IfOk};
ghost use Rattle.dv_shelf.specs.Folders.{patched};

use dv_model::{Bytes, List, NoMemory};
use std::alloc::Global;

/// Bytes written over the old ones from a place on, with zero bytes where the old ones end
/// before it.
fn patched(alloc: Global, old: &[u8], at: u32, bytes: &[u8]) -> Result<Bytes, NoMemory>
    ensures { IfOk result (λ made. made ≡ patched old.now at bytes.now) }
{
    let mut made = front(alloc, old, at as usize)?;
    made.extend(bytes)?;
    let end = at as usize + bytes.len();
    if end < old.len() {
        let (_, rest) = old.split_at(end);
        made.extend(rest)?;
    }
    Ok(made)
}

/// The bytes before a place, with zero bytes where they end before it.
fn front(alloc: Global, old: &[u8], at: usize) -> Result<Bytes, NoMemory>
    ensures { IfOk result (λ made. made ≡ take at (old.now ++ replicate (at - length old.now) 0)) }
{
    if at <= old.len() {
        let (front, _) = old.split_at(at);
        return Ok(List::from_slice(alloc, front)?);
    }
    let mut made = List::from_slice(alloc, old)?;
    for _ in old.len()..at {
        made.push(0)?;
    }
    Ok(made)
}

/// The same of a file that may be missing, which is then missing still.
pub fn patched_file(
    alloc: Global,
    file: &Option<Bytes>,
    at: u32,
    bytes: &[u8],
) -> Result<Option<Bytes>, NoMemory>
    ensures { IfOk result (λ made. made ≡ option_map (λ old. patched old at bytes.now) file.now) }
{
    match file {
        Some(old) => Ok(Some(patched(alloc, old.as_slice(), at, bytes)?)),
        None => Ok(None),
    }
}

/// A file with bytes written over it, which is made where it is missing.
pub fn written(
    alloc: Global,
    file: &Option<Bytes>,
    at: u32,
    bytes: &[u8],
) -> Result<Bytes, NoMemory>
    ensures { IfOk result (λ made. made ≡ patched (unwrap_or file.now []) at bytes.now) }
{
    match file {
        Some(old) => patched(alloc, old.as_slice(), at, bytes),
        None => patched(alloc, &[], at, bytes),
    }
}

/// A copy of a file that may be missing.
pub fn copy_file(alloc: Global, file: &Option<Bytes>) -> Result<Option<Bytes>, NoMemory>
    ensures { IfOk result (λ made. made ≡ file.now) }
{
    match file {
        Some(bytes) => Ok(Some(List::from_slice(alloc, bytes.as_slice())?)),
        None => Ok(None),
    }
}
