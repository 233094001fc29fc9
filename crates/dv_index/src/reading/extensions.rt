ghost use Rattle.std.specs.Prelude.{◌≡◌, ◌≢◌, ◌↔◌, ◌≤◌, ◌++◌, ℕ, All, AllPairs, List, length, sum_by, IfOk, IsTrue};
ghost use Rattle.dv_model.specs.declared.types.Extension.{Extension};
ghost use Rattle.dv_model.specs.Mailboxes.{AreExtensions};
ghost use Rattle.dv_formats.specs.Snapshots.{extension_text};
ghost use Rattle.dv_index.specs.Reading.{AreTexts, IsAllowed, IsText, OnCheck};

use super::failed;
use crate::fault::IndexEnd;
use crate::words::split_filled;
use dv_model::{Bytes, Extension, List};
use dv_num::{u16_at, u32_at};
use std::alloc::Global;

// The extension whose text begins these bytes, and what follows it.
fn read_extension(alloc: Global, b: &[u8]) -> Result<(Extension, &[u8]), IndexEnd>
    ensures found { IfOk result (λ x. IsText x.0 × (b.now ≡ extension_text x.0 ++ x.1.now)) }
    ensures check { OnCheck result 2 ((e : Extension) (rest : List ℕ)
        → IsText e
        → b.now ≡ extension_text e ++ rest
        → ⊥) }
{
    if b.len() < 16 {
        return Err(failed(2));
    }
    let (_, texts) = b.split_at(16);
    let Some((name, behind)) = split_filled(usize::from(u16_at(b, 14)), texts) else {
        return Err(failed(2));
    };
    let Some((header, rest)) = split_filled(u32_at(b, 4) as usize, behind) else {
        return Err(failed(2));
    };
    let extension = Extension {
        name: Bytes::from_slice(alloc, name)?,
        reset_id: u32_at(b, 0),
        header: Bytes::from_slice(alloc, header)?,
        record_size: u16_at(b, 8),
        record_align: u16_at(b, 10),
        flags: u16_at(b, 12),
    };
    Ok((extension, rest))
}

/// The extensions whose texts these bytes are, so many.
pub fn read_extensions(alloc: Global, count: u32, b: &[u8]) -> Result<List<Extension>, IndexEnd>
    ensures found { IfOk result (λ es. AreTexts count es b.now) }
    ensures check { OnCheck result 2 ((es : List Extension) → AreTexts count es b.now → ⊥) }
{
    let mut extensions = List::new(alloc);
    let mut rest = b;
    for _ in 0..count {
        let (extension, behind) = read_extension(alloc, rest)?;
        extensions.push(extension)?;
        rest = behind;
    }
    if !rest.is_empty() {
        return Err(failed(2));
    }
    Ok(extensions)
}

// Whether an extension's name and header are of an allowed size, and the name isn't `keywords`.
fn is_allowed(e: &Extension) -> bool
    ensures { IsTrue result ↔ IsAllowed e.now }
{
    let name = e.name.as_slice();
    1 <= name.len()
        && name.len() <= 255
        && name != b"keywords".as_slice()
        && e.header.len() <= 65536
}

fn are_allowed(extensions: &[Extension]) -> bool
    ensures { IsTrue result ↔ All IsAllowed extensions.now }
{
    for extension in extensions {
        if !is_allowed(extension) {
            return false;
        }
    }
    true
}

// Whether no extension has this name.
fn is_new(name: &[u8], extensions: &[Extension]) -> bool
    ensures { IsTrue result ↔ All (λ e. e.name ≢ name.now) extensions.now }
{
    for extension in extensions {
        if extension.name.as_slice() == name {
            return false;
        }
    }
    true
}

// Whether no two extensions have one name.
fn are_distinct(extensions: &[Extension]) -> bool
    ensures { IsTrue result ↔ AllPairs (λ a b. a.name ≢ b.name) extensions.now }
{
    for at in 0..extensions.len() {
        let (before, _) = extensions.split_at(at);
        if !is_new(extensions[at].name.as_slice(), before) {
            return false;
        }
    }
    true
}

// The number of bytes of each row, without padding.
fn row_bytes(extensions: &[Extension]) -> usize
    requires { length extensions.now ≤ 16 }
    ensures { result ≡ sum_by (λ e. e.record_size) extensions.now }
{
    let mut bytes = 0;
    for extension in extensions {
        bytes += usize::from(extension.record_size);
    }
    bytes
}

/// Whether a mailbox can have these extensions. There are at most 16, so that the comparison of
/// each name with those before it is short.
pub fn are_extensions(extensions: &[Extension]) -> bool
    ensures { IsTrue result ↔ AreExtensions extensions.now }
{
    extensions.len() <= 16
        && row_bytes(extensions) <= 1024
        && are_allowed(extensions)
        && are_distinct(extensions)
}
