ghost use Rattle.std.specs.Prelude.{◌≡◌, ◌<◌, [], fold, length, nat_eq, replicate, if◌then◌else◌, IfOk, OnOk, OnErr};
ghost use Rattle.dv_model.specs.Effects.{grown_extension, grown_to, new_extension, with_item, written_over, zeroed};

use dv_model::{Bytes, Duplicate, Extension, Intro, List, NoMemory, Part};
use std::alloc::Global;
use std::mem;

// So many zero bytes.
fn zeros(alloc: Global, size: u32) -> Result<Bytes, NoMemory>
    ensures { IfOk result (λ made. made ≡ replicate size 0) }
{
    Ok(List::from_vec(vec![in alloc; 0; size as usize]?))
}

/// The introduced extension, with a header of zero bytes.
pub fn new_extension(alloc: Global, intro: &Intro) -> Result<Extension, NoMemory>
    ensures { IfOk result (λ made. made ≡ new_extension intro.now) }
{
    Ok(Extension {
        name: intro.name.duplicate(alloc)?,
        reset_id: intro.reset_id,
        header: zeros(alloc, intro.hdr_size)?,
        record_size: intro.record_size,
        record_align: intro.record_align,
        flags: intro.flags,
    })
}

// The list's vector, in whose place an empty list is left.
fn taken<T: Drop>(alloc: Global, list: &mut List<T>) -> Vec<T>
    ensures items { result.items ≡ list.old }
    ensures left { list.new ≡ [] }
{
    mem::replace(list, List::new(alloc)).into_vec()
}

fn grow(alloc: Global, extension: &mut Extension, intro: &Intro) -> Result<(), NoMemory>
    ensures ok { OnOk result (extension.new ≡ grown_extension intro.now extension.old) }
    ensures err { OnErr result (extension.new ≡ extension.old) }
{
    let size = intro.hdr_size as usize;
    let missing = size.saturating_sub(extension.header.len());
    let added = vec![in alloc; 0; missing]?;
    extension.header.extend(&added)?;
    extension.record_size = extension.record_size.max(intro.record_size);
    Ok(())
}

/// Grows the extension at a place to the sizes of an introduction. After `NoMemory` the list is as
/// before.
pub fn grow_at(
    alloc: Global,
    list: &mut List<Extension>,
    place: usize,
    intro: &Intro,
) -> Result<(), NoMemory>
    requires { place < length list.old }
    ensures ok { OnOk result (list.new ≡ with_item place (grown_extension intro.now) list.old) }
    ensures err { OnErr result (list.new ≡ list.old) }
{
    let mut items = taken(alloc, list);
    let done = grow(alloc, &mut items[place], intro);
    *list = List::from_vec(items);
    done
}

fn reset(alloc: Global, extension: &mut Extension, reset_id: u32, preserve: u8)
    ensures { extension.new ≡ (if nat_eq preserve 0
        then record extension.old { reset_id = reset_id; header = zeroed extension.old.header }
        else record extension.old { reset_id = reset_id }) }
{
    extension.reset_id = reset_id;
    if preserve == 0 {
        let mut header = taken(alloc, &mut extension.header);
        header.fill(0);
        extension.header = List::from_vec(header);
    }
}

/// Gives the extension at a place another reset number, and zero bytes to its header unless it is
/// to be preserved.
pub fn reset_at(
    alloc: Global,
    list: &mut List<Extension>,
    place: usize,
    reset_id: u32,
    preserve: u8,
)
    requires { place < length list.old }
    ensures { list.new ≡ with_item place (λ e. if nat_eq preserve 0
        then record e { reset_id = reset_id; header = zeroed e.header }
        else record e { reset_id = reset_id }) list.old }
{
    let mut items = taken(alloc, list);
    reset(alloc, &mut items[place], reset_id, preserve);
    *list = List::from_vec(items);
}

fn write_part(header: &mut [u8], part: &Part)
    ensures { header.new ≡ written_over header.old part.now }
{
    let from = usize::from(part.offset);
    let bytes = part.bytes.as_slice();
    if bytes.len() <= header.len() && from <= header.len() - bytes.len() {
        header[from..from + bytes.len()].copy_from_slice(bytes);
    }
}

fn write_parts(header: &mut [u8], parts: &[Part])
    ensures { header.new ≡ fold written_over header.old parts.now }
{
    for part in parts {
        write_part(header, part);
    }
}

fn write(alloc: Global, extension: &mut Extension, parts: &[Part])
    ensures { extension.new
        ≡ record extension.old { header = fold written_over extension.old.header parts.now } }
{
    let mut header = taken(alloc, &mut extension.header);
    write_parts(&mut header, parts);
    extension.header = List::from_vec(header);
}

/// Writes each part that fits into the header of the extension at a place.
pub fn write_at(alloc: Global, list: &mut List<Extension>, place: usize, parts: &[Part])
    requires { place < length list.old }
    ensures { list.new
        ≡ with_item place
        (λ e. record e { header = fold written_over e.header parts.now }) list.old }
{
    let mut items = taken(alloc, list);
    write(alloc, &mut items[place], parts);
    *list = List::from_vec(items);
}
