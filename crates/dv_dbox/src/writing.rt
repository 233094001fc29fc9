ghost use Rattle.std.specs.Prelude.{◌≡◌, ◌++◌, IfOk, string_bytes};
ghost use Rattle.dv_dbox.specs.BoxTexts.{first_line_text, message_header_text, metadata_text, trailer, written};

use dv_fields::{physical, virtual_size};
use dv_model::{Bytes, NoMemory};
use std::alloc::{AllocError, Global};

/// The first line and the message header.
fn head_of(alloc: Global, stamp: u32, size: u64) -> Result<String, AllocError>
    ensures { IfOk result
        (λ head. string_bytes head ≡ first_line_text stamp ++ message_header_text size) }
{
    format!(in alloc; "2 M1e C{stamp:x}\n\x01\x02N          {size:016x}\n")
}

/// What stands behind the message.
fn tail_of(
    alloc: Global,
    guid: &[u8; 16],
    received: u32,
    size: u64,
    as_sent: u64,
) -> Result<String, AllocError>
    ensures { IfOk result
        (λ tail. string_bytes tail ≡ trailer ++ metadata_text guid.now received size as_sent) }
{
    let guid = hex::encode(alloc, guid)?;
    format!(in alloc; "\n\x01\x03\nG{guid}\nR{received:x}\nZ{size:x}\nV{as_sent:x}\n\n")
}

/// The file of a message: `stamp` is the time of its making and `received` that of the message's
/// receipt, in seconds since 1970. `NoMemory` is the only error.
pub fn write(
    alloc: Global,
    stamp: u32,
    guid: &[u8; 16],
    received: u32,
    message: &[u8],
) -> Result<Bytes, NoMemory>
    ensures { IfOk result (λ text. text ≡ written stamp guid.now received message.now) }
{
    let size = physical(message);
    let head = head_of(alloc, stamp, size)?;
    let tail = tail_of(alloc, guid, received, size, virtual_size(message))?;
    let (head, tail) = (head.as_bytes(), tail.as_bytes());
    let room = head
        .len()
        .saturating_add(message.len())
        .saturating_add(tail.len());
    let mut text = Bytes::from_vec(Vec::with_capacity(alloc, room)?);
    text.extend(head)?;
    text.extend(message)?;
    text.extend(tail)?;
    Ok(text)
}
