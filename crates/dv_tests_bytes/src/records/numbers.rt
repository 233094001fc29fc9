use dv_model::{Body, How, Pair, Part};
use std::alloc::{AllocError, Global};

fn pairs_of(numbers: &mut Vec<u32>, pairs: &[Pair]) -> Result<(), AllocError> {
    for pair in pairs {
        numbers.extend_from_slice(&[pair.first, pair.last])?;
    }
    Ok(())
}

fn bytes_of(numbers: &mut Vec<u32>, bytes: &[u8]) -> Result<(), AllocError> {
    for byte in bytes {
        numbers.push(u32::from(*byte))?;
    }
    Ok(())
}

fn parts_of(numbers: &mut Vec<u32>, parts: &[Part]) -> Result<(), AllocError> {
    for part in parts {
        numbers.push(u32::from(part.offset))?;
        bytes_of(numbers, part.bytes.as_slice())?;
    }
    Ok(())
}

fn rows_of(numbers: &mut Vec<u32>, body: &Body) -> Result<(), AllocError> {
    match body {
        Body::Append(rows) => {
            for row in rows.as_slice() {
                numbers.extend_from_slice(&[row.uid, u32::from(row.flags)])?;
            }
        }
        Body::FlagUpdate(changes) => {
            for change in changes.as_slice() {
                numbers.extend_from_slice(&[change.first, change.last])?;
                numbers.extend_from_slice(&[u32::from(change.add), u32::from(change.remove)])?;
            }
        }
        Body::ExpungeGuid(rows) => {
            for row in rows.as_slice() {
                numbers.push(row.uid)?;
                bytes_of(numbers, &row.guid)?;
            }
        }
        _ => {}
    }
    Ok(())
}

fn extension_of(numbers: &mut Vec<u32>, body: &Body) -> Result<(), AllocError> {
    match body {
        Body::ExtIntro(intros) => {
            for intro in intros.as_slice() {
                numbers.extend_from_slice(&[intro.ext_id, intro.reset_id, intro.hdr_size])?;
                numbers.push(u32::from(intro.record_size))?;
                numbers.push(u32::from(intro.record_align))?;
                numbers.push(u32::from(intro.flags))?;
                bytes_of(numbers, intro.name.as_slice())?;
            }
            Ok(())
        }
        Body::ExtReset { reset_id, preserve } => {
            numbers.extend_from_slice(&[*reset_id, u32::from(*preserve)])
        }
        Body::ExtRecordUpdate(bytes) => bytes_of(numbers, bytes.as_slice()),
        _ => Ok(()),
    }
}

// The numbers of a body, one behind another: what it is, and its fields in their order.
pub fn numbers_of(alloc: Global, body: &Body) -> Result<Vec<u32>, AllocError> {
    let mut numbers = Vec::new(alloc);
    let code = match body {
        Body::Expunge(_) => 0xcd91,
        Body::Append(_) => 0x2,
        Body::FlagUpdate(_) => 0x4,
        Body::HeaderUpdate(_) => 0x20,
        Body::ExtIntro(_) => 0x40,
        Body::ExtReset { .. } => 0x80,
        Body::ExtHeaderUpdate(_) => 0x100,
        Body::ExtRecordUpdate(_) => 0x200,
        Body::KeywordUpdate { .. } => 0x400,
        Body::KeywordReset(_) => 0x800,
        Body::ExpungeGuid(_) => 0xed90,
        Body::Carried { code, .. } => *code,
    };
    numbers.push(code)?;
    match body {
        Body::Expunge(pairs) | Body::KeywordReset(pairs) => pairs_of(
            &mut numbers,
            pairs.as_slice(),
        )?,
        Body::HeaderUpdate(parts) | Body::ExtHeaderUpdate(parts) => {
            parts_of(&mut numbers, parts.as_slice())?
        }
        Body::KeywordUpdate { how, name, pairs } => {
            numbers.push(match how {
                How::Add => 0,
                How::Remove => 1,
                How::Replace => 2,
            })?;
            bytes_of(&mut numbers, name.as_slice())?;
            pairs_of(&mut numbers, pairs.as_slice())?;
        }
        Body::Carried { code: _, bytes } => bytes_of(&mut numbers, bytes.as_slice())?,
        _ => {
            rows_of(&mut numbers, body)?;
            extension_of(&mut numbers, body)?;
        }
    }
    Ok(numbers)
}
