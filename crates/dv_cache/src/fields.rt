ghost use Rattle.std.specs.Prelude.{◌≡◌, ◌++◌, ◌<◌, ◌≤◌, ◌^◌, ℕ, All, List, Option, OnOk, IfOk, IfSome, IfNone, MatchOption, sum_by};
ghost use Rattle.std.specs.Option.{option_map};
ghost use Rattle.dv_cache.specs.Caches.{field_size, field_text, fields_text, IsShort};
ghost use Rattle.dv_cache.specs.Finding.{AreFieldsOf};

use dv_model::{Bytes, List, NoMemory};
use dv_num::u32_at;
use std::alloc::Global;

// The number of fields of a row.
const FIELDS: usize = 5;
// In place of an absent field's length.
const ABSENT: u32 = u32::MAX;

/// The number of bytes of all fields, and `None` where there are more than `most`.
pub fn size_of(fields: &[Option<Bytes>], most: usize) -> Option<usize>
    ensures { MatchOption result (most < sum_by field_size fields.now)
        (λ n. (n ≡ sum_by field_size fields.now) × (n ≤ most)) }
{
    let mut size = 0;
    for field in fields {
        let len = match field {
            Some(value) => value.len(),
            None => 0,
        };
        if len > most - size {
            return None;
        }
        size += len;
    }
    Some(size)
}

fn write_field(field: &Option<Bytes>, out: &mut Bytes) -> Result<(), NoMemory>
    requires { IsShort field.now }
    ensures { OnOk result (out.new ≡ out.old ++ field_text field.now) }
{
    match field {
        Some(value) => {
            out.extend(&(value.len() as u32).to_le_bytes())?;
            out.extend(value.as_slice())?;
        }
        None => out.extend(&ABSENT.to_le_bytes())?,
    }
    Ok(())
}

/// Adds the text of each field.
pub fn write_fields(fields: &[Option<Bytes>], out: &mut Bytes) -> Result<(), NoMemory>
    requires { All IsShort fields.now }
    ensures { OnOk result (out.new ≡ out.old ++ fields_text fields.now) }
{
    for field in fields {
        write_field(field, out)?;
    }
    Ok(())
}

// The field whose text begins these bytes, and what follows it.
fn read_field(b: &[u8]) -> Option<(Option<&[u8]>, &[u8])>
    ensures some { IfSome result (λ x. IsShort (option_map (λ v. v.now) x.0)
        × (b.now ≡ field_text (option_map (λ v. v.now) x.0) ++ x.1.now)) }
    ensures none { IfNone result ((field : Option (List ℕ)) (rest : List ℕ) → IsShort field
        → b.now ≡ field_text field ++ rest → ⊥) }
{
    if b.len() < 4 {
        return None;
    }
    let len = u32_at(b, 0);
    let (_, behind) = b.split_at(4);
    if len == ABSENT {
        return Some((None, behind));
    }
    if behind.len() < len as usize {
        return None;
    }
    let (value, rest) = behind.split_at(len as usize);
    Some((Some(value), rest))
}

fn copied(alloc: Global, value: Option<&[u8]>) -> Result<Option<Bytes>, NoMemory>
    ensures { IfOk result (λ made. made ≡ option_map (λ v. v.now) value.entry) }
{
    match value {
        Some(value) => Ok(Some(Bytes::from_slice(alloc, value)?)),
        None => Ok(None),
    }
}

/// The five fields whose texts begin these bytes; `None` where there aren't five.
pub fn read_fields(alloc: Global, b: &[u8]) -> Result<Option<List<Option<Bytes>>>, NoMemory>
    ensures found { IfOk result (λ o. IfSome o (λ fields. AreFieldsOf b.now fields)) }
    ensures none { IfOk result (λ o. IfNone o
        ((fields : List (Option (List ℕ))) → AreFieldsOf b.now fields → ⊥)) }
{
    let mut fields = List::new(alloc);
    let mut rest = b;
    for _ in 0..FIELDS {
        let Some((value, behind)) = read_field(rest) else {
            return Ok(None);
        };
        fields.push(copied(alloc, value)?)?;
        rest = behind;
    }
    Ok(Some(fields))
}
