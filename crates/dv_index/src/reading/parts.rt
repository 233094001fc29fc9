ghost use Rattle.std.specs.Prelude.{◌≡◌, ℕ, List, length, sum_by, IfOk};
ghost use Rattle.dv_model.specs.Spelling.{padded};
ghost use Rattle.dv_index.specs.Reading.{AreParts, OnCheck};

use super::failed;
use crate::fault::IndexEnd;
use crate::words::split_filled;
use dv_model::{Bytes, Extension, List};
use std::alloc::Global;

/// A row's part of each extension, from the bytes behind its keywords.
pub fn read_parts(alloc: Global, es: &[Extension], b: &[u8]) -> Result<List<Bytes>, IndexEnd>
    requires { length b.now ≡ sum_by (λ e. padded e.record_size) es.now }
    ensures found { IfOk result (λ parts. AreParts es.now parts b.now) }
    ensures check { OnCheck result 6 ((parts : List (List ℕ)) → AreParts es.now parts b.now → ⊥) }
{
    let mut parts = List::from_vec(Vec::with_capacity(alloc, es.len())?);
    let mut rest = b;
    for e in es {
        let Some((part, behind)) = split_filled(usize::from(e.record_size), rest) else {
            return Err(failed(6));
        };
        parts.push(Bytes::from_slice(alloc, part)?)?;
        rest = behind;
    }
    Ok(parts)
}
