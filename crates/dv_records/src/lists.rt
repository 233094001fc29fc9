ghost use Rattle.std.specs.Prelude.{◌≤◌, length};
ghost use Rattle.dv_model.specs.Spelling.{InTurn};
ghost use Rattle.dv_records.specs.Fronts.{Reads, IsReader};

use crate::fault::DecodeEnd;
use crate::items::{BAD, Read};
use dv_model::List;
use std::alloc::Global;

/// The items that make up these bytes, one after another.
pub fn read_all<T: Read>(alloc: Global, bytes: &[u8]) -> Result<List<T>, DecodeEnd>
    requires { IsReader T.size T.spelled T.front }
    ensures { Reads (λ items. InTurn T.size T.spelled items bytes.now) result }
{
    let mut items = List::new(alloc);
    let mut rest = bytes;
    while !rest.is_empty() {
        let (item, size) = T::read(alloc, rest)?;
        items.push(item)?;
        let (_, behind) = rest.split_at(size);
        rest = behind;
    }
    Ok(items)
}

/// The items that make up these bytes, at least one.
pub fn read_some<T: Read>(alloc: Global, bytes: &[u8]) -> Result<List<T>, DecodeEnd>
    requires { IsReader T.size T.spelled T.front }
    ensures { Reads (λ items. (1 ≤ length items) × InTurn T.size T.spelled items bytes.now) result }
{
    if bytes.is_empty() {
        return Err(BAD);
    }
    read_all(alloc, bytes)
}
