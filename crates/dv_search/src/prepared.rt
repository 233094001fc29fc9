ghost use Rattle.std.specs.Prelude.{IfOk};
ghost use Rattle.std.specs.List.{AllZip};
ghost use Rattle.dv_search.specs.Prepared.{IsPrepared};

use dv_model::{Boxed, Duplicate, Items, Key, NoMemory};
use dv_sets::join_set;
use std::alloc::Global;

/// The key with its sets of UIDs by ranges that rise and are apart, where this is the largest UID.
/// `NoMemory` is the only error. The time is that of the key and of sorting its ranges.
#[cycle(prepare)]
pub fn prepared(alloc: Global, key: &Key, star: u32) -> Result<Key, NoMemory>
    ensures { IfOk result (IsPrepared star key.now) }
{
    match key {
        Key::All => Ok(Key::All),
        Key::Has(bits) => Ok(Key::Has(*bits)),
        Key::Lacks(bits) => Ok(Key::Lacks(*bits)),
        Key::Keyword(name) => Ok(Key::Keyword(name.duplicate(alloc)?)),
        Key::Uid(set) => Ok(Key::Uid(join_set(alloc, set.as_slice(), star)?)),
        Key::Larger(size) => Ok(Key::Larger(*size)),
        Key::Header { name, text } => Ok(Key::Header {
            name: name.duplicate(alloc)?,
            text: text.duplicate(alloc)?,
        }),
        Key::Not(inside) => {
            let inside = prepared(alloc, inside.get(), star)?;
            Ok(Key::Not(Boxed::new(alloc, inside)?))
        }
        Key::Or(one, other) => {
            let one = prepared(alloc, one.get(), star)?;
            let other = prepared(alloc, other.get(), star)?;
            Ok(Key::Or(Boxed::new(alloc, one)?, Boxed::new(alloc, other)?))
        }
        Key::And(keys) => Ok(Key::And(prepared_all(alloc, keys, star)?)),
    }
}

#[cycle(prepare)]
fn prepared_all(alloc: Global, keys: &Items<Key>, star: u32) -> Result<Items<Key>, NoMemory>
    ensures { IfOk result (AllZip (IsPrepared star) keys.now) }
{
    let mut made = Items::new(alloc);
    for key in keys.as_slice() {
        made.push(prepared(alloc, key, star)?)?;
    }
    Ok(made)
}
