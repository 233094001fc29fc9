ghost use Rattle.std.specs.Prelude.{◌≡◌, ◌++◌, ◌∷◌, codes, flat_map, map, unwrap_or, OnOk};
ghost use Rattle.dv_model.specs.Texts.{spaced};
ghost use Rattle.dv_formats.specs.Printing.{key_text, sought_text};
ghost use Rattle.dv_formats.specs.Scripts.{flag_key};

use crate::pieces::{put, put_before, put_set};
use dv_model::{Bytes, Items, Key, NoMemory};
use std::alloc::Global;

// The key of the flag of this bit; of other bits there is none.
fn flag_key(bit: u8) -> &'static [u8]
    ensures { result.now ≡ unwrap_or (flag_key bit) (codes "") }
{
    match bit {
        1 => b"ANSWERED",
        2 => b"FLAGGED",
        4 => b"DELETED",
        8 => b"SEEN",
        16 => b"DRAFT",
        _ => b"",
    }
}

fn put_header(text: &mut Bytes, name: &[u8], quoted: &[u8]) -> Result<(), NoMemory>
    ensures { OnOk result (text.new
        ≡ text.old ++ (codes "HEADER " ++ name.now ++ codes " \"" ++ quoted.now ++ codes "\"")) }
{
    put(text, b"HEADER ")?;
    put(text, name)?;
    put(text, b" \"")?;
    put(text, quoted)?;
    put(text, b"\"")
}

// A key that stands inside another one.
#[cycle(key)]
#[tactic(auto, using(crate::proofs::KeyTexts::key_texts))]
fn put_key(alloc: Global, text: &mut Bytes, key: &Key) -> Result<(), NoMemory>
    ensures { OnOk result (text.new ≡ text.old ++ key_text key.now) }
{
    match key {
        Key::All => put(text, b"ALL"),
        Key::Has(bit) => put(text, flag_key(*bit)),
        Key::Lacks(bit) => {
            put(text, b"UN")?;
            put(text, flag_key(*bit))
        }
        Key::Keyword(name) => {
            put(text, b"KEYWORD ")?;
            put(text, name.as_slice())
        }
        Key::Uid(set) => {
            put(text, b"UID ")?;
            put_set(alloc, text, set)
        }
        Key::Larger(n) => put_before(text, b"LARGER ", *n as u64),
        Key::Header { name, text: quoted } => put_header(text, name.as_slice(), quoted.as_slice()),
        Key::Not(inside) => {
            put(text, b"NOT ")?;
            put_key(alloc, text, inside.get())
        }
        Key::Or(one, other) => {
            put(text, b"OR ")?;
            put_key(alloc, text, one.get())?;
            put(text, b" ")?;
            put_key(alloc, text, other.get())
        }
        Key::And(keys) => {
            put(text, b"(")?;
            put_keys(alloc, text, keys)?;
            put(text, b")")
        }
    }
}

// Keys with a space between two.
#[cycle(key)]
fn put_keys(alloc: Global, text: &mut Bytes, keys: &Items<Key>) -> Result<(), NoMemory>
    ensures { OnOk result (text.new ≡ text.old ++ spaced (map key_text keys.now)) }
{
    let Some((first, others)) = keys.as_slice().split_first() else {
        return Ok(());
    };
    put_key(alloc, text, first)?;
    for key in others {
        put(text, b" ")?;
        put_key(alloc, text, key)?;
    }
    Ok(())
}

/// Adds the keys of a SEARCH: several of them stand without parentheses.
pub(crate) fn put_sought(alloc: Global, text: &mut Bytes, key: &Key) -> Result<(), NoMemory>
    ensures { OnOk result (text.new ≡ text.old ++ sought_text key.now) }
{
    match key {
        Key::And(keys) => put_keys(alloc, text, keys),
        _ => put_key(alloc, text, key),
    }
}
