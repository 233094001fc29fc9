ghost use Rattle.std.specs.Prelude.{◌≡◌, Some, None};
ghost use Rattle.dv_formats.specs.Parsing.{field_at, item_at, several, item_limit, plain_item};
ghost use Rattle.dv_commands.specs.Reads.{Gives};

use crate::leaves::is_field_name;
use crate::text::{behind, split_word};
use dv_model::{Item, List};
use dv_sets::ParseEnd;
use std::alloc::Global;

/// The most items of a FETCH.
const MAX_ITEMS: u32 = 8;

// A field behind its word.
fn read_field(alloc: Global, b: &[u8]) -> Result<(Item, &[u8]), ParseEnd>
    ensures { Gives (λ x. (x.0, x.1.now)) result (field_at b.now) }
{
    let (name, rest) = split_word(b);
    if !is_field_name(name) {
        return Err(ParseEnd::Bad);
    }
    Ok((Item::Field(List::from_slice(alloc, name)?), rest))
}

// An item of one word.
fn plain_item(word: &[u8]) -> Option<Item>
    ensures { result ≡ plain_item word.now }
{
    if word == b"FLAGS".as_slice() {
        return Some(Item::Flags);
    }
    if word == b"RFC822.SIZE".as_slice() {
        return Some(Item::Size);
    }
    if word == b"BODY[]".as_slice() {
        return Some(Item::Body);
    }
    if word == b"MODSEQ".as_slice() {
        return Some(Item::Modseq);
    }
    None
}

#[tactic(auto, unfolding(dv_formats::specs::Parsing::item_at))]
fn read_item(alloc: Global, b: &[u8]) -> Result<(Item, &[u8]), ParseEnd>
    ensures { Gives (λ x. (x.0, x.1.now)) result (item_at b.now) }
{
    if let Some(rest) = behind(b, b"FIELD ") {
        return read_field(alloc, rest);
    }
    let (word, rest) = split_word(b);
    match plain_item(word) {
        Some(item) => Ok((item, rest)),
        None => Err(ParseEnd::Bad),
    }
}

/// Up to eight items with a space between two, and what stands behind them.
pub fn read_items(alloc: Global, b: &[u8]) -> Result<(List<Item>, &[u8]), ParseEnd>
    ensures { Gives (λ x. (x.0, x.1.now)) result (several item_at item_limit b.now) }
{
    let mut items = List::new(alloc);
    let mut rest = b;
    for _ in 0..MAX_ITEMS {
        let (item, end) = read_item(alloc, rest)?;
        items.push(item)?;
        let Some(next) = behind(end, b" ") else {
            return Ok((items, end));
        };
        rest = next;
    }
    Err(ParseEnd::Bad)
}
