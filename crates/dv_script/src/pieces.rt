ghost use Rattle.std.specs.Prelude.{◌≡◌, ◌++◌, decimal, flat_map, IfOk, OnErr, OnOk};
ghost use Rattle.dv_formats.specs.Printing.{flags_text, set_text};
ghost use Rattle.dv_script.specs.Extending.{Extends};

use dv_model::{Bytes, List, NoMemory, Span};
use dv_sets::{print_flags, print_set};
use itoa::Buffer;
use std::alloc::Global;

/// The number in decimal digits, without leading zeros.
pub fn decimal_text(alloc: Global, n: u64) -> Result<Bytes, NoMemory>
    ensures { IfOk result (λ text. text ≡ decimal n) }
{
    let mut text = List::new(alloc);
    put_number(&mut text, n)?;
    Ok(text)
}

pub(crate) fn put(text: &mut Bytes, bytes: &[u8]) -> Result<(), NoMemory>
    ensures ok { OnOk result (text.new ≡ text.old ++ bytes.now) }
    ensures err { OnErr result (Extends text.old text.new) }
{
    text.extend(bytes)?;
    Ok(())
}

pub(crate) fn put_number(text: &mut Bytes, n: u64) -> Result<(), NoMemory>
    ensures ok { OnOk result (text.new ≡ text.old ++ decimal n) }
    ensures err { OnErr result (Extends text.old text.new) }
{
    let mut buffer = Buffer::new();
    put(text, buffer.format(n).as_bytes())
}

pub(crate) fn put_before(text: &mut Bytes, before: &[u8], n: u64) -> Result<(), NoMemory>
    ensures ok { OnOk result (text.new ≡ text.old ++ (before.now ++ decimal n)) }
    ensures err { OnErr result (Extends text.old text.new) }
{
    put(text, before)?;
    put_number(text, n)
}

pub(crate) fn put_around(
    text: &mut Bytes,
    before: &[u8],
    n: u64,
    behind: &[u8],
) -> Result<(), NoMemory>
    ensures ok { OnOk result (text.new ≡ text.old ++ (before.now ++ decimal n ++ behind.now)) }
    ensures err { OnErr result (Extends text.old text.new) }
{
    put_before(text, before, n)?;
    put(text, behind)
}

/// Puts each number behind the same bytes.
pub fn put_numbers(text: &mut Bytes, before: &[u8], numbers: &[u32]) -> Result<(), NoMemory>
    ensures ok { OnOk result
        (text.new ≡ text.old ++ flat_map (λ n. before.now ++ decimal n) numbers.now) }
    ensures err { OnErr result (Extends text.old text.new) }
{
    for number in numbers {
        put_before(text, before, *number as u64)?;
    }
    Ok(())
}

pub(crate) fn put_set(alloc: Global, text: &mut Bytes, set: &List<Span>) -> Result<(), NoMemory>
    ensures { OnOk result (text.new ≡ text.old ++ set_text set.now) }
{
    put(text, print_set(alloc, set)?.as_slice())
}

pub(crate) fn put_flag_list(
    alloc: Global,
    text: &mut Bytes,
    flags: u8,
    keywords: &List<Bytes>,
) -> Result<(), NoMemory>
    ensures { OnOk result (text.new ≡ text.old ++ flags_text flags keywords.now) }
{
    put(text, print_flags(alloc, flags, keywords)?.as_slice())
}
