ghost use Rattle.std.specs.Prelude.{◌≡◌, ◌+◌, ◌-◌, ◌^◌, ◌<◌, ◌≤◌, All, length, min};
ghost use Rattle.dv_model.specs.Names.{IsName};
ghost use Rattle.dv_model.specs.Spelling.{padded};
ghost use Rattle.dv_groups.specs.Lengths.{flags_length, keywords_length, records_length, store_length};

use crate::cutting::PIECE;
use dv_model::{Bytes, How};

/// The bytes of records of so many items: in front of each piece stand eight bytes and those of its
/// head, and each item has the same width. 2^64 - 1 stands for any larger number.
pub fn records_length(head: u64, width: u64, count: u64) -> u64
    requires { head < 2 ^ 32 }
    ensures { result ≡ min (records_length head width count) (2 ^ 64 - 1) }
{
    let records = count.div_ceil(u64::from(PIECE));
    let heads = records.saturating_mul(8 + head);
    heads.saturating_add(count.saturating_mul(width))
}

// The bytes of a keyword's name in a record, with those in front of it.
fn keyword_head(name: &Bytes) -> u64
    requires { IsName name.now }
    ensures is { result ≡ padded (4 + length name.now) }
    ensures small { result < 2 ^ 32 }
{
    let size = 4 + name.len() as u64;
    size + (4 - size % 4) % 4
}

/// The bytes of the updates of these keywords, for so many ranges.
pub fn keywords_length(names: &[Bytes], ranges: u64) -> u64
    requires { All IsName names.now }
    ensures { result ≡ min (keywords_length names.now ranges) (2 ^ 64 - 1) }
{
    let mut total: u64 = 0;
    for name in names {
        total = total.saturating_add(records_length(keyword_head(name), 8, ranges));
    }
    total
}

// The bytes of flag updates, of which there are none where no flag is named.
fn flags_length(flags: u8, ranges: u64) -> u64
    ensures { result ≡ min (flags_length flags ranges) (2 ^ 64 - 1) }
{
    if flags == 0 {
        return 0;
    }
    records_length(0, 12, ranges)
}

/// The bytes of the records of a STORE over so many ranges.
pub fn store_length(how: How, flags: u8, names: &[Bytes], ranges: u64) -> u64
    requires { All IsName names.now }
    ensures { result ≡ min (store_length how flags names.now ranges) (2 ^ 64 - 1) }
{
    let keywords = keywords_length(names, ranges);
    match how {
        How::Add => flags_length(flags, ranges).saturating_add(keywords),
        How::Remove => flags_length(flags, ranges).saturating_add(keywords),
        How::Replace => records_length(0, 12, ranges)
            .saturating_add(records_length(0, 8, ranges))
            .saturating_add(keywords),
    }
}
