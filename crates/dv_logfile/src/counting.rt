ghost use Rattle.std.specs.Prelude.{◌≡◌, ◌%◌, ◌^◌, ◌<◌, ◌≤◌, List, ℕ, length, take};
ghost use Rattle.dv_model.specs.declared.types.Record.{Record};
ghost use Rattle.dv_model.specs.Spelling.{size_code};
ghost use Rattle.dv_logfile.specs.Layout.{IsGroupText, Spelled, closing};

use dv_num::size_value;

/// The zero bytes behind the last record.
pub const CLOSING: usize = 4;

/// The number of records in a group's text.
pub fn record_count(text: &[u8]) -> u32
    requires group { IsGroupText text.now }
    requires short { length text.now ≤ 1073741824 }
    ensures { (records : List Record) →
        Spelled records text.now closing → result ≡ length records }
{
    let mut rest = text;
    let mut count = 0;
    while rest.len() > CLOSING {
        let (_, behind) = rest.split_at(record_size(rest));
        rest = behind;
        count += 1;
    }
    count
}

/// The size that stands at the front of a record's bytes.
fn record_size(text: &[u8]) -> usize
    requires { 4 ≤ length text.now }
    ensures { (n : ℕ) → n < 2 ^ 30 → n % 4 ≡ 0 →
        take 4 text.now ≡ size_code n → result ≡ n }
{
    match size_value([text[0], text[1], text[2], text[3]]) {
        Some(size) => size as usize,
        None => 0,
    }
}
