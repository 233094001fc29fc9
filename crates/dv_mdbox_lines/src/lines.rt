//! What a line says.

ghost use Rattle.std.specs.Prelude.{◌≡◌, ◌<◌, ◌^◌, option_map};
ghost use Rattle.dv_formats.specs.Parsing.{number_of};
ghost use Rattle.dv_mdbox_lines.specs.Scripts as scripts;
ghost use Rattle.dv_mdbox_lines.specs.Scripts.{call_of, size_of};
ghost use Rattle.dv_mdbox_lines.specs.Views.{said};

use dv_commands::{behind, read_decimal};

/// A call on a storage, as a line of its script has it.
#[derive(Clone, Copy)]
pub enum Call<'a> {
    /// A message is saved.
    Save(&'a [u8]),
    /// An id has one reference more.
    Copy(u32),
    /// It has one less.
    Drop(u32),
    /// Its message is read.
    Get(u32),
    /// The ids without a reference go.
    Purge,
}

/// Numbers are below this.
const NUMBERS: u64 = 1 << 32;

/// A number of 64 bits is one.
fn is_wide(n: u64)
    ensures { n < 2 ^ 64 }
{}

/// The number of some digits, without leading zeros.
fn read_number(digits: &[u8]) -> Option<u32>
    ensures { result ≡ number_of (2 ^ 32) digits.now }
{
    let Some(n) = read_decimal(digits) else {
        return None;
    };
    is_wide(n);
    if n < NUMBERS { Some(n as u32) } else { None }
}

/// The number behind a word.
fn number_behind(text: &[u8], word: &[u8]) -> Option<u32>
    ensures { result ≡ scripts.number_behind word.now text.now }
{
    match behind(text, word) {
        Some(digits) => read_number(digits),
        None => None,
    }
}

/// How many bytes of a message follow the line.
#[tactic(auto, unfolding(crate::specs::Scripts::size_of))]
pub(crate) fn size_of(text: &[u8]) -> Option<u32>
    ensures { result ≡ size_of text.now }
{
    let Some(rest) = behind(text, b"SAVE {") else {
        return None;
    };
    match rest.strip_suffix(b"}") {
        Some(digits) => read_number(digits),
        None => None,
    }
}

/// The call that stands on one line.
#[tactic(auto, unfolding(crate::specs::Scripts::call_of))]
pub(crate) fn call_of<'a>(text: &[u8]) -> Option<Call<'a>>
    ensures { option_map said result ≡ call_of text.now }
{
    if text == b"PURGE".as_slice() {
        return Some(Call::Purge);
    }
    if let Some(id) = number_behind(text, b"COPY ") {
        return Some(Call::Copy(id));
    }
    if let Some(id) = number_behind(text, b"DROP ") {
        return Some(Call::Drop(id));
    }
    match number_behind(text, b"GET ") {
        Some(id) => Some(Call::Get(id)),
        None => None,
    }
}
