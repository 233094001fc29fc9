ghost use Rattle.std.specs.Prelude.{◌≡◌, IfOk};
ghost use Rattle.std.specs.Str.{str_to_ascii_lowercase};
ghost use Rattle.dv_model.specs.Searches.{contains_text};

use dv_model::NoMemory;
use memchr::memmem;
use std::alloc::Global;

/// Whether the value contains the text, whatever the case of ASCII letters. The time is that of
/// both lengths together. `NoMemory` is the only error.
pub fn contains(alloc: Global, value: &[u8], text: &[u8]) -> Result<bool, NoMemory>
    ensures { IfOk result (λ found. found
        ≡ contains_text (str_to_ascii_lowercase value.now) (str_to_ascii_lowercase text.now)) }
{
    let value = value.to_ascii_lowercase(alloc)?;
    let text = text.to_ascii_lowercase(alloc)?;
    Ok(memmem::find(&value, &text).is_some())
}
