//! Keys whose result can be kept.

ghost use Rattle.std.specs.Prelude.{◌≡◌, ◌≤◌, IfOk, IfSome, true};
ghost use Rattle.dv_search.specs.Nesting.{levels_of, most_levels};
ghost use Rattle.dv_live.specs.Steadiness.{steady};
ghost use Rattle.dv_watching.specs.Keys.{kept_where, steady_key};

use dv_commands::parse_key;
use dv_live::steady;
use dv_model::{Key, NoMemory};
use dv_sets::ParseEnd;
use std::alloc::Global;

/// The key that is the whole of a text, or nothing where the text is no key (RFC 3501, section 9,
/// search-key), or of one whose result can't follow a mailbox: where LARGER, HEADER or `*` stands
/// in it. `NoMemory` is the only error.
pub fn steady_key(alloc: Global, text: &[u8]) -> Result<Option<Key>, NoMemory>
    ensures is { IfOk result (λ found. found ≡ steady_key text.now) }
    // It can be kept: `Saved::new` takes it.
    ensures shallow { IfOk result (λ found. IfSome found (λ key. levels_of key ≤ most_levels)) }
    ensures steady { IfOk result (λ found. IfSome found (λ key. steady key ≡ true)) }
{
    match parse_key(alloc, text) {
        Ok(key) => Ok(where_steady(key)),
        Err(ParseEnd::Bad) => Ok(None),
        Err(ParseEnd::NoMemory) => Err(NoMemory),
    }
}

/// The key, where its result can follow a mailbox.
fn where_steady(key: Key) -> Option<Key>
    requires { levels_of key ≤ most_levels }
    ensures is { result ≡ kept_where key }
    ensures shallow { IfSome result (λ k. levels_of k ≤ most_levels) }
    ensures steady { IfSome result (λ k. steady k ≡ true) }
{
    if steady(&key) { Some(key) } else { None }
}
