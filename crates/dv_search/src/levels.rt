ghost use Rattle.std.specs.Prelude.{◌≡◌, ◌↔◌, ◌≤◌, IsTrue, nat_le};
ghost use Rattle.std.specs.List.{list_all};
ghost use Rattle.dv_search.specs.Nesting.{levels_of, most_levels};

use dv_model::{Items, Key};

// As deep as the grammar of a SEARCH lets keys nest.
const MOST_LEVELS: u32 = 33;

#[cycle(levels)]
fn nests_within(key: &Key, levels: u32) -> bool
    ensures { result ≡ nat_le (levels_of key.now) levels }
{
    if levels == 0 {
        return false;
    }
    match key {
        Key::Not(inside) => nests_within(inside.get(), levels - 1),
        Key::Or(one, other) => {
            nests_within(one.get(), levels - 1) && nests_within(other.get(), levels - 1)
        }
        Key::And(keys) => all_nest_within(keys, levels - 1),
        _ => true,
    }
}

#[cycle(levels)]
fn all_nest_within(keys: &Items<Key>, levels: u32) -> bool
    ensures { result ≡ list_all (λ key. nat_le (levels_of key) levels) keys.now }
{
    for key in keys.as_slice() {
        if !nests_within(key, levels) {
            return false;
        }
    }
    true
}

/// Whether the key nests no deeper than the grammar of a SEARCH lets it. The recursion ends there
/// too.
pub fn is_shallow(k: &Key) -> bool
    ensures { IsTrue result ↔ (levels_of k.now ≤ most_levels) }
{
    nests_within(k, MOST_LEVELS)
}
