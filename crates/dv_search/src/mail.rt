ghost use Rattle.std.specs.Prelude.{◌≡◌, ◌≤◌, map};
ghost use Rattle.std.specs.List.{list_any};
ghost use Rattle.dv_model.specs.Searches.{needs_mail};
ghost use Rattle.dv_search.specs.Nesting.{levels_of, most_levels};

use dv_model::{Items, Key};

#[cycle(mail)]
fn reads(key: &Key) -> bool
    ensures { result ≡ needs_mail key.now }
{
    match key {
        Key::Larger(_) | Key::Header { .. } => true,
        Key::Not(inside) => reads(inside.get()),
        Key::Or(one, other) => reads(one.get()) || reads(other.get()),
        Key::And(keys) => any_reads(keys),
        _ => false,
    }
}

#[cycle(mail)]
fn any_reads(keys: &Items<Key>) -> bool
    ensures { result ≡ list_any (λ reads. reads) (map needs_mail keys.now) }
{
    for key in keys.as_slice() {
        if reads(key) {
            return true;
        }
    }
    false
}

/// Whether a LARGER or a HEADER stands in the key, so that a search reads messages.
pub fn needs_mail(k: &Key) -> bool
    // Keys nest as deep as the grammar of a SEARCH lets them, so that the stack is short.
    requires { levels_of k.now ≤ most_levels }
    ensures { result ≡ needs_mail k.now }
{
    reads(k)
}
