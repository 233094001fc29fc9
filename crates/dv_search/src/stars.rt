ghost use Rattle.std.specs.Prelude.{◌≡◌, ◌||◌, ◌≤◌, map};
ghost use Rattle.std.specs.List.{list_any};
ghost use Rattle.dv_search.specs.Nesting.{levels_of, most_levels};
ghost use Rattle.dv_search.specs.Stars.{has_star, is_star, names_star};

use dv_model::{End, Items, Key, Span};

fn is_star(end: &End) -> bool
    ensures { result ≡ is_star end.now }
{
    match end {
        End::Star => true,
        End::Number(_) => false,
    }
}

fn ends_in_star(span: &Span) -> bool
    ensures { result ≡ (is_star span.now.from || is_star span.now.to) }
{
    is_star(&span.from) || is_star(&span.to)
}

fn has_star(set: &[Span]) -> bool
    ensures { result ≡ has_star set.now }
{
    set.iter().any(|span| ends_in_star(span))
}

#[cycle(stars)]
fn stands_in(key: &Key) -> bool
    ensures { result ≡ names_star key.now }
{
    match key {
        Key::Uid(set) => has_star(set.as_slice()),
        Key::Not(inside) => stands_in(inside.get()),
        Key::Or(one, other) => stands_in(one.get()) || stands_in(other.get()),
        Key::And(keys) => stands_in_any(keys),
        _ => false,
    }
}

#[cycle(stars)]
fn stands_in_any(keys: &Items<Key>) -> bool
    ensures { result ≡ list_any (λ star. star) (map names_star keys.now) }
{
    for key in keys.as_slice() {
        if stands_in(key) {
            return true;
        }
    }
    false
}

/// Whether `*` stands in the key, so that what it finds depends on the largest UID of a view.
pub fn names_star(k: &Key) -> bool
    // Keys nest as deep as the grammar of a SEARCH lets them, so that the stack is short.
    requires { levels_of k.now ≤ most_levels }
    ensures { result ≡ names_star k.now }
{
    stands_in(k)
}
