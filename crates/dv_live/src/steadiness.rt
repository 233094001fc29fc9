ghost use Rattle.std.specs.Prelude.{◌≡◌, ◌≤◌};
ghost use Rattle.dv_search.specs.Nesting.{levels_of, most_levels};
ghost use Rattle.dv_live.specs.Steadiness.{steady};

use dv_model::Key;
use dv_search::{names_star, needs_mail};

/// Whether a result of this key can follow a mailbox row by row: no LARGER, no HEADER and no `*`
/// stands in it (RFC 3501, section 6.4.4), so that what it finds depends on UIDs, flags and
/// keywords alone. Takes no memory.
pub fn steady(k: &Key) -> bool
    // Keys nest as deep as the grammar of a SEARCH lets them, so that the stack is short.
    requires { levels_of k.now ≤ most_levels }
    ensures { result ≡ steady k.now }
{
    !needs_mail(k) && !names_star(k)
}
