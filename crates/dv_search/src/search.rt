ghost use Rattle.std.specs.Prelude.{◌≡◌, ◌≤◌, ℕ, List, Option, map, IfOk};
ghost use Rattle.dv_model.specs.declared.types.Key.{Key as Searched};
ghost use Rattle.dv_search.specs.Facts.{AreAllKnown, found_rows};
ghost use Rattle.dv_search.specs.Nesting.{levels_of, most_levels};
ghost use Rattle.dv_search.specs.Sought.{IsSought};

use crate::known::Mail;
use crate::sought::Sought;
use dv_model::{Key, List, NoMemory};
use dv_view::{Live, View};
use std::alloc::Global;

// The numbers of the view's rows that meet a key that was made ready.
fn numbers_found(
    alloc: Global,
    sought: &Sought,
    v: &View,
    live: &Live,
    mail: &Mail,
) -> Result<List<u32>, NoMemory>
    // So it is for each key that was made ready so.
    ensures { (k : Searched) → IsSought k v.now sought.now
        → (message : ℕ → Option (List ℕ)) → AreAllKnown k message mail.now v.now.rows
        → IfOk result (λ numbers. numbers
        ≡ map (λ row. row.0) (found_rows message k v.now live.now.mailbox)) }
{
    let mut numbers = List::new(alloc);
    let mut number = 0;
    for shown in v.rows().as_slice() {
        number += 1;
        if sought.finds(alloc, live, shown, mail.of(shown.uid))? {
            numbers.push(number)?;
        }
    }
    Ok(numbers)
}

/// The numbers of the view's rows that meet the key, in rising order (RFC 3501, section 6.4.4).
/// Flags and keywords are as the view shows them, and names are those of the mailbox's table.
/// Where the key needs mail, a row without facts isn't found. `NoMemory` is the only error. The
/// time is that of sorting the key's ranges, and in proportion to the rows times the key, with the
/// values of its fields; each range of UIDs is found by halves.
pub fn eval(
    alloc: Global,
    k: &Key,
    v: &View,
    live: &Live,
    mail: &Mail,
) -> Result<List<u32>, NoMemory>
    // Keys nest as deep as the grammar of a SEARCH lets them, so that the stack is short.
    requires { levels_of k.now ≤ most_levels }
    // So it is for all messages that have these facts, and where rows without facts have none.
    ensures { (message : ℕ → Option (List ℕ)) → AreAllKnown k.now message mail.now v.now.rows
        → IfOk result (λ numbers. numbers
        ≡ map (λ row. row.0) (found_rows message k.now v.now live.now.mailbox)) }
{
    let sought = Sought::new(alloc, k, v)?;
    numbers_found(alloc, &sought, v, live, mail)
}
