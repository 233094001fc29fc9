//! The listing of a mailbox's messages when a session begins.

ghost use Rattle.std.specs.Prelude.{◌≡◌, IfErr, IfOk, false};
ghost use mathlib.Core.List.{IsPrefix};
ghost use Rattle.dv_member.specs.Members.{notes_of};
ghost use Rattle.dv_pop3.specs.Clients.{IsListing};
ghost use Rattle.dv_pop3.specs.Listings.{fetch_sizes};
ghost use Rattle.dv_pop3.specs.Logins.{HasListed, IsUnlisted, ListsRows};

use crate::entering::PopFault;
use crate::sizes::Sizes;
use dv_keeper::Keeper;
use dv_maildrop::{Listed, Maildrop};
use dv_member::Session;
use dv_model::{Command, End, Item, List, NoMemory, Span};
use dv_naming::{Keeping, Tally};
use dv_shelf::{Clock, Shelf};
use std::alloc::Global;
use std::sync::Wait;

// A FETCH of the sizes of all messages, by their UIDs: an empty mailbox has no first number.
fn fetch_sizes(alloc: Global) -> Result<Command, NoMemory>
    ensures { IfOk result (λ c. c ≡ fetch_sizes) }
{
    let span = Span {
        from: End::Number(1),
        to: End::Number(u32::MAX),
    };
    let set = List::from_slice(alloc, &[span])?;
    let mut items = List::new(alloc);
    items.push(Item::Size)?;
    Ok(Command::Fetch {
        by_uid: true,
        set,
        items,
    })
}

// The messages of the mailbox that a session then sees, which it selects, each read once at most.
// The store is asked under the lock, once.
fn size_all<S: Shelf, C: Clock, K: Keeping, L: Tally, M: Tally, R: Wait>(
    alloc: Global,
    rt: &R,
    keeper: &Keeper<S, C, K, L, M>,
    s: &mut Session<K, L, M>,
) -> Result<List<Listed>, PopFault>
    requires fresh { s.old.spent ≡ false }
    ensures rows { K.honest → IfOk result (λ rows. ListsRows K.start rows s.old s.new) }
    ensures left { K.honest → IfErr result (λ fault. IsUnlisted K.count fault s.old s.new) }
    ensures begins { IsPrefix (notes_of s.old) (notes_of s.new) }
    ensures fresh { s.new.spent ≡ false }
{
    // What is so of each session is known before the reading and behind it.
    s.number();
    let command = fetch_sizes(alloc)?;
    let mut sizes = Sizes::new(alloc);
    keeper.select_and_read(rt, s, &command, &mut sizes)?;
    s.number();
    let (rows, failure) = sizes.into_parts();
    match failure {
        Some(faults) => Err(PopFault::Disk(faults)),
        None => Ok(rows),
    }
}

/// The maildrop of the mailbox that a session then sees, which it has selected. After an error the
/// session goes on.
pub(crate) fn list_all<S: Shelf, C: Clock, K: Keeping, L: Tally, M: Tally, R: Wait>(
    alloc: Global,
    rt: &R,
    keeper: &Keeper<S, C, K, L, M>,
    s: &mut Session<K, L, M>,
) -> Result<Maildrop, PopFault>
    requires fresh { s.old.spent ≡ false }
    ensures listed { K.honest → IfOk result (λ m. HasListed K.start m s.old s.new) }
    ensures given { K.honest → IfOk result (λ m. IsListing m.rows s.new.follower.state) }
    ensures open { IfOk result (λ m. m.ended ≡ false) }
    ensures left { K.honest → IfErr result (λ fault. IsUnlisted K.count fault s.old s.new) }
    ensures begins { IsPrefix (notes_of s.old) (notes_of s.new) }
    ensures fresh { s.new.spent ≡ false }
{
    let rows = size_all(alloc, rt, keeper, s)?;
    let maildrop = Maildrop::new(alloc, s.live().uid_validity(), rows)?;
    Ok(maildrop)
}
