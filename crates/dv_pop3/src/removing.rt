//! The removal that a QUIT asks for.

ghost use Rattle.std.specs.Prelude.{◌≡◌, ◌⊎◌, ◌-◌, IfOk, OnErr, OnOk, false, length, slice_get};
ghost use mathlib.Core.List.{IsPrefix};
ghost use Rattle.dv_maildrop.specs.Maildrops.{Transaction, marked_set};
ghost use Rattle.dv_member.specs.Members.{notes_of};
ghost use Rattle.dv_pop3.specs.Clients.{IsListing, KeepsOn};
ghost use Rattle.dv_pop3.specs.Findings.{IsCut, IsHeld, Removes, removal_by};

use dv_keeper::Keeper;
use dv_maildrop::Removal;
use dv_member::Session;
use dv_model::{Command, List, NoMemory, Reply, Span};
use dv_naming::{Keeping, Tally};
use dv_shelf::{Clock, Shelf};
use std::alloc::Global;
use std::sync::Wait;

// What came of it, by the last reply.
fn removal_by(replies: &[Reply]) -> Removal
    ensures { result ≡ removal_by (slice_get replies.now (length replies.now - 1)) }
{
    match replies.last() {
        Some(Reply::Unavailable { faults }) => Removal::Disk(*faults),
        Some(Reply::TooLong { bytes }) => Removal::TooLong(*bytes),
        _ => Removal::Done,
    }
}

/// Removes the marked messages that still live, by one UID REMOVE of a session: one entry, or none
/// where none of them lives. After `NoMemory`, which is the only error, nothing was written, or the
/// session is spent behind its entry.
pub(crate) fn remove<S: Shelf, C: Clock, K: Keeping, L: Tally, M: Tally, R: Wait>(
    alloc: Global,
    rt: &R,
    keeper: &Keeper<S, C, K, L, M>,
    s: &mut Session<K, L, M>,
    set: List<Span>,
) -> Result<Removal, NoMemory>
    requires fresh { s.old.spent ≡ false }
    ensures removed { K.honest → (m : Transaction) → set ≡ marked_set m
        → IsListing m.rows s.old.follower.state
        → IfOk result (λ r. Removes K.start K.count m r s.old s.new) }
    ensures left { K.honest → (m : Transaction) → set ≡ marked_set m
        → IsListing m.rows s.old.follower.state
        → OnErr result (IsHeld s.old s.new ⊎ IsCut K.start m s.old s.new) }
    ensures later { K.honest → (m : Transaction) → set ≡ marked_set m
        → IsListing m.rows s.old.follower.state
        → KeepsOn s.old.follower.state s.new.follower.state }
    ensures begins { IsPrefix (notes_of s.old) (notes_of s.new) }
    ensures number { s.new.number ≡ s.old.number }
    ensures fresh { OnOk result (s.new.spent ≡ false) }
{
    // What is so of each session is known before the write and behind it.
    s.number();
    let command = Command::UidRemove { set };
    if s.refuse(&command).is_some() {
        return Err(NoMemory);
    }
    let mut replies = List::new(alloc);
    match keeper.write(rt, s, &command, &mut replies) {
        Ok(()) => {
            s.number();
            Ok(removal_by(replies.as_slice()))
        }
        Err(_) => Err(NoMemory),
    }
}
