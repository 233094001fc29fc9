//! A session begins.

ghost use Rattle.std.specs.Prelude.{◌≡◌, IfErr, IfOk, false};
ghost use mathlib.Core.List.{IsPrefix};
ghost use Rattle.dv_member.specs.Members.{notes_of};
ghost use Rattle.dv_pop3.specs.declared.entering.PopFault.TheVariants as pop_fault;
ghost use Rattle.dv_pop3.specs.Logins.{HasListed, IsUnlisted};

use crate::Pop;
use crate::listing::list_all;
use dv_keeper::Keeper;
use dv_member::Session;
use dv_model::NoMemory;
use dv_naming::{Keeping, Tally};
use dv_shelf::{Clock, Shelf};
use std::alloc::Global;
use std::sync::Wait;

/// Why a session doesn't begin.
#[derive(Clone, Copy, PartialEq, Eq, Debug)]
pub enum PopFault {
    /// Memory ran out.
    NoMemory,
    /// The disk failed: so many calls of it so far.
    Disk(u64),
}

impl From<NoMemory> for PopFault {
    ghost from_gives = { λ _ e. e ≡ pop_fault.NoMemory };

    fn from(_: NoMemory) -> PopFault {
        PopFault::NoMemory
    }
}

/// Begins a POP3 session: it lists the messages of the mailbox that a session of the store sees,
/// each with its size, and may then be greeted (RFC 1939, section 4). These are all that are live
/// and whole at one place, behind all that was published, whatever others write meanwhile; the
/// store is asked under the lock, once, and each message is read once at most. After an error
/// nothing was written, and the session, which is handed back, goes on.
pub fn login<S: Shelf, C: Clock, K: Keeping, L: Tally, M: Tally, R: Wait>(
    alloc: Global,
    rt: &R,
    keeper: &Keeper<S, C, K, L, M>,
    session: Session<K, L, M>,
) -> Result<Pop<K, L, M>, (Session<K, L, M>, PopFault)>
    requires fresh { session.spent ≡ false }
    ensures listed { K.honest → IfOk result (λ pop.
        HasListed K.start pop.maildrop session pop.session) }
    ensures left { K.honest → IfErr result (λ e. IsUnlisted K.count e.1 session e.0) }
    ensures open { IfOk result (λ pop. pop.maildrop.ended ≡ false) }
    ensures begins { IfOk result (λ pop. IsPrefix (notes_of session) (notes_of pop.session)) }
    ensures more { IfErr result (λ e. IsPrefix (notes_of session) (notes_of e.0)) }
    ensures fresh { IfOk result (λ pop. pop.session.spent ≡ false) }
    ensures goes_on { IfErr result (λ e. e.0.spent ≡ false) }
{
    let mut session = session;
    match list_all(alloc, rt, keeper, &mut session) {
        Ok(maildrop) => Ok(Pop::of(alloc, maildrop, session)),
        Err(fault) => Err((session, fault)),
    }
}
