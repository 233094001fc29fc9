//! A session's reading of messages, under one hold of the lock.

ghost use Rattle.std.specs.Prelude.{◌≡◌, ℕ, IfOk, List as Listed, None, OnErr, Result, true, false};
ghost use mathlib.Core.List.{IsPrefix};
ghost use Rattle.dv_answer.specs.Refusing.{own_refusal};
ghost use Rattle.dv_member.specs.Members.{notes_of};
ghost use Rattle.dv_model.specs.Sessions.{reads_mail};
ghost use Rattle.dv_plans.specs.declared.fault.StoreFault.{StoreFault};
ghost use Rattle.dv_responses.specs.Depth.{IsShallow};
ghost use Rattle.dv_serving.specs.Taking.{Takes};
ghost use Rattle.dv_shared.specs.Holding.{Holds, KeepsSettled};
ghost use Rattle.dv_shared.specs.Kept.{Kept, notes_in};
ghost use Rattle.dv_view.specs.Taken.{HasTaken};
ghost use Rattle.dv_keeper.specs.Turns.{HasAnswered, LeavesReader};

use crate::fault::take_line;
use crate::holds::end_hold;
use crate::keeper::Keeper;
use dv_member::Session;
use dv_model::{Command, NoMemory};
use dv_naming::{Keeping, Tally};
use dv_responses::{Responses, meet};
use dv_shared::Shared;
use dv_shelf::{Clock, Shelf};
use std::alloc::Global;
use std::sync::Wait;

/// Serves a command of a session that reads messages: the data lines are taken at the end of the
/// log, and then it is answered there, or by the line of the disk's failure. Nothing is published
/// meanwhile.
pub(crate) fn serve_mail<S: Shelf, C: Clock, K: Keeping, L: Tally, M: Tally, R: Responses>(
    alloc: Global,
    shared: &mut Shared<S, C, K, L, M>,
    s: &mut Session<K, L, M>,
    c: &Command,
    replies: &mut R,
) -> Result<(), NoMemory>
    requires fresh { s.old.spent ≡ false }
    requires shallow { IsShallow c.now }
    requires reads { reads_mail c.now ≡ true }
    requires allowed { own_refusal s.old.follower.state c.now ≡ None }
    ensures begins { IsPrefix (notes_of s.old) (notes_of s.new) }
    ensures read { (k : Kept S C) × (came : Result (Listed ℕ) StoreFault) ×
        Holds S.sees C.sees.tells K.start K.moment K.past K.honest k
        × LeavesReader (notes_in k) came s.old s.new result
        × KeepsSettled S.sees K.count K.honest k
        × (notes_in k ≡ notes_in shared.old.kept) }
    ensures turn { K.honest → Takes R.with replies.old replies.new result (λ told.
        IfOk told (λ lines. HasAnswered K.start K.count c.now lines s.old s.new)) }
    ensures replies { K.honest → OnErr result (HasTaken R.with replies.old replies.new) }
{
    // What is so of each session, and under each lock, is known then.
    s.number();
    shared.knows();
    let taken = replies.length();
    match shared.read_for(s, c, replies) {
        Ok(damaged) => {
            shared.knows();
            let met = meet(alloc, c, s.view(), shared.live())?;
            shared.finish(s, c, damaged.as_slice(), met, replies)?;
            end_hold(s);
            Ok(())
        }
        Err(fault) => {
            shared.knows();
            replies.cut(alloc, taken);
            take_line(fault, replies)
        }
    }
}

impl<S: Shelf, C: Clock, K: Keeping, L: Tally, M: Tally> Keeper<S, C, K, L, M> {
    /// Serves a FETCH or a SEARCH of a session that reads messages (RFC 3501, sections 6.4.4 and
    /// 6.4.5), in one hold of the lock, behind all that was published. The replies are taken as
    /// they are made, to the last line, which has a mark, and then this is a turn; or it is the one
    /// line of the disk's failure (RFC 5530, UNAVAILABLE), and then the session is as before, but
    /// that it counts the failure. After `NoMemory`, which is the only error, it is as before but
    /// for what it knows of the words, and a failure that is counted and not told.
    pub fn mail<R: Wait, T: Responses>(
        &self,
        rt: &R,
        s: &mut Session<K, L, M>,
        c: &Command,
        replies: &mut T,
    ) -> Result<(), NoMemory>
        requires fresh { s.old.spent ≡ false }
        requires shallow { IsShallow c.now }
        requires reads { reads_mail c.now ≡ true }
        requires allowed { own_refusal s.old.follower.state c.now ≡ None }
        // What was seen begins what is seen.
        ensures begins { IsPrefix (notes_of s.old) (notes_of s.new) }
        // What was kept under the lock, what came of the reading, and what is left of the session.
        ensures read { (k : Kept S C) × (came : Result (Listed ℕ) StoreFault) ×
            Holds S.sees C.sees.tells K.start K.moment K.past K.honest k
            × LeavesReader (notes_in k) came s.old s.new result
            × KeepsSettled S.sees K.count K.honest k }
        // The turn, by the session rules.
        ensures turn { K.honest → Takes T.with replies.old replies.new result (λ told.
            IfOk told (λ lines. HasAnswered K.start K.count c.now lines s.old s.new)) }
        ensures replies { K.honest → OnErr result (HasTaken T.with replies.old replies.new) }
    {
        let mut shared = self.shared.lock(rt);
        let held = &mut *shared;
        serve_mail(self.alloc, held, s, c, replies)
    }
}
