//! A session's SELECT with a reading of messages at the same place, under one hold of the lock.

ghost use Rattle.std.specs.Prelude.{◌≡◌, ◌⊎◌, ℕ, IfOk, List as Listed, None, OnErr, Result, false, true};
ghost use mathlib.Core.List.{IsPrefix};
ghost use Rattle.dv_answer.specs.Refusing.{own_refusal};
ghost use Rattle.dv_member.specs.Calls.{IsAsBefore};
ghost use Rattle.dv_member.specs.Members.{notes_of};
ghost use Rattle.dv_model.specs.Sessions.{State, reads_mail};
ghost use Rattle.dv_plans.specs.declared.fault.StoreFault.{StoreFault};
ghost use Rattle.dv_responses.specs.Depth.{IsShallow};
ghost use Rattle.dv_serving.specs.Taking.{Takes};
ghost use Rattle.dv_shared.specs.Holding.{Holds, KeepsSettled};
ghost use Rattle.dv_shared.specs.Kept.{Kept, notes_in};
ghost use Rattle.dv_view.specs.Taken.{HasTaken};
ghost use Rattle.dv_keeper.specs.Selecting.{HasSelected, LeavesSelected, SelectsAndReads};
ghost use Rattle.dv_keeper.specs.Sessions.{HasRejoined};
ghost use Rattle.dv_keeper.specs.Turns.{HasSeen};

use crate::keeper::Keeper;
use crate::mailing::serve_mail;
use dv_member::Session;
use dv_model::{Command, NoMemory};
use dv_naming::{Keeping, Tally};
use dv_responses::Responses;
use dv_shared::Shared;
use dv_shelf::{Clock, Shelf};
use std::alloc::Global;
use std::sync::Wait;

// Answers a SELECT of a session, which sees all that was published.
fn select_newest<S: Shelf, C: Clock, K: Keeping, L: Tally, M: Tally, R: Responses>(
    shared: &mut Shared<S, C, K, L, M>,
    s: &mut Session<K, L, M>,
    replies: &mut R,
) -> Result<(), NoMemory>
    requires fresh { s.old.spent ≡ false }
    ensures begins { IsPrefix (notes_of s.old) (notes_of s.new) }
    ensures turn { Takes R.with replies.old replies.new result (λ told. IfOk told (λ lines.
        HasSelected K.start K.count (notes_in shared.old.kept) lines s.old s.new)) }
    ensures err { OnErr result (IsAsBefore s.old s.new
        ⊎ (HasRejoined s.old s.new × HasSeen (notes_in shared.old.kept) s.new)) }
    ensures replies { OnErr result (HasTaken R.with replies.old replies.new) }
    ensures same { shared.new ≡ shared.old }
{
    shared.catch_up(s)?;
    // What is so of each session is known then.
    s.number();
    s.answer(&Command::Select, replies)?;
    s.number();
    Ok(())
}

// Answers a SELECT of a session, and serves its command at the same place.
fn serve_selected<S: Shelf, C: Clock, K: Keeping, L: Tally, M: Tally, R: Responses>(
    alloc: Global,
    shared: &mut Shared<S, C, K, L, M>,
    s: &mut Session<K, L, M>,
    c: &Command,
    replies: &mut R,
) -> Result<(), NoMemory>
    requires fresh { s.old.spent ≡ false }
    requires shallow { IsShallow c.now }
    requires reads { reads_mail c.now ≡ true }
    requires allowed { (x : State) → x.selected ≡ true → own_refusal x c.now ≡ None }
    ensures begins { IsPrefix (notes_of s.old) (notes_of s.new) }
    ensures read { (k : Kept S C) × (came : Result (Listed ℕ) StoreFault) ×
        Holds S.sees C.sees.tells K.start K.moment K.past K.honest k
        × LeavesSelected K.start K.count (notes_in k) came s.old s.new result
        × KeepsSettled S.sees K.count K.honest k }
    ensures turn { K.honest → Takes R.with replies.old replies.new result (λ told.
        IfOk told (λ lines. SelectsAndReads K.start K.count c.now lines s.old s.new)) }
    ensures replies { K.honest → OnErr result (HasTaken R.with replies.old replies.new) }
{
    // What holds under the lock is known then.
    shared.knows();
    select_newest(shared, s, replies)?;
    serve_mail(alloc, shared, s, c, replies)
}

impl<S: Shelf, C: Clock, K: Keeping, L: Tally, M: Tally> Keeper<S, C, K, L, M> {
    /// Serves a SELECT of a session, and then a FETCH or a SEARCH of it that reads messages (RFC
    /// 3501, sections 6.3.1, 6.4.4 and 6.4.5), in one hold of the lock, behind all that was
    /// published: what the command reads is the mailbox that was shown. The command is one that no
    /// session refuses which has selected the mailbox. The replies to the SELECT are taken first,
    /// and then those to the command, as `mail` takes them: these are two turns; or the SELECT is
    /// one, and the command is answered by the one line of the disk's failure (RFC 5530,
    /// UNAVAILABLE), which the session counts. After `NoMemory`, which is the only error, the
    /// session may have seen all, and may have been shown it; and a failure of the disk may be
    /// counted that isn't told.
    pub fn select_and_read<R: Wait, T: Responses>(
        &self,
        rt: &R,
        s: &mut Session<K, L, M>,
        c: &Command,
        replies: &mut T,
    ) -> Result<(), NoMemory>
        requires fresh { s.old.spent ≡ false }
        requires shallow { IsShallow c.now }
        requires reads { reads_mail c.now ≡ true }
        requires allowed { (x : State) → x.selected ≡ true → own_refusal x c.now ≡ None }
        // What was seen begins what is seen.
        ensures begins { IsPrefix (notes_of s.old) (notes_of s.new) }
        // What was kept under the lock, what came of the reading, and what is left of the session.
        ensures read { (k : Kept S C) × (came : Result (Listed ℕ) StoreFault) ×
            Holds S.sees C.sees.tells K.start K.moment K.past K.honest k
            × LeavesSelected K.start K.count (notes_in k) came s.old s.new result
            × KeepsSettled S.sees K.count K.honest k }
        // Both turns, by the session rules, at one place.
        ensures turn { K.honest → Takes T.with replies.old replies.new result (λ told.
            IfOk told (λ lines. SelectsAndReads K.start K.count c.now lines s.old s.new)) }
        ensures replies { K.honest → OnErr result (HasTaken T.with replies.old replies.new) }
    {
        let mut shared = self.shared.lock(rt);
        let held = &mut *shared;
        serve_selected(self.alloc, held, s, c, replies)
    }
}
