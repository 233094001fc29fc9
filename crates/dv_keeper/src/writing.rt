//! A session's write, under one hold of the lock.

ghost use Rattle.std.specs.Prelude.{◌≡◌, ◌≤◌, ◌<◌, ◌-◌, ◌+◌, ℕ, IfErr, IfOk, None, OnErr, OnOk, false, length, true};
ghost use mathlib.Core.List.{IsPrefix};
ghost use Rattle.dv_answer.specs.Answers.{IsAnswered};
ghost use Rattle.dv_answer.specs.Refusing.{own_refusal};
ghost use Rattle.dv_member.specs.Calls.{IsAsBefore};
ghost use Rattle.dv_member.specs.Members.{notes_of};
ghost use Rattle.dv_model.specs.declared.types.Mailbox.{Mailbox};
ghost use Rattle.dv_model.specs.Journals.{Mail as Message, mark_of};
ghost use Rattle.dv_model.specs.Sessions.{answer, is_write};
ghost use Rattle.dv_notes.specs.Logs.{log_of};
ghost use Rattle.dv_responses.specs.Depth.{IsShallow};
ghost use Rattle.dv_responses.specs.Met.{met_of};
ghost use Rattle.dv_serving.specs.Lines.{IsFaultLine, fault_lines};
ghost use Rattle.dv_serving.specs.Servable.{IsServable};
ghost use Rattle.dv_serving.specs.Taking.{Takes};
ghost use Rattle.dv_view.specs.Taken.{HasTaken};
ghost use Rattle.dv_shared.specs.Kept.{notes_in};
ghost use Rattle.dv_shared.specs.Reading.{without_pass};
ghost use Rattle.dv_keeper.specs.Commits.{Commit, HoldsBoth, IsCommitOf};
ghost use Rattle.dv_keeper.specs.Sessions.{HasJoined};
ghost use Rattle.dv_keeper.specs.Turns.{HasAnswered, HasSeen, HasTold, LeavesEntry, LeavesUntold, LeavesWriter, TellsFault};

use crate::fault::{SessionFault, take_line};
use crate::holds::end_hold;
use crate::keeper::Keeper;
use dv_member::Session;
use dv_model::{Command, List, NoMemory};
use dv_naming::{Keeping, Tally};
use dv_plans::StoreFault;
use dv_responses::{Met, Responses, meet};
use dv_shared::{Shared, Written};
use dv_shelf::{Clock, Shelf};
use std::alloc::Global;
use std::sync::Wait;

// A limit or the disk's failure answers the command of a session, which then sees all that was
// published.
fn tell_fault<S: Shelf, C: Clock, K: Keeping, L: Tally, M: Tally, R: Responses>(
    shared: &mut Shared<S, C, K, L, M>,
    s: &mut Session<K, L, M>,
    fault: StoreFault,
    replies: &mut R,
) -> Result<(), NoMemory>
    requires fresh { s.old.spent ≡ false }
    ensures begins { IsPrefix (notes_of s.old) (notes_of s.new) }
    ensures ok { OnOk result (HasSeen (notes_in shared.old.kept) s.new
        × HasJoined s.old s.new) }
    ensures said { OnOk result ((replies.new ≡ R.with replies.old (fault_lines fault))
        × IsFaultLine fault (fault_lines fault)) }
    ensures err { OnErr result (IsAsBefore s.old s.new) }
    ensures replies { OnErr result (HasTaken R.with replies.old replies.new) }
    ensures same { shared.new ≡ shared.old }
{
    take_line(fault, replies)?;
    shared.catch_up(s)?;
    end_hold(s);
    Ok(())
}

// Answers the write of a session, which the store took. Before it the log had so many entries.
// Where memory runs out behind an entry more, the session is spent.
fn tell_written<S: Shelf, C: Clock, K: Keeping, L: Tally, M: Tally, R: Responses>(
    alloc: Global,
    shared: &mut Shared<S, C, K, L, M>,
    s: &mut Session<K, L, M>,
    c: &Command,
    met: Met,
    before: u64,
    written: Written,
    replies: &mut R,
) -> Result<(), SessionFault>
    requires fresh { s.old.spent ≡ false }
    requires command { IsShallow c.now × (is_write c.now ≡ true) }
    requires allowed { own_refusal s.old.follower.state c.now ≡ None }
    requires pass { before < written.number → shared.old.kept.feed.pass ≡ true }
    ensures answer { (mail : ℕ → Message) (met_mailbox : Mailbox)
        → met ≡ met_of c.now s.old.follower.state.view met_mailbox
        → OnOk result (IsAnswered R.with replies.old replies.new s.new.follower.state
        (answer mail s.old.follower.state c.now met_mailbox
        (length (notes_in shared.old.kept)) shared.old.kept.store.chain.live.mailbox
        (mark_of (log_of K.start (notes_in shared.old.kept))
        (length (notes_in shared.old.kept))))) }
    ensures begins { IsPrefix (notes_of s.old) (notes_of s.new) }
    ensures ok { OnOk result (HasSeen (notes_in shared.old.kept) s.new
        × HasTold 0 s.old s.new) }
    ensures err { IfErr result (LeavesUntold before written shared.old.kept.feed s.old s.new) }
    ensures replies { OnErr result (HasTaken R.with replies.old replies.new) }
{
    let none = List::new(alloc);
    match shared.finish(s, c, none.as_slice(), met, replies) {
        Ok(()) => {
            end_hold(s);
            Ok(())
        }
        Err(_) => {
            if written.number <= before {
                return Err(SessionFault::NoMemory);
            }
            shared.spend(s);
            s.number();
            Err(SessionFault::NoMemoryAfter(written))
        }
    }
}

// Serves a write of a session: what it meets is taken first, then the store commits it, and then it
// is answered behind its entry, or by the line of what the store answered.
fn serve_write<S: Shelf, C: Clock, K: Keeping, L: Tally, M: Tally, R: Responses>(
    alloc: Global,
    shared: &mut Shared<S, C, K, L, M>,
    s: &mut Session<K, L, M>,
    c: &Command,
    replies: &mut R,
) -> Result<(), SessionFault>
    requires fresh { s.old.spent ≡ false }
    requires servable { IsServable c.now }
    requires write { is_write c.now ≡ true }
    requires allowed { own_refusal s.old.follower.state c.now ≡ None }
    ensures begins { IsPrefix (notes_of s.old) (notes_of s.new) }
    ensures commit { (k : Commit S C) × HoldsBoth S.sees C.sees K.start K.moment K.past K.honest k
        × IsCommitOf S.sees C.sees K.start K.honest s.old c.now k
        × LeavesWriter (notes_in k.before) (notes_in k.behind) k.came s.old s.new result
        × TellsFault R.with replies.old replies.new k.came result }
    ensures turn { K.honest → Takes R.with replies.old replies.new result (λ told.
        IfOk told (λ lines. HasAnswered K.start K.count c.now lines s.old s.new)) }
    ensures entry { K.honest → IfErr result (LeavesEntry K.start c.now s.old s.new) }
    ensures replies { OnErr result (HasTaken R.with replies.old replies.new) }
{
    // What is so of each session, and under each lock, is known then.
    s.number();
    shared.face(s);
    shared.knows();
    let met = meet(alloc, c, s.view(), shared.live())?;
    let before = shared.count();
    match shared.commit(s, c) {
        Ok(written) => {
            shared.knows();
            tell_written(alloc, shared, s, c, met, before, written, replies)
        }
        Err(fault) => {
            shared.knows();
            tell_fault(shared, s, fault, replies)?;
            Ok(())
        }
    }
}

impl<S: Shelf, C: Clock, K: Keeping, L: Tally, M: Tally> Keeper<S, C, K, L, M> {
    /// Serves a write of a session (RFC 3501, sections 6.3.11, 6.4.1, 6.4.3 and 6.4.6, and UID
    /// REMOVE), in one hold of the lock, behind all that was published: it is one entry more, or
    /// nothing is written. The replies are taken as they are made, to the last line, which has a
    /// mark, or is that of a limit or of the disk's failure (RFC 5530, LIMIT and UNAVAILABLE). A
    /// line with a mark is a turn; after another one the session has caught up, and its view is as
    /// before. After `NoMemory` nothing was written, and the session is as before but for what it
    /// knows of the words, and a failure of the disk that is counted and not told. After
    /// `NoMemoryAfter` the session's entry stands, and the session is only closed.
    pub fn write<R: Wait, T: Responses>(
        &self,
        rt: &R,
        s: &mut Session<K, L, M>,
        c: &Command,
        replies: &mut T,
    ) -> Result<(), SessionFault>
        requires fresh { s.old.spent ≡ false }
        requires servable { IsServable c.now }
        requires write { is_write c.now ≡ true }
        requires allowed { own_refusal s.old.follower.state c.now ≡ None }
        // What was seen begins what is seen.
        ensures begins { IsPrefix (notes_of s.old) (notes_of s.new) }
        // What was committed under the lock, and what is left of the session by it.
        ensures commit { (k : Commit S C)
            × HoldsBoth S.sees C.sees K.start K.moment K.past K.honest k
            × IsCommitOf S.sees C.sees K.start K.honest s.old c.now k
            × LeavesWriter (notes_in k.before) (notes_in k.behind) k.came s.old s.new result
            × TellsFault T.with replies.old replies.new k.came result }
        // The turn, by the session rules; or the entry that is left without an answer.
        ensures turn { K.honest → Takes T.with replies.old replies.new result (λ told.
            IfOk told (λ lines. HasAnswered K.start K.count c.now lines s.old s.new)) }
        ensures entry { K.honest → IfErr result (LeavesEntry K.start c.now s.old s.new) }
        ensures replies { OnErr result (HasTaken T.with replies.old replies.new) }
    {
        let mut shared = self.shared.lock(rt);
        let held = &mut *shared;
        serve_write(self.alloc, held, s, c, replies)
    }
}
