//! What the holder of the lock does to sessions: they see all that was published, and are answered
//! there.

ghost use Rattle.std.specs.Prelude.{◌≡◌, ℕ, IfErr, IfOk, OnErr, OnOk, false, length, true};
ghost use mathlib.Core.List.{IsPrefix};
ghost use Rattle.dv_answer.specs.Answers.{IsAnswered};
ghost use Rattle.dv_answer.specs.Refusing.{own_refusal};
ghost use Rattle.dv_member.specs.Calls.{HasCaughtUp, HasTurned, IsAsBefore, IsSpent};
ghost use Rattle.dv_member.specs.Members.{notes_of};
ghost use Rattle.dv_model.specs.declared.types.Mailbox.{Mailbox};
ghost use Rattle.dv_model.specs.Journals.{Mail as Message, mark_of};
ghost use Rattle.dv_model.specs.Sessions.{answer, data_of, reads_mail};
ghost use Rattle.dv_notes.specs.Logs.{log_of};
ghost use Rattle.dv_plans.specs.Faults.{HasStoreCause};
ghost use Rattle.dv_responses.specs.Damaged.{IsRead, damaged_uids};
ghost use Rattle.dv_responses.specs.Depth.{IsShallow};
ghost use Rattle.dv_responses.specs.Met.{met_of};
ghost use Rattle.dv_store.specs.Faults.{IsFailure};
ghost use Rattle.dv_store.specs.Rest.{OnlyReads};
ghost use Rattle.dv_view.specs.Taken.{HasTaken};
ghost use Rattle.dv_shared.specs.Kept.{notes_in};
ghost use Rattle.dv_shared.specs.Reading.{IsReadFrom, read_refused, without_pass};
ghost use Rattle.dv_shared.specs.Writing.{refused_behind};

use crate::shared::Shared;
use dv_member::{Session, gather};
use dv_model::{Command, List, NoMemory};
use dv_naming::{Keeping, Tally};
use dv_plans::StoreFault;
use dv_responses::{Met, Responses};
use dv_shelf::{Clock, Shelf};
use std::sync::ledger::Book;

// A session counts a failure of the disk.
fn count_failure<K: Keeping, L: Tally, M: Tally>(
    s: &mut Session<K, L, M>,
    refusals: &mut Book<M>,
    came: &Result<List<u32>, StoreFault>,
)
    ensures session { s.new ≡ read_refused came.now s.old }
    ensures total { refusals.new.total ≡ refused_behind refusals.old.total came.now }
{
    if let Err(StoreFault::Disk(_)) = came {
        s.count_refusal(refusals);
    }
}

impl<S: Shelf, C: Clock, K: Keeping, L: Tally, M: Tally> Shared<S, C, K, L, M> {
    /// A session sees all that was published, through as many generations as there are, and has
    /// caught up. After `NoMemory`, which is the only error, it is as before but for what it knows
    /// of the words.
    pub fn catch_up(&mut self, s: &mut Session<K, L, M>) -> Result<(), NoMemory>
        requires fresh { s.old.spent ≡ false }
        ensures begins { IsPrefix (notes_of s.old) (notes_of s.new) }
        ensures ok { OnOk result (HasCaughtUp self.old.kept.feed s.old s.new) }
        ensures err { OnErr result (IsAsBefore s.old s.new) }
        ensures same { self.new ≡ self.old }
    {
        let journal = &mut self.journal;
        s.catch_up(&mut journal.feed)
    }

    /// A session is made to know what was published in its generation. What it has seen begins all
    /// that was published. Takes no memory.
    pub fn face(&mut self, s: &mut Session<K, L, M>)
        requires { s.old.spent ≡ false }
        ensures begins { IsPrefix (notes_of s.new) (notes_in self.old.kept) }
        ensures as_before { IsAsBefore s.old s.new }
        ensures same { self.new ≡ self.old }
    {
        let journal = &mut self.journal;
        s.face(&mut journal.feed)
    }

    /// Two sessions see all that was published, so that both have seen the same. After `NoMemory`,
    /// which is the only error, both are as before but for what they know of the words.
    pub fn gather(
        &mut self,
        a: &mut Session<K, L, M>,
        b: &mut Session<K, L, M>,
    ) -> Result<(), NoMemory>
        requires fresh { (a.old.spent ≡ false) × (b.old.spent ≡ false) }
        ensures begins { IsPrefix (notes_of a.old) (notes_of a.new)
            × IsPrefix (notes_of b.old) (notes_of b.new) }
        ensures ok { OnOk result (HasCaughtUp self.old.kept.feed a.old a.new
            × HasCaughtUp self.old.kept.feed b.old b.new) }
        ensures err { OnErr result (IsAsBefore a.old a.new × IsAsBefore b.old b.new) }
        ensures same { self.new ≡ self.old }
    {
        let journal = &mut self.journal;
        gather(&mut journal.feed, a, b)
    }

    /// A session sees all that was published, and the answer to its command is finished there: its
    /// data lines were taken before, these are the UIDs of the damaged messages, and it met this.
    /// That is a turn. After `NoMemory`, which is the only error, the session is as before but for
    /// what it knows of the words, and some lines may have been added.
    pub fn finish<R: Responses>(
        &mut self,
        s: &mut Session<K, L, M>,
        c: &Command,
        damaged: &[u32],
        met: Met,
        replies: &mut R,
    ) -> Result<(), NoMemory>
        requires fresh { s.old.spent ≡ false }
        requires shallow { IsShallow c.now }
        requires allowed { own_refusal s.old.follower.state c.now ≡ None }
        ensures answer { (mail : ℕ → Message) (met_mailbox : Mailbox) (start : R)
            → met ≡ met_of c.now s.old.follower.state.view met_mailbox
            → damaged.now ≡ damaged_uids mail c.now s.old.follower.state.view
            self.old.kept.store.chain.live.mailbox
            → replies.old ≡ R.with start (data_of mail c.now s.old.follower.state.view
            self.old.kept.store.chain.live.mailbox)
            → OnOk result (IsAnswered R.with start replies.new s.new.follower.state
            (answer mail s.old.follower.state c.now met_mailbox
            (length (notes_in self.old.kept)) self.old.kept.store.chain.live.mailbox
            (mark_of (log_of K.start (notes_in self.old.kept))
            (length (notes_in self.old.kept))))) }
        ensures begins { IsPrefix (notes_of s.old) (notes_of s.new) }
        ensures ok { OnOk result (HasTurned self.old.kept.feed s.old s.new) }
        ensures err { OnErr result (IsAsBefore s.old s.new) }
        ensures replies { OnErr result (HasTaken R.with replies.old replies.new) }
        ensures same { self.new ≡ self.old }
    {
        let journal = &mut self.journal;
        s.finish(
            &mut journal.feed,
            journal.store.live(),
            c,
            damaged,
            met,
            replies,
        )
    }

    /// Memory ran out behind a write of a session: it counts as having seen all that was published,
    /// but has kept none of it, and is only closed.
    pub fn spend(&mut self, s: &mut Session<K, L, M>)
        requires fresh { s.old.spent ≡ false }
        requires pass { self.old.kept.feed.pass ≡ true }
        ensures begins { IsPrefix (notes_of s.old) (notes_of s.new) }
        ensures spent { IsSpent self.old.kept.feed s.old s.new }
        ensures given { self.new ≡ without_pass self.old }
    {
        let journal = &mut self.journal;
        s.spend(&mut journal.feed, journal.count)
    }

    /// Reads the messages that a command of a session reads, at the end of the log, and adds the
    /// data lines of its answer (RFC 3501, sections 6.4.4 and 6.4.5). It gives the UIDs of those
    /// whose files are missing or damaged. A failure of the disk is counted by the session. After
    /// an error some of the lines may have been added.
    pub fn read_for<R: Responses>(
        &mut self,
        s: &mut Session<K, L, M>,
        c: &Command,
        lines: &mut R,
    ) -> Result<List<u32>, StoreFault>
        requires shallow { IsShallow c.now }
        requires reads { reads_mail c.now ≡ true }
        // The messages are those of the log.
        ensures found { K.honest → IfOk result (IsRead R.with lines.old lines.new
            (log_of K.start (notes_in self.old.kept)).mail c.now s.old.follower.state.view
            self.old.kept.store.chain.live.mailbox) }
        ensures lines { K.honest → OnErr result (HasTaken R.with lines.old lines.new) }
        // Nothing is changed, and what was owed still is.
        ensures stays { IsReadFrom self.old.kept self.new.kept }
        ensures looks { S.sees.tells → OnlyReads S.sees self.old.kept.store self.new.kept.store }
        // The session counts a failure of the disk, and so does the lock.
        ensures session { s.new ≡ read_refused result s.old }
        ensures refused { self.new.refused ≡ refused_behind self.old.refused result }
        // Want of memory and a fault of the disk are the only errors.
        ensures err { IfErr result IsFailure }
        ensures cause { HasStoreCause (S.sees.fault_count self.old.kept.store.shelf)
            (S.sees.fault_count self.new.kept.store.shelf) result }
    {
        let journal = &mut self.journal;
        journal.store.knows();
        let result = journal.store.read_for(c, s.view(), lines);
        count_failure(s, &mut self.refusals, &result);
        result
    }
}
