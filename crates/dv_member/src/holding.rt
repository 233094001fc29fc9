ghost use Rattle.std.specs.Prelude.{◌≡◌, ◌+◌, ℕ, None, OnErr, OnOk, Some, false, length, true};
ghost use mathlib.Core.List.{IsPrefix};
ghost use Rattle.dv_model.specs.declared.types.Mailbox.{Mailbox};
ghost use Rattle.dv_model.specs.Journals.{Mail as Message, at, mark_of};
ghost use Rattle.dv_model.specs.Sessions.{answer, data_of};
ghost use Rattle.dv_notes.specs.Logs.{log_of};
ghost use Rattle.dv_responses.specs.Damaged.{damaged_uids};
ghost use Rattle.dv_responses.specs.Depth.{IsShallow};
ghost use Rattle.dv_responses.specs.Met.{met_of};
ghost use Rattle.dv_answer.specs.Answers.{IsAnswered};
ghost use Rattle.dv_answer.specs.Refusing.{own_refusal};
ghost use Rattle.dv_generations.specs.Feeds.{journal};
ghost use Rattle.dv_view.specs.Taken.{HasTaken};
ghost use Rattle.dv_member.specs.Calls.{HasCaughtUp, HasTurned, IsAsBefore, IsSpent};
ghost use Rattle.dv_member.specs.Members.{notes_of};

use crate::batch::show;
use crate::counting::end_turn;
use crate::finishing::finish_ready;
use crate::reaching::{Reached, arrive, reach};
use crate::session::Session;
use dv_apply::Live;
use dv_generations::Generations;
use dv_model::{Command, NoMemory};
use dv_naming::{Keeping, Tally};
use dv_responses::{Met, Responses};
use std::sync::ledger::Share;

impl<K: Keeping, L: Tally, M: Tally> Session<K, L, M> {
    /// Sees all that was published, through as many generations as there are, and has caught up.
    /// After `NoMemory`, which is the only error, it is as before but for what it knows of the
    /// words.
    pub fn catch_up(&mut self, feed: &mut Generations<K>) -> Result<(), NoMemory>
        requires fresh { self.old.spent ≡ false }
        ensures begins { IsPrefix (notes_of self.old) (notes_of self.new) }
        ensures ok { OnOk result (HasCaughtUp feed.old self.old self.new) }
        ensures err { OnErr result (IsAsBefore self.old self.new) }
        ensures feed { feed.new ≡ feed.old }
    {
        let reached = reach(self.alloc, feed, &mut self.reader, &mut self.mirror)?;
        let Reached {
            ready,
            pass,
            generation,
        } = reached;
        arrive(self.alloc, &mut self.reader, generation, pass);
        show(&mut self.mirror, ready);
        self.knows_seal = false;
        self.caught_up = true;
        Ok(())
    }

    /// Sees all that was published, and finishes the answer to a command that isn't refused and
    /// whose data lines were taken before. The mailbox is that at the end of the log, the damaged
    /// UIDs are those of the messages that the command reads, and it met this. That is a turn.
    /// After `NoMemory`, which is the only error, the session is as before but for what it knows of
    /// the words, and some lines may have been added.
    pub fn finish<R: Responses>(
        &mut self,
        feed: &mut Generations<K>,
        live: &Live,
        c: &Command,
        damaged: &[u32],
        met: Met,
        replies: &mut R,
    ) -> Result<(), NoMemory>
        requires fresh { self.old.spent ≡ false }
        requires live { at (log_of K.start (journal feed.old)) (length (journal feed.old))
            ≡ Some live.now.mailbox }
        requires shallow { IsShallow c.now }
        requires allowed { own_refusal self.old.follower.state c.now ≡ None }
        ensures answer { (mail : ℕ → Message) (met_mailbox : Mailbox) (start : R)
            → met ≡ met_of c.now self.old.follower.state.view met_mailbox
            → damaged.now ≡ damaged_uids mail c.now self.old.follower.state.view live.now.mailbox
            → replies.old ≡ R.with start
            (data_of mail c.now self.old.follower.state.view live.now.mailbox)
            → OnOk result (IsAnswered R.with start replies.new self.new.follower.state
            (answer mail self.old.follower.state c.now met_mailbox (length (journal feed.old))
            live.now.mailbox (mark_of (log_of K.start (journal feed.old))
            (length (journal feed.old))))) }
        ensures begins { IsPrefix (notes_of self.old) (notes_of self.new) }
        ensures ok { OnOk result (HasTurned feed.old self.old self.new) }
        ensures err { OnErr result (IsAsBefore self.old self.new) }
        ensures replies { OnErr result (HasTaken R.with replies.old replies.new) }
        ensures feed { feed.new ≡ feed.old }
    {
        let reached = reach(self.alloc, feed, &mut self.reader, &mut self.mirror)?;
        let Reached {
            ready,
            pass,
            generation,
        } = reached;
        finish_ready(&mut self.mirror, ready, live, c, damaged, met, replies)?;
        arrive(self.alloc, &mut self.reader, generation, pass);
        self.knows_seal = false;
        end_turn(&mut self.caught_up, &mut self.turns);
        Ok(())
    }

    /// Makes it know all that was published in its generation, of which it sees nothing more. What it
    /// has seen then begins all that was published. Takes no memory.
    pub fn face(&mut self, feed: &mut Generations<K>)
        requires { self.old.spent ≡ false }
        ensures begins { IsPrefix (notes_of self.new) (journal feed.old) }
        ensures same { IsAsBefore self.old self.new }
        ensures feed { feed.new ≡ feed.old }
    {
        let r = &mut self.reader;
        feed.show(r.generation, &mut r.pass, &mut r.leaf);
    }

    /// Memory ran out behind a write of its own, at the end of the log, which has so many entries.
    /// It then counts as having seen them all, but has kept none of them: it is only closed.
    pub fn spend(&mut self, feed: &mut Generations<K>, entries: u64)
        requires fresh { self.old.spent ≡ false }
        requires pass { feed.old.pass ≡ true }
        requires entries { entries ≡ length (journal feed.old) }
        ensures begins { IsPrefix (notes_of self.old) (notes_of self.new) }
        ensures spent { IsSpent feed.old self.old self.new }
        ensures feed { feed.new ≡ record feed.old { pass = false } }
    {
        let r = &mut self.reader;
        feed.show(r.generation, &mut r.pass, &mut r.leaf);
        r.pass = feed.newest(&mut r.leaf);
        r.generation = feed.count();
        self.mirror.seen = entries;
        self.spent = true;
    }

    /// Hands its shares of the ledgers in. What it has seen begins all that was published. Takes no
    /// memory.
    pub fn settle(self, feed: &mut Generations<K>, writes: &mut Share<L>, refusals: &mut Share<M>)
        ensures begins { IsPrefix (notes_of self) (journal feed.old) }
        ensures writes { (writes.new.parts ≡ writes.old.parts + 1)
            × (writes.new.amount ≡ writes.old.amount + self.wrote) }
        ensures refusals { (refusals.new.parts ≡ refusals.old.parts + 1)
            × (refusals.new.amount ≡ refusals.old.amount + self.refused) }
        ensures feed { feed.new ≡ feed.old }
    {
        let Session {
            mut reader,
            writes: wrote,
            refusals: refused,
            ..
        } = self;
        feed.show(reader.generation, &mut reader.pass, &mut reader.leaf);
        writes.merge(wrote);
        refusals.merge(refused);
    }
}

/// Two sessions see all that was published, so that both have seen the same. After `NoMemory`,
/// which is the only error, both are as before but for what they know of the words.
pub fn gather<K: Keeping, L: Tally, M: Tally>(
    feed: &mut Generations<K>,
    a: &mut Session<K, L, M>,
    b: &mut Session<K, L, M>,
) -> Result<(), NoMemory>
    requires fresh { (a.old.spent ≡ false) × (b.old.spent ≡ false) }
    ensures begins { IsPrefix (notes_of a.old) (notes_of a.new)
        × IsPrefix (notes_of b.old) (notes_of b.new) }
    ensures ok { OnOk result
        (HasCaughtUp feed.old a.old a.new × HasCaughtUp feed.old b.old b.new) }
    ensures err { OnErr result (IsAsBefore a.old a.new × IsAsBefore b.old b.new) }
    ensures feed { feed.new ≡ feed.old }
{
    let reached = reach(a.alloc, feed, &mut a.reader, &mut a.mirror)?;
    b.catch_up(feed)?;
    let Reached {
        ready,
        pass,
        generation,
    } = reached;
    arrive(a.alloc, &mut a.reader, generation, pass);
    show(&mut a.mirror, ready);
    a.knows_seal = false;
    a.caught_up = true;
    Ok(())
}
