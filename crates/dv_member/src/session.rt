ghost use Rattle.std.specs.Prelude.{◌≡◌, [], ◌∷◌, false, IfOk};
ghost use Rattle.dv_model.specs.Journals.{mark_of};
ghost use Rattle.dv_answer.specs.Refusing.{own_refusal};
ghost use Rattle.dv_member.specs.Calls.{new_member};
ghost use Rattle.dv_member.specs.Members.{IsSession, IsStart, log_seen, notes_of};

use crate::mirror::Mirror;
use crate::reader::Reader;
use dv_apply::Live;
use dv_generations::Generations;
use dv_model::{Command, List, Mark, NoMemory, Reply};
use dv_naming::{Keeping, Tally};
use dv_view::View;
use std::alloc::Global;
use std::marker::{Model, PhantomData};
use std::sync::ledger::Share;

/// A session of a keeper. Contracts see the notes that it has seen, as the first of those that it
/// knows; the mailbox behind them; what it was told; and its counts.
#[derive(Drop)]
pub struct Session<K: Keeping, L: Tally, M: Tally> {
    pub(crate) alloc: Global,
    number: u32,
    pub(crate) reader: Reader,
    pub(crate) mirror: Mirror,
    pub(crate) caught_up: bool,
    pub(crate) knows_seal: bool,
    pub(crate) spent: bool,
    pub(crate) turns: u64,
    pub(crate) holds: u64,
    pub(crate) writes: Share<L>,
    pub(crate) refusals: Share<M>,
    of: PhantomData<K>,
}

impl<K: Keeping, L: Tally, M: Tally> Model for Session<K, L, M> {
    ghost use Rattle.std.specs.Prelude.{◌≡◌};
    ghost use Rattle.dv_member.specs.Inside.{IsMember};
    ghost use Rattle.dv_member.specs.Members as members;
    ghost use Rattle.dv_member.specs.Members.{as_front};

    ghost Value = { members.Member };

    ghost view = { λ s. record {
      number = s.number;
      front = as_front s.reader.pass;
      tables = s.reader.leaf;
      seen = s.mirror.seen;
      follower = s.mirror.session;
      live = s.mirror.live.mailbox;
      caught_up = s.caught_up;
      knows_seal = s.knows_seal;
      spent = s.spent;
      turns = s.turns;
      holds = s.holds;
      wrote = s.writes.amount;
      refused = s.refusals.amount;
    } };

    ghost invariant = { λ s.
        IsMember K.roll K.start K.count s.reader s.mirror s.spent
        × (s.writes.parts ≡ 1)
        × (s.refusals.parts ≡ 1) };
}

impl<K: Keeping, L: Tally, M: Tally> Session<K, L, M> {
    /// A session of this number, as an author of entries, over a first generation of which nothing
    /// is published: it has seen nothing, and hasn't selected the mailbox. The mailbox and the mark
    /// are those at which the log starts, and the shares are one part of each ledger.
    pub fn new(
        alloc: Global,
        number: u32,
        feed: &mut Generations<K>,
        live: Live,
        mark: Mark,
        writes: Share<L>,
        refusals: Share<M>,
    ) -> Result<Session<K, L, M>, NoMemory>
        requires start { IsStart K.start }
        requires feed { feed.old.parts ≡ [] ∷ [] }
        requires live { (live.mailbox ≡ K.start.start) × (mark ≡ K.start.start_mark) }
        requires writes { (writes.parts ≡ 1) × (writes.amount ≡ 0) }
        requires refusals { (refusals.parts ≡ 1) × (refusals.amount ≡ 0) }
        ensures new { IfOk result (λ s. s ≡ new_member number s.front s.tables K.start.start) }
        ensures nothing { IfOk result (λ s. notes_of s ≡ []) }
        ensures feed { feed.new ≡ feed.old }
    {
        let mut leaf = feed.leaf()?;
        let pass = feed.pass_of(1, &mut leaf)?;
        let reader = Reader {
            generation: 1,
            pass,
            leaf,
            words: List::new(alloc),
        };
        let mirror = Mirror {
            seen: 0,
            live,
            mark,
            session: dv_answer::Session::new(alloc),
            told_mark: mark,
        };
        Ok(Session {
            alloc,
            number,
            reader,
            mirror,
            caught_up: false,
            knows_seal: false,
            spent: false,
            turns: 0,
            holds: 0,
            writes,
            refusals,
            of: PhantomData,
        })
    }

    /// Its number, as an author of entries. What is so of each session is known then.
    pub fn number(&self) -> u32
        ensures is { result ≡ self.now.number }
        ensures session { IsSession K.start K.count self.now }
    {
        self.number
    }

    /// Whether it knows its table to be sealed.
    pub fn knows_seal(&self) -> bool
        ensures { result ≡ self.now.knows_seal }
    {
        self.knows_seal
    }

    /// What it was shown.
    pub fn view(&self) -> &View
        ensures { result.now ≡ self.now.follower.state.view }
    {
        self.mirror.session.view()
    }

    /// The mailbox behind what it has seen.
    pub fn live(&self) -> &Live
        requires fresh { self.now.spent ≡ false }
        ensures { result.now.mailbox ≡ self.now.live }
    {
        &self.mirror.live
    }

    /// The place behind the entries that it was told.
    pub fn position(&self) -> Mark
        requires fresh { self.now.spent ≡ false }
        ensures { result ≡ mark_of (log_seen K.start self.now) self.now.follower.state.told }
    {
        self.mirror.told_mark
    }

    /// The one line of a command that the session refuses by itself. Takes no memory.
    pub fn refuse(&self, c: &Command) -> Option<Reply>
        requires fresh { self.now.spent ≡ false }
        ensures { result ≡ own_refusal self.now.follower.state c.now }
    {
        self.mirror.session.refuse(c)
    }
}
