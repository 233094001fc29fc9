ghost use Rattle.std.specs.Prelude.{◌≡◌, ◌↔◌, ◌⊎◌, ◌∷◌, ◌++◌, [], ℕ, ◌+◌, ◌≤◌, Contains, IfOk, None, Ok, OnErr, OnOk, false, length, true};
ghost use Rattle.dv_model.specs.declared.types.Mailbox.{Mailbox};
ghost use Rattle.dv_model.specs.declared.types.Command.TheVariants as command;
ghost use Rattle.dv_model.specs.declared.types.Step.TheVariants.{Full};
ghost use Rattle.dv_model.specs.Journals.{Mail as Message};
ghost use Rattle.dv_model.specs.Sessions.{answer, data_of, told_of};
ghost use Rattle.dv_model.specs.Views.{empty_view, moved, said};
ghost use Rattle.dv_responses.specs.Damaged.{damaged_uids};
ghost use Rattle.dv_responses.specs.Depth.{IsShallow};
ghost use Rattle.dv_responses.specs.Met.{met_of};
ghost use Rattle.dv_responses.specs.Supplied.{AreSupplied};
ghost use Rattle.dv_answer.specs.Answers.{IsAnswered};
ghost use Rattle.dv_answer.specs.Following.{IsAbreast, Leads, Tracks, fresh_of, new_follower, untold};
ghost use Rattle.dv_answer.specs.Refusing.{own_refusal};
ghost use Rattle.dv_view.specs.Taken.{HasTaken};

use crate::fresh::{fresh_of, retain_untold};
use crate::numbers::missing_number;
use dv_model::{Command, Fresh, List, Mark, NoMemory, Reply, Step};
use dv_responses::{
    Met, Responses, add_data_lines, add_select_lines, damaged_among, data_room, ending, gone_uid,
    is_select, step_of, uids_looked_at,
};
use dv_search::Mail;
use dv_touched::Touched;
use dv_view::{Live, Replies, View};
use std::alloc::Global;
use std::marker::Model;
use std::mem;

/// A session: whether it has selected the mailbox, what it was shown, how many entries of the log
/// it was told, and the UIDs that were touched since. Contracts see its state beside these UIDs.
#[derive(Drop)]
pub struct Session {
    alloc: Global,
    selected: bool,
    view: View,
    told: u64,
    touched: Touched,
}

impl Model for Session {
    ghost use Rattle.dv_answer.specs.Following.{Follower};

    ghost Value = { Follower };

    ghost view = { λ s. record {
      state = record { selected = s.selected; view = s.view; told = s.told };
      touched = s.touched;
    } };
}

impl Session {
    /// A session that hasn't selected the mailbox. Takes no memory.
    pub fn new(alloc: Global) -> Session
        ensures { result ≡ new_follower }
    {
        Session {
            alloc,
            selected: false,
            view: View::empty(alloc),
            told: 0,
            touched: Touched::empty(alloc),
        }
    }

    /// Whether it has selected the mailbox.
    pub fn is_selected(&self) -> bool
        ensures { result ≡ self.now.state.selected }
    {
        self.selected
    }

    /// What it was shown.
    pub fn view(&self) -> &View
        ensures { result.now ≡ self.now.state.view }
    {
        &self.view
    }

    /// How many entries of the log it was told.
    pub fn told(&self) -> u64
        ensures { result ≡ self.now.state.told }
    {
        self.told
    }

    /// Takes notice that these UIDs were touched. One that hasn't selected needs no notice. After
    /// `NoMemory`, which is the only error, the session is as before.
    pub fn touch(&mut self, touched: &Touched) -> Result<(), NoMemory>
        ensures state { self.new.state ≡ self.old.state }
        ensures touched { OnOk result (self.old.state.selected ≡ true → (uid : ℕ) →
            Contains self.new.touched uid
            ↔ (Contains self.old.touched uid ⊎ Contains touched.now uid)) }
        ensures unselected { self.old.state.selected ≡ false →
            (result ≡ Ok tt) × (self.new ≡ self.old) }
        // It keeps up with the mailbox that records made of the one before.
        ensures abreast { OnOk result ((old new : Mailbox) → IsAbreast old self.old
            → Leads old new touched.now → IsAbreast new self.new) }
        ensures err { OnErr result (self.new ≡ self.old) }
    {
        if !self.selected {
            return Ok(());
        }
        self.touched = self.touched.with(self.alloc, touched)?;
        Ok(())
    }

    /// All UIDs of which it is to be told where these are touched too: none unless it has selected
    /// the mailbox. `NoMemory` is the only error.
    pub fn touched_with(&self, touched: &Touched) -> Result<Touched, NoMemory>
        // With them it keeps up with the mailbox that records made of the one before.
        ensures { IfOk result (λ all. (old new : Mailbox) → IsAbreast old self.now
            → Leads old new touched.now → IsAbreast new (record self.now { touched = all })) }
    {
        if !self.selected {
            return Ok(Touched::empty(self.alloc));
        }
        self.touched.with(self.alloc, touched)
    }

    /// Puts these UIDs in the place of those of which it is to be told, and gives the others back.
    /// Takes no memory.
    pub fn replace_touched(&mut self, touched: Touched) -> Touched
        ensures others { result ≡ self.old.touched }
        ensures is { self.new ≡ record self.old { touched = touched } }
    {
        mem::replace(&mut self.touched, touched)
    }

    /// What the mailbox has now of the UIDs of which it is to be told. `NoMemory` is the only
    /// error.
    pub fn fresh(&self, live: &Live) -> Result<List<Fresh>, NoMemory>
        ensures { IfOk result (λ fresh. fresh ≡ fresh_of live.now.mailbox self.now.touched) }
    {
        fresh_of(self.alloc, live, self.touched.uids())
    }

    /// The one line of a command that this session refuses by itself: exactly where it hasn't
    /// selected the mailbox and the command isn't SELECT, or where its view lacks a message number
    /// that the command names, by the first such number. Takes no memory.
    pub fn refuse(&self, c: &Command) -> Option<Reply>
        ensures { result ≡ own_refusal self.now.state c.now }
    {
        if !self.selected && !is_select(c) {
            return Some(Reply::NotSelected);
        }
        match missing_number(c, &self.view) {
            Some(n) => Some(Reply::NoMessage(n)),
            None => None,
        }
    }

    // About how many lines the answer to a command has that looks at these UIDs.
    fn lines_of(&self, c: &Command, live: &Live, looked_at: &[u32]) -> usize
        ensures { result ≤ length live.now.mailbox.rows + length self.now.touched
            + length looked_at.now }
    {
        let told = self.touched.uids().len();
        match c {
            Command::Select => live.count() as usize,
            Command::Fetch { .. } => told.saturating_add(looked_at.len()),
            _ => told,
        }
    }

    /// Shows the whole mailbox anew, behind so many entries of the log, and adds the lines of that
    /// (RFC 3501, section 6.3.1) and then this last one. After `NoMemory`, which is the only error,
    /// the session is as before, and some lines may have been added. The time is in proportion to
    /// the rows.
    pub fn select<R: Replies>(
        &mut self,
        live: &Live,
        told: u64,
        last: Reply,
        replies: &mut R,
    ) -> Result<(), NoMemory>
        ensures state { OnOk result (self.new.state ≡ record {
          selected = true;
          view = moved Full empty_view live.now.mailbox;
          told = told;
        }) }
        ensures said { OnOk result (replies.new ≡ R.with replies.old
            (told_of command.Select live.now.mailbox empty_view
            (moved Full empty_view live.now.mailbox) ++ last ∷ [])) }
        ensures touched { OnOk result (self.new.touched ≡ []) }
        ensures abreast { OnOk result (IsAbreast live.now.mailbox self.new) }
        ensures err { OnErr result (self.new ≡ self.old) }
        // What was taken before is kept.
        ensures replies { OnErr result (HasTaken R.with replies.old replies.new) }
    {
        let view = View::of(self.alloc, live)?;
        add_select_lines(self.alloc, live, &view, replies)?;
        replies.take(last)?;
        self.touched.clear();
        self.view = view;
        self.selected = true;
        self.told = told;
        Ok(())
    }

    /// Moves the view on to the mailbox, behind so many entries of the log, and adds what is told
    /// of the move, and then this last line. After `NoMemory`, which is the only error, the session
    /// is as before, and some lines may have been added. The time is that of the touched UIDs and
    /// of the lines; only where rows leave are all gone through.
    pub fn move_on<R: Replies>(
        &mut self,
        live: &Live,
        step: Step,
        told: u64,
        last: Reply,
        replies: &mut R,
    ) -> Result<(), NoMemory>
        requires { Tracks live.now.mailbox self.old.state.view self.old.touched }
        ensures state { OnOk result (self.new.state ≡ record {
          selected = true;
          view = moved step self.old.state.view live.now.mailbox;
          told = told;
        }) }
        ensures said { OnOk result (replies.new ≡ R.with replies.old (said live.now.mailbox
            self.old.state.view (moved step self.old.state.view live.now.mailbox) ++ last ∷ [])) }
        // Rows that have left and aren't told stay touched, and no others.
        ensures touched { OnOk result (self.new.touched
            ≡ untold live.now.mailbox self.new.state.view self.old.touched) }
        ensures abreast { OnOk result (IsAbreast live.now.mailbox self.new) }
        ensures err { OnErr result (self.new ≡ self.old) }
        // What was taken before is kept.
        ensures replies { OnErr result (HasTaken R.with replies.old replies.new) }
    {
        let fresh = fresh_of(self.alloc, live, self.touched.uids())?;
        let next_uid = live.next_uid();
        self.view
            .add_said_by(next_uid, &fresh, live.names(), step, replies)?;
        replies.take(last)?;
        self.view.follow(next_uid, fresh, step)?;
        let mut uids = mem::replace(&mut self.touched, Touched::empty(self.alloc)).into_uids();
        retain_untold(&mut uids, &self.view, live);
        self.touched = Touched::of(uids);
        self.selected = true;
        self.told = told;
        Ok(())
    }

    /// Answers a command that isn't refused, behind so many entries of the log and at this place of
    /// it: adds the data lines, what is told of the move to the mailbox, and the last line (RFC
    /// 3501, sections 6 and 7). The facts are those of the messages that the command reads. After
    /// `NoMemory`, which is the only error, the session is as before, and some lines may have been
    /// added. The time is that of the touched UIDs, of the rows that a set names, and of the lines;
    /// SELECT and SEARCH go through all rows, and so does a move behind which rows have left.
    pub fn answer<R: Responses>(
        &mut self,
        c: &Command,
        live: &Live,
        facts: &Mail,
        met: Met,
        mark: Mark,
        told: u64,
        replies: &mut R,
    ) -> Result<(), NoMemory>
        requires shallow { IsShallow c.now }
        requires allowed { own_refusal self.old.state c.now ≡ None }
        requires abreast { IsAbreast live.now.mailbox self.old }
        // So it is for any mailbox in which the command met this, and for all messages that have
        // these facts, where those without facts aren't there.
        ensures answer { (mail : ℕ → Message) (met_mailbox : Mailbox)
            → met ≡ met_of c.now self.old.state.view met_mailbox
            → AreSupplied mail c.now self.old.state.view live.now.mailbox facts.now
            → OnOk result (IsAnswered R.with replies.old replies.new self.new.state
            (answer mail self.old.state c.now met_mailbox told live.now.mailbox mark)) }
        ensures abreast { OnOk result (IsAbreast live.now.mailbox self.new) }
        ensures err { OnErr result (self.new ≡ self.old) }
        // What was taken before is kept, where these are the facts of messages.
        ensures replies { (mail : ℕ → Message)
            → AreSupplied mail c.now self.old.state.view live.now.mailbox facts.now
            → OnErr result (HasTaken R.with replies.old replies.new) }
    {
        let looked_at = uids_looked_at(self.alloc, c, &self.view)?;
        let uids = looked_at.as_slice();
        let damaged = damaged_among(self.alloc, c, uids, live, facts)?;
        let lines = self.lines_of(c, live, uids);
        replies.expect(lines, data_room(uids, facts))?;
        add_data_lines(self.alloc, c, &self.view, live, facts, replies)?;
        self.finish(c, live, damaged.as_slice(), met, mark, told, replies)
    }

    /// Finishes the answer to a command that isn't refused, behind so many entries of the log and
    /// at this place of it, where its data lines were taken before: adds what is told of the move
    /// to the mailbox, and the last line (RFC 3501, section 7). The damaged UIDs are those of the
    /// messages that the command reads. After `NoMemory`, which is the only error, the session is
    /// as before, and some lines may have been added. The time is that of `answer` without the data
    /// lines.
    pub fn finish<R: Responses>(
        &mut self,
        c: &Command,
        live: &Live,
        damaged: &[u32],
        met: Met,
        mark: Mark,
        told: u64,
        replies: &mut R,
    ) -> Result<(), NoMemory>
        requires shallow { IsShallow c.now }
        requires allowed { own_refusal self.old.state c.now ≡ None }
        requires abreast { IsAbreast live.now.mailbox self.old }
        // So it is for any mailbox in which the command met this, for all messages of which these
        // are damaged, and from wherever the data lines were taken.
        ensures answer { (mail : ℕ → Message) (met_mailbox : Mailbox) (start : R)
            → met ≡ met_of c.now self.old.state.view met_mailbox
            → damaged.now ≡ damaged_uids mail c.now self.old.state.view live.now.mailbox
            → replies.old ≡ R.with start (data_of mail c.now self.old.state.view live.now.mailbox)
            → OnOk result (IsAnswered R.with start replies.new self.new.state
            (answer mail self.old.state c.now met_mailbox told live.now.mailbox mark)) }
        ensures told { OnOk result (self.new.state.told ≡ told) }
        ensures abreast { OnOk result (IsAbreast live.now.mailbox self.new) }
        ensures err { OnErr result (self.new ≡ self.old) }
        // What was taken before is kept.
        ensures replies { OnErr result (HasTaken R.with replies.old replies.new) }
    {
        let gone = gone_uid(self.alloc, c, &self.view, live)?;
        let last = ending(c, gone, damaged, live, met, mark);
        if is_select(c) {
            self.select(live, told, last, replies)
        } else {
            self.move_on(live, step_of(c), told, last, replies)
        }
    }
}
