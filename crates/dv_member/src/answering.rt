ghost use Rattle.std.specs.Prelude.{◌≡◌, ◌↔◌, ◌++◌, ◌∷◌, [], ◌≤◌, ◌&&◌, not, ℕ, Err, IfOk, List as Listed, None, OnErr, OnOk, Some, false, length, map, true};
ghost use Rattle.std.specs.List.{list_any};
ghost use Rattle.dv_model.specs.declared.types.Command.TheVariants as command;
ghost use Rattle.dv_model.specs.declared.types.Step.TheVariants.{Full};
ghost use Rattle.dv_model.specs.Fresh.{AreFresh, patched};
ghost use Rattle.dv_model.specs.Journals.{Mail as Message};
ghost use Rattle.dv_model.specs.Searches.{needs_mail};
ghost use Rattle.dv_model.specs.Sessions.{data_of, is_write, reads_mail, reads_message, told_of};
ghost use Rattle.dv_model.specs.Sets.{missing_end};
ghost use Rattle.dv_model.specs.Transcripts.{IsTurn};
ghost use Rattle.dv_model.specs.Views.{empty_view, moved, said, shown};
ghost use Rattle.dv_answer.specs.Refusing.{own_refusal};
ghost use Rattle.dv_responses.specs.Depth.{IsShallow};
ghost use Rattle.dv_search.specs.Nesting.{levels_of, most_levels};
ghost use Rattle.dv_sets.specs.declared.end.SetEnd.TheVariants as set_end;
ghost use Rattle.dv_view.specs.Taken.{HasTaken};
ghost use Rattle.dv_member.specs.Calls.{IsToldAll, turn_of, turned};
ghost use Rattle.dv_member.specs.Members.{log_seen};

use crate::counting::end_turn;
use crate::session::Session;
use dv_model::{Command, Fresh, Item, Key, List, NoMemory, Reply, Span, Step};
use dv_naming::{Keeping, Tally};
use dv_responses::{Responses, add_fetch_lines, meet, search_line};
use dv_search::Mail;
use dv_sets::{SetEnd, missing_end};
use dv_view::Replies;

impl<K: Keeping, L: Tally, M: Tally> Session<K, L, M> {
    /// Adds the lines of a FETCH that reads no messages, over what was shown (RFC 3501, section
    /// 6.4.5). `NoMessage` is the answer exactly where a message number of the set, which isn't by
    /// UIDs, isn't there: the first such number. After `NoMemory` some lines may have been added.
    pub fn fetch_rows<R: Responses>(
        &self,
        by_uid: bool,
        set: &List<Span>,
        items: &List<Item>,
        replies: &mut R,
    ) -> Result<(), SetEnd>
        requires fresh { self.now.spent ≡ false }
        requires items { list_any reads_message items.now ≡ false }
        ensures lines { (mail : ℕ → Message) → OnOk result (replies.new
            ≡ R.with replies.old (data_of mail (command.Fetch by_uid set.now items.now)
            self.now.follower.state.view self.now.live)) }
        ensures missing { (n : ℕ) → (result ≡ Err (set_end.NoMessage n)) ↔ ((by_uid ≡ false)
            × (missing_end set.now self.now.follower.state.view ≡ Some n)) }
        ensures replies { OnErr result (HasTaken R.with replies.old replies.new) }
    {
        let view = self.mirror.session.view();
        if !by_uid {
            if let Some(n) = missing_end(set.as_slice(), view.rows().len() as u32) {
                return Err(SetEnd::NoMessage(n));
            }
        }
        let none = Mail::new(self.alloc);
        let live = &self.mirror.live;
        add_fetch_lines(self.alloc, by_uid, set, items, view, live, &none, replies)?;
        Ok(())
    }

    /// Adds the line of a SEARCH that reads no messages, over what was shown (RFC 3501, section
    /// 6.4.4). `NoMemory` is the only error.
    pub fn search<R: Responses>(
        &self,
        by_uid: bool,
        key: &Key,
        replies: &mut R,
    ) -> Result<(), NoMemory>
        requires fresh { self.now.spent ≡ false }
        requires key { needs_mail key.now ≡ false }
        requires shallow { levels_of key.now ≤ most_levels }
        ensures line { (mail : ℕ → Message) → OnOk result (replies.new
            ≡ R.with replies.old (data_of mail (command.Search by_uid key.now)
            self.now.follower.state.view self.now.live)) }
        ensures replies { OnErr result (HasTaken R.with replies.old replies.new) }
    {
        let none = Mail::new(self.alloc);
        let view = self.mirror.session.view();
        let line = search_line(self.alloc, by_uid, key, view, &self.mirror.live, &none)?;
        replies.take(line)
    }

    /// Moves on by a step to all that was seen, and adds what is told of that, and then this last
    /// line. After `NoMemory`, which is the only error, the session is as before, and some lines
    /// may have been added. The time is that of the touched UIDs and of the lines.
    pub fn tell<R: Replies>(
        &mut self,
        step: Step,
        last: Reply,
        replies: &mut R,
    ) -> Result<(), NoMemory>
        requires fresh { self.old.spent ≡ false }
        requires caught { self.old.caught_up ≡ true }
        requires selected { self.old.follower.state.selected ≡ true }
        ensures ok { OnOk result (self.new ≡ turned self.old (record {
          state = record {
            selected = true;
            view = moved step self.old.follower.state.view self.old.live;
            told = self.old.seen;
          };
          touched = self.new.follower.touched;
        })) }
        ensures said { OnOk result (replies.new ≡ R.with replies.old (said self.old.live
            self.old.follower.state.view
            (moved step self.old.follower.state.view self.old.live) ++ last ∷ [])) }
        ensures err { OnErr result (self.new ≡ self.old) }
        ensures replies { OnErr result (HasTaken R.with replies.old replies.new) }
    {
        let m = &mut self.mirror;
        m.session.move_on(&m.live, step, m.seen, last, replies)?;
        m.told_mark = m.mark;
        end_turn(&mut self.caught_up, &mut self.turns);
        Ok(())
    }

    /// Shows the whole mailbox that was seen anew, and adds the lines of that (RFC 3501, section
    /// 6.3.1) and then this last one. After `NoMemory`, which is the only error, the session is as
    /// before, and some lines may have been added.
    pub fn select<R: Replies>(&mut self, last: Reply, replies: &mut R) -> Result<(), NoMemory>
        requires fresh { self.old.spent ≡ false }
        requires caught { self.old.caught_up ≡ true }
        ensures ok { OnOk result (self.new ≡ turned self.old (record {
          state = record {
            selected = true;
            view = moved Full empty_view self.old.live;
            told = self.old.seen;
          };
          touched = [];
        })) }
        ensures said { OnOk result (replies.new ≡ R.with replies.old (told_of command.Select
            self.old.live empty_view (moved Full empty_view self.old.live) ++ last ∷ [])) }
        ensures err { OnErr result (self.new ≡ self.old) }
        ensures replies { OnErr result (HasTaken R.with replies.old replies.new) }
    {
        let m = &mut self.mirror;
        m.session.select(&m.live, m.seen, last, replies)?;
        m.told_mark = m.mark;
        end_turn(&mut self.caught_up, &mut self.turns);
        Ok(())
    }

    /// Answers a command that writes nothing, reads no messages and isn't refused: the data lines,
    /// what is told of the move to all that was seen, and the last line (RFC 3501, sections 6 and
    /// 7). That is a turn over the log that it has seen. After `NoMemory`, which is the only error,
    /// the session is as before, and some lines may have been added.
    pub fn answer<R: Responses>(&mut self, c: &Command, replies: &mut R) -> Result<(), NoMemory>
        requires fresh { self.old.spent ≡ false }
        requires caught { self.old.caught_up ≡ true }
        requires read { (is_write c.now ≡ false) × (reads_mail c.now ≡ false) }
        requires shallow { IsShallow c.now }
        requires allowed { own_refusal self.old.follower.state c.now ≡ None }
        ensures turn { IsTurn (log_seen K.start self.old) K.count self.old.number
            (turn_of (log_seen K.start self.old) self.old c.now) }
        ensures lines { OnOk result (replies.new ≡ R.with replies.old
            (turn_of (log_seen K.start self.old) self.old c.now).replies) }
        ensures ok { OnOk result (self.new ≡ turned self.old (record self.new.follower {
          state = (turn_of (log_seen K.start self.old) self.old c.now).after;
        })) }
        ensures err { OnErr result (self.new ≡ self.old) }
        ensures replies { OnErr result (HasTaken R.with replies.old replies.new) }
    {
        let m = &mut self.mirror;
        let met = meet(self.alloc, c, m.session.view(), &m.live)?;
        let none = Mail::new(self.alloc);
        m.session
            .answer(c, &m.live, &none, met, m.mark, m.seen, replies)?;
        m.told_mark = m.mark;
        end_turn(&mut self.caught_up, &mut self.turns);
        Ok(())
    }

    /// What the mailbox that was seen has of the UIDs of which the session is to be told: changes
    /// that its view can follow, to just the rows that are shown. `NoMemory` is the only error.
    pub fn fresh_of(&self) -> Result<List<Fresh>, NoMemory>
        requires fresh { self.now.spent ≡ false }
        requires selected { self.now.follower.state.selected ≡ true }
        ensures fresh { IfOk result (AreFresh self.now.follower.state.view self.now.live.next_uid
            (length self.now.live.keywords)) }
        ensures rows { IfOk result (λ fresh. patched self.now.follower.state.view.rows fresh
            ≡ map shown self.now.live.rows) }
    {
        self.mirror.session.fresh(&self.mirror.live)
    }
}
