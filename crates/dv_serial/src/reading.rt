//! Commands that write nothing.

ghost use Rattle.std.specs.Prelude.{◌≡◌, ◌+◌, ◌^◌, ◌<◌, ◌≤◌, ℕ, Err, List as Listed, IfErr, IfOk, None, OnErr, OnOk, false, length, set, true};
ghost use Rattle.dv_model.specs.declared.types.Mailbox.{Mailbox};
ghost use Rattle.dv_model.specs.Journals.{Log, Mail as Message};
ghost use Rattle.dv_model.specs.Sessions.{answer, is_write, reads_mail};
ghost use Rattle.dv_shelf.specs.Crashes.{LeavesOnly};
ghost use Rattle.dv_writing.specs.Debts.{Debt};
ghost use Rattle.dv_view.specs.Taken.{HasTaken};
ghost use Rattle.dv_responses.specs.Damaged.{IsRead};
ghost use Rattle.dv_responses.specs.Depth.{IsShallow};
ghost use Rattle.dv_responses.specs.Met.{met_of};
ghost use Rattle.dv_responses.specs.Supplied.{AreSupplied};
ghost use Rattle.dv_answer.specs.Answers.{IsAnswered};
ghost use Rattle.dv_answer.specs.Following.{IsAbreast};
ghost use Rattle.dv_answer.specs.Refusing.{own_refusal};
ghost use Rattle.dv_plans.specs.Faults.{HasStoreCause};
ghost use Rattle.dv_plans.specs.declared.fault.StoreFault.TheVariants as fault;
ghost use Rattle.dv_store.specs.Rest.{IsAtRest, OnlyReads};
ghost use Rattle.dv_playing.specs.Playing.{Attempt};
ghost use Rattle.dv_serving.specs.Faults.{faults_of};
ghost use Rattle.dv_serial.specs.Following.{Follows, Origin};
ghost use Rattle.dv_store.specs.Faults.{IsFailure};
ghost use Rattle.dv_serial.specs.Serves.{AreAbreast, HasNoGroup, IsAllowed, OnlyLooksAt, Serves, seat_at, with_seat};
ghost use Rattle.dv_serving.specs.Faults.{HasFailures};
ghost use Rattle.dv_serving.specs.Taking.{Takes};

use crate::Serial;
use dv_model::{Command, List, NoMemory};
use dv_plans::StoreFault;
use dv_responses::{Met, Responses, add_data_lines, meet, reads_mail};
use dv_search::Mail;
use dv_serving::take_fault;
use dv_shelf::{Clock, Shelf};

impl<S: Shelf, C> Serial<S, C> {
    /// Adds the data lines of a session's command, and gives the UIDs of the messages that it reads
    /// and whose files are missing or damaged. The folder is read only where the command reads
    /// messages. Where the disk fails no line stays; after want of memory some may.
    fn add_data<R: Responses>(
        &mut self,
        at: usize,
        c: &Command,
        replies: &mut R,
    ) -> Result<List<u32>, StoreFault>
        requires at { at < length self.old.seats }
        requires shallow { IsShallow c.now }
        // At rest they are those of the log's messages.
        ensures found { S.sees.tells → (log : Log) (debt : Debt) →
            IsAtRest S.sees log debt self.old.store →
            IfOk result (IsRead R.with replies.old replies.new log.mail c.now
            (seat_at self.old.seats at).state.view self.old.store.chain.live.mailbox) }
        ensures failed { S.sees.tells → (log : Log) (debt : Debt) →
            IsAtRest S.sees log debt self.old.store →
            (faults : ℕ) → result ≡ Err (fault.Disk faults) → replies.new ≡ replies.old }
        // What was taken before is kept.
        ensures replies { S.sees.tells → (log : Log) (debt : Debt) →
            IsAtRest S.sees log debt self.old.store →
            OnErr result (HasTaken R.with replies.old replies.new) }
        // Nothing is changed.
        ensures looks { OnlyLooksAt self.old self.new }
        ensures reads { S.sees.tells → OnlyReads S.sees
            self.old.store self.new.store }
        // An error is want of memory or the disk's failure, which has its cause.
        ensures err { IfErr result IsFailure }
        ensures touches { (faults : ℕ) → result ≡ Err (fault.Disk faults) →
            reads_mail c.now ≡ true }
        ensures cause { HasStoreCause (S.sees.fault_count self.old.store.shelf)
            (S.sees.fault_count self.new.store.shelf) result }
    {
        if !reads_mail(c) {
            let none = Mail::new(self.alloc);
            let view = self.seats[at].view();
            add_data_lines(self.alloc, c, view, self.store.live(), &none, replies)?;
            return Ok(List::new(self.alloc));
        }
        let taken = replies.length();
        match self.store.read_for(c, self.seats[at].view(), replies) {
            Ok(damaged) => Ok(damaged),
            Err(fault) => {
                replies.cut(self.alloc, taken);
                Err(fault)
            }
        }
    }

    /// Answers the command of a session that isn't refused, at the end of the log.
    pub(crate) fn answer<R: Responses>(
        &mut self,
        at: usize,
        c: &Command,
        facts: &Mail,
        met: Met,
        replies: &mut R,
    ) -> Result<(), NoMemory>
        requires at { at < length self.old.seats }
        requires shallow { IsShallow c.now }
        requires allowed { own_refusal (seat_at self.old.seats at).state c.now ≡ None }
        requires abreast { IsAbreast self.old.store.chain.live.mailbox
            (seat_at self.old.seats at) }
        ensures answer { (mail : ℕ → Message) (met_mailbox : Mailbox) →
            met ≡ met_of c.now (seat_at self.old.seats at).state.view met_mailbox →
            AreSupplied mail c.now (seat_at self.old.seats at).state.view
            self.old.store.chain.live.mailbox facts.now →
            OnOk result (IsAnswered R.with replies.old replies.new
            (seat_at self.new.seats at).state
            (answer mail (seat_at self.old.seats at).state c.now met_mailbox
            self.old.groups self.old.store.chain.live.mailbox self.old.store.mark)) }
        // The other sessions stay, and all else.
        ensures abreast { IsAbreast self.new.store.chain.live.mailbox (seat_at self.new.seats at) }
        ensures seats { with_seat at (seat_at self.new.seats at) self.old ≡ self.new }
        ensures err { OnErr result (self.new ≡ self.old) }
    {
        let (mark, groups) = (self.store.mark(), self.groups);
        self.seats[at].answer(c, self.store.live(), facts, met, mark, groups, replies)
    }

    /// Finishes the answer to a session's command whose data lines were taken, at the end of the
    /// log.
    fn finish<R: Responses>(
        &mut self,
        at: usize,
        c: &Command,
        damaged: &[u32],
        met: Met,
        replies: &mut R,
    ) -> Result<(), NoMemory>
        requires at { at < length self.old.seats }
        requires shallow { IsShallow c.now }
        requires allowed { own_refusal (seat_at self.old.seats at).state c.now ≡ None }
        requires abreast { IsAbreast self.old.store.chain.live.mailbox
            (seat_at self.old.seats at) }
        ensures answer { (mail : ℕ → Message) (met_mailbox : Mailbox) (start : R) →
            met ≡ met_of c.now (seat_at self.old.seats at).state.view met_mailbox →
            IsRead R.with start replies.old mail c.now (seat_at self.old.seats at).state.view
            self.old.store.chain.live.mailbox damaged.now →
            OnOk result (IsAnswered R.with start replies.new
            (seat_at self.new.seats at).state
            (answer mail (seat_at self.old.seats at).state c.now met_mailbox
            self.old.groups self.old.store.chain.live.mailbox self.old.store.mark)) }
        // The other sessions stay, and all else.
        ensures abreast { IsAbreast self.new.store.chain.live.mailbox (seat_at self.new.seats at) }
        ensures seats { with_seat at (seat_at self.new.seats at) self.old ≡ self.new }
        ensures err { OnErr result (self.new ≡ self.old) }
    {
        let (mark, groups) = (self.store.mark(), self.groups);
        self.seats[at].finish(c, self.store.live(), damaged, met, mark, groups, replies)
    }
}

impl<S: Shelf, C: Clock> Serial<S, C> {
    /// Serves a command that writes nothing and that the session doesn't refuse.
    pub(crate) fn serve_read<R: Responses>(
        &mut self,
        at: usize,
        c: &Command,
        replies: &mut R,
    ) -> Result<(), NoMemory>
        requires allowed { IsAllowed self.old.seats at c.now }
        requires read { is_write c.now ≡ false }
        requires abreast { AreAbreast self.old }
        // It is one line more of the play, with its replies; the folder is only read.
        ensures serves { S.sees.tells → (origin : Origin) (attempts : Listed Attempt) →
            at + 1 < 2 ^ 32 → Follows S.sees C.sees origin
            (S.sees.fault_count self.old.store.shelf) attempts self.old →
            Takes R.with replies.old replies.new result (λ told.
            Serves S.sees C.sees origin
            (faults_of S.sees self.old.store.shelf self.new.store.shelf) attempts
            (at + 1, c.now) told self.old self.new) }
        ensures groups { HasNoGroup self.old self.new }
        // There are as many sessions, which keep up with the mailbox, and the clock isn't read.
        ensures stays { (length self.new.seats ≡ length self.old.seats)
            × (self.new.store.clock ≡ self.old.store.clock) }
        ensures abreast { OnOk result (AreAbreast self.new) }
        // The disk's failure is told only where it failed.
        ensures later { S.sees.fault_count self.old.store.shelf ≤ S.sees.fault_count
            self.new.store.shelf }
        ensures cause { S.sees.tells → (log : Log) (debt : Debt) →
            IsAtRest S.sees log debt self.old.store →
            Takes R.with replies.old replies.new result (λ told.
            HasFailures (S.sees.fault_count self.old.store.shelf)
            (S.sees.fault_count self.new.store.shelf) told) }
    {
        match self.add_data(at, c, replies) {
            Ok(damaged) => {
                let met = meet(self.alloc, c, self.seats[at].view(), self.store.live())?;
                self.finish(at, c, damaged.as_slice(), met, replies)
            }
            Err(fault) => take_fault(fault, replies),
        }
    }
}
