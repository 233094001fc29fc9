//! One line is served.

ghost use Rattle.std.specs.Prelude.{◌≡◌, ◌+◌, ◌^◌, ◌<◌, ◌≤◌, ℕ, List, IfOk, OnErr, OnOk, length, true, false};
ghost use Rattle.dv_model.specs.Journals.{Log};
ghost use Rattle.dv_model.specs.Sessions.{is_write};
ghost use Rattle.dv_shelf.specs.Crashes.{LeavesOnly};
ghost use Rattle.dv_writing.specs.Debts.{Debt};
ghost use Rattle.dv_answer.specs.Following.{Leads};
ghost use Rattle.dv_plans.specs.Faults.{HasStoreCause};
ghost use Rattle.dv_playing.specs.Playing.{Attempt};
ghost use Rattle.dv_store.specs.Rest.{IsAtRest};
ghost use Rattle.dv_serving.specs.Faults.{faults_of};
ghost use Rattle.dv_serial.specs.Following.{Follows, Origin, ReadsOn};
ghost use Rattle.dv_serving.specs.Commits.{LeavesOthers};
ghost use Rattle.dv_serial.specs.Places.{play_of};
ghost use Rattle.dv_serial.specs.Serves.{AreAbreast, Grows, IsAllowed, IsAsked, Serves, Wrote};
ghost use Rattle.dv_serving.specs.Faults.{HasFailures};
ghost use Rattle.dv_serving.specs.Readings.{TakesUpTo};
ghost use Rattle.dv_serving.specs.Taking.{Takes};
ghost use Rattle.dv_serial.specs.Writes.{Commits};

use crate::Serial;
use crate::seats::tell_all;
use dv_model::{Command, NoMemory};
use dv_plans::StoreFault;
use dv_responses::{Responses, is_write, meet};
use dv_search::Mail;
use dv_serving::take_fault;
use dv_shelf::{Clock, Shelf};
use dv_store::Receipt;
use dv_touched::Touched;

impl<S: Shelf, C: Clock> Serial<S, C> {
    /// Writes what the command of a session changes, where it changes anything, and gives the UIDs
    /// of which the sessions are to be told.
    fn commit(&mut self, at: usize, c: &Command) -> Result<Touched, StoreFault>
        requires allowed { IsAllowed self.old.seats at c.now }
        requires write { is_write c.now ≡ true }
        requires room { self.old.groups + 1 < 2 ^ 64 }
        // The group is one entry more, or nothing is written; what is owed then, and what a crash
        // leaves at any moment. Files that the command doesn't write stay. All is said at readings,
        // which are the clock's where it tells them.
        ensures commits { S.sees.tells → (origin : Origin) (attempts : List Attempt) →
            at + 1 < 2 ^ 32 → Follows S.sees C.sees origin
            (S.sees.fault_count self.old.store.shelf) attempts self.old →
            ReadsOn C.sees.tells origin attempts (λ from.
            Commits S.sees C.sees from.clock from.start attempts
            (at + 1, c.now) self.old result self.new
            × LeavesOthers (play_of from.clock from.start attempts) (at + 1, c.now) result
            (S.sees.files self.old.store.shelf) (S.sees.files self.new.store.shelf)) }
        ensures groups { self.new.groups ≤ self.old.groups + 1 }
        // The sessions stay, and are to be told of what changes; a fault of the disk has its cause.
        ensures seats { self.new.seats ≡ self.old.seats }
        ensures leads { IfOk result (Leads self.old.store.chain.live.mailbox
            self.new.store.chain.live.mailbox) }
        // It is counted exactly where it is written.
        ensures wrote { Wrote self.old self.new result }
        ensures readings { C.sees.tells → TakesUpTo 2 (C.sees.upcoming self.old.store.clock)
            (C.sees.upcoming self.new.store.clock) }
        ensures cause { HasStoreCause (S.sees.fault_count self.old.store.shelf)
            (S.sees.fault_count self.new.store.shelf) result }
    {
        // A UIDNEXT is known of a valid mailbox alone.
        let _before = self.store.live().next_uid();
        let receipt = self.store.commit_command(c, self.seats[at].view())?;
        let Receipt { group, touched, .. } = receipt;
        let _next = self.store.live().next_uid();
        if !group.records.is_empty() {
            self.groups += 1;
        }
        Ok(touched)
    }

    /// Serves a write that the session doesn't refuse, and says which UIDs it changed.
    fn serve_write<R: Responses>(
        &mut self,
        at: usize,
        c: &Command,
        replies: &mut R,
        changed: &mut Touched,
    ) -> Result<(), NoMemory>
        requires allowed { IsAllowed self.old.seats at c.now }
        requires write { is_write c.now ≡ true }
        requires abreast { AreAbreast self.old }
        requires room { self.old.groups + 1 < 2 ^ 64 }
        // It is one line more of the play, with its replies, and what a crash leaves.
        ensures serves { S.sees.tells → (origin : Origin) (attempts : List Attempt) →
            at + 1 < 2 ^ 32 → Follows S.sees C.sees origin
            (S.sees.fault_count self.old.store.shelf) attempts self.old →
            ReadsOn C.sees.tells origin attempts (λ from.
            Takes R.with replies.old replies.new result (λ told. Serves S.sees C.sees from
            (faults_of S.sees self.old.store.shelf self.new.store.shelf) attempts
            (at + 1, c.now) told self.old self.new)) }
        ensures groups { Grows self.old self.new changed.new result }
        // The sessions keep up with the mailbox; the disk's failure is told only where it failed.
        ensures seats { length self.new.seats ≡ length self.old.seats }
        ensures abreast { OnOk result (AreAbreast self.new) }
        ensures readings { C.sees.tells → TakesUpTo 2 (C.sees.upcoming self.old.store.clock)
            (C.sees.upcoming self.new.store.clock) }
        ensures cause { Takes R.with replies.old replies.new result (λ told.
            HasFailures (S.sees.fault_count self.old.store.shelf)
            (S.sees.fault_count self.new.store.shelf) told) }
    {
        let met = meet(self.alloc, c, self.seats[at].view(), self.store.live())?;
        match self.commit(at, c) {
            Ok(touched) => {
                tell_all(self.seats.as_mut_slice(), &touched)?;
                *changed = touched;
                let none = Mail::new(self.alloc);
                self.answer(at, c, &none, met, replies)
            }
            Err(fault) => take_fault(fault, replies),
        }
    }

    /// Answers a command of the session of this number by the session rules, at the end of the log:
    /// refused by one line, answered by the disk's failure, or done; the replies are taken as they
    /// are made. What it wrote is one group, of which all sessions are told, and `changed` becomes
    /// the UIDs that it changed. `NoMemory` is the only error; it ends the run: where it comes
    /// behind a write, the group is counted.
    pub fn serve<R: Responses>(
        &mut self,
        number: u32,
        c: &Command,
        replies: &mut R,
        changed: &mut Touched,
    ) -> Result<(), NoMemory>
        requires asked { IsAsked self.old.seats number c.now }
        requires abreast { AreAbreast self.old }
        requires room { self.old.groups + 1 < 2 ^ 64 }
        // It is one line more of the play, with its replies; the disk's failure tells the count
        // behind the line, which rose. A crash at any moment leaves the log behind the lines
        // before, or behind this one too.
        ensures serves { S.sees.tells → (origin : Origin) (attempts : List Attempt) →
            Follows S.sees C.sees origin
            (S.sees.fault_count self.old.store.shelf) attempts self.old →
            ReadsOn C.sees.tells origin attempts (λ from.
            Takes R.with replies.old replies.new result (λ told. Serves S.sees C.sees from
            (faults_of S.sees self.old.store.shelf self.new.store.shelf) attempts
            (number, c.now) told self.old self.new)) }
        // The mailbox changes exactly where a group is counted.
        ensures groups { Grows self.old self.new changed.new result }
        // There are as many sessions, which keep up with the mailbox.
        ensures seats { length self.new.seats ≡ length self.old.seats }
        ensures abreast { OnOk result (AreAbreast self.new) }
        ensures readings { C.sees.tells → TakesUpTo 2 (C.sees.upcoming self.old.store.clock)
            (C.sees.upcoming self.new.store.clock) }
        // The disk's failure is told only where it failed.
        ensures later { S.sees.fault_count self.old.store.shelf ≤ S.sees.fault_count
            self.new.store.shelf }
        ensures cause { S.sees.tells → (log : Log) (debt : Debt) →
            IsAtRest S.sees log debt self.old.store →
            Takes R.with replies.old replies.new result (λ told.
            HasFailures (S.sees.fault_count self.old.store.shelf)
            (S.sees.fault_count self.new.store.shelf) told) }
    {
        let at = number as usize - 1;
        if let Some(refusal) = self.seats[at].refuse(c) {
            return replies.take(refusal);
        }
        if is_write(c) {
            self.serve_write(at, c, replies, changed)
        } else {
            self.serve_read(at, c, replies)
        }
    }
}
