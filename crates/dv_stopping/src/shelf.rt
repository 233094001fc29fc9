ghost use Rattle.std.specs.Prelude.{◌≡◌, ◌+◌, ◌^◌, ◌<◌, length, Some, None, IfOk, OnOk, OnErr, IsErr, IsErrOf, MatchBool};
ghost use Rattle.dv_shelf.specs.Causes.{HasCause, HasCauseOf, CountsOnce};
ghost use Rattle.dv_shelf.specs.Folders.{counted, mail_reads_of};

use crate::Stopping;
use crate::stopping::count_read;
use dv_model::{Bytes, List};
use dv_shelf::{Failed, Name, Shelf, ShelfFault};
use std::alloc::Global;

impl<S: Shelf> Shelf for Stopping<S> {
    ghost use Rattle.dv_shelf.specs.Folders.{Folder, with_file, contents, patched, Lists, ChangesOnly, TornFile, IsEither, IsNew};
    ghost use Rattle.dv_shelf.specs.Crashes.{Follows, FollowsNone, Elapses};
    ghost use Rattle.dv_stopping.specs.Stops.{leavings, leavings_since, moment_of, sees_stopping};
    ghost use Rattle.dv_stopping.specs.Turns.{turn_of, Turned, WritesAt, Replaces, Syncs, Looks};
    ghost use Rattle.dv_stopping.specs.Laws.{files_left, left_now, left_last};

    ghost sees = { sees_stopping S.sees };

    ghost leaves_files = { λ s told. files_left S.sees S.leaves_files s.stop s.inner told };

    ghost counts_now = { λ s t c le left. left_now S.sees S.counts_now s.stop s.inner t c le left };

    ghost only_now = { λ s c told left. left_last S.sees S.only_now s.stop s.inner c told left };

    fn read(&mut self, alloc: Global, name: Name) -> Result<Option<Bytes>, ShelfFault>
        // What the trait says.
        ensures found { S.sees.tells →
            IfOk result (λ bytes. bytes ≡ S.sees.files self.old.inner name) }
        ensures files { S.sees.tells → S.sees.files self.new.inner ≡ S.sees.files self.old.inner }
        ensures crash { S.sees.tells →
            FollowsNone (leavings S.sees self.old) (leavings S.sees self.new) }
        ensures time { S.sees.tells → Elapses (moment_of S.sees self.old)
            (moment_of S.sees self.new) (leavings_since S.sees self.old)
            (leavings_since S.sees self.new) (leavings S.sees self.new) }
        ensures reads { self.new.mail_reads ≡ counted self.old.mail_reads (mail_reads_of name) }
        ensures cause { HasCauseOf ShelfFault.Failed self.old.faults self.new.faults result }
        ensures once { IsErrOf result ShelfFault.Failed →
            self.new.faults ≡ counted self.old.faults 1 }

        // What becomes of it.
        ensures turn { Turned (turn_of self.old) S.sees
            (Looks S.sees (λ files bytes. bytes ≡ files name)
            (λ reads. counted reads (mail_reads_of name)))
            (IsErrOf result ShelfFault.Failed) self.old self.new result }
    {
        self.mail_reads = count_read(self.mail_reads, name);
        self.pass_read(alloc, name)
    }

    fn has_mailbox(&mut self, alloc: Global) -> Result<bool, ShelfFault>
        // What the trait says.
        ensures found { S.sees.tells → IfOk result (λ has. MatchBool has
            (IsNew (S.sees.files self.old.inner) → ⊥) (IsNew (S.sees.files self.old.inner))) }
        ensures files { S.sees.tells → S.sees.files self.new.inner ≡ S.sees.files self.old.inner }
        ensures crash { S.sees.tells →
            FollowsNone (leavings S.sees self.old) (leavings S.sees self.new) }
        ensures time { S.sees.tells → Elapses (moment_of S.sees self.old)
            (moment_of S.sees self.new) (leavings_since S.sees self.old)
            (leavings_since S.sees self.new) (leavings S.sees self.new) }
        ensures reads { self.new.mail_reads ≡ self.old.mail_reads }
        ensures cause { HasCauseOf ShelfFault.Failed self.old.faults self.new.faults result }
        ensures once { IsErrOf result ShelfFault.Failed →
            self.new.faults ≡ counted self.old.faults 1 }

        // What becomes of it.
        ensures turn { Turned (turn_of self.old) S.sees
            (Looks S.sees (λ files has. MatchBool has (IsNew files → ⊥) (IsNew files))
            (λ reads. reads))
            (IsErrOf result ShelfFault.Failed) self.old self.new result }
    {
        self.pass_has_mailbox(alloc)
    }

    fn list(&mut self, alloc: Global) -> Result<List<Name>, ShelfFault>
        // What the trait says.
        ensures found { S.sees.tells →
            IfOk result (λ names. Lists (S.sees.files self.old.inner) names) }
        ensures files { S.sees.tells → S.sees.files self.new.inner ≡ S.sees.files self.old.inner }
        ensures crash { S.sees.tells →
            FollowsNone (leavings S.sees self.old) (leavings S.sees self.new) }
        ensures time { S.sees.tells → Elapses (moment_of S.sees self.old)
            (moment_of S.sees self.new) (leavings_since S.sees self.old)
            (leavings_since S.sees self.new) (leavings S.sees self.new) }
        ensures reads { self.new.mail_reads ≡ self.old.mail_reads }
        ensures cause { HasCauseOf ShelfFault.Failed self.old.faults self.new.faults result }
        ensures once { IsErrOf result ShelfFault.Failed →
            self.new.faults ≡ counted self.old.faults 1 }

        // What becomes of it.
        ensures turn { Turned (turn_of self.old) S.sees
            (Looks S.sees (λ files names. Lists files names) (λ reads. reads))
            (IsErrOf result ShelfFault.Failed) self.old self.new result }
    {
        self.pass_list(alloc)
    }

    fn write_at(&mut self, name: Name, at: u32, bytes: &[u8]) -> Result<(), Failed>
        requires { at + length bytes.now < 2 ^ 32 }
        // What the trait says.
        ensures ok { S.sees.tells → OnOk result (S.sees.files self.new.inner
            ≡ with_file (S.sees.files self.old.inner) name
            (Some (patched (contents (S.sees.files self.old.inner) name) at bytes.now))) }
        ensures err { S.sees.tells → OnErr result
            (ChangesOnly name (TornFile at (length bytes.now))
            (S.sees.files self.old.inner) (S.sees.files self.new.inner)) }
        ensures crash { S.sees.tells → Follows (ChangesOnly name (TornFile at (length bytes.now)))
            (leavings S.sees self.old) (leavings S.sees self.new) }
        ensures time { S.sees.tells → Elapses (moment_of S.sees self.old)
            (moment_of S.sees self.new) (leavings_since S.sees self.old)
            (leavings_since S.sees self.new) (leavings S.sees self.new) }
        ensures reads { self.new.mail_reads ≡ self.old.mail_reads }
        ensures cause { HasCause self.old.faults self.new.faults result }
        ensures once { CountsOnce self.old.faults self.new.faults result }

        // What becomes of it.
        ensures turn { Turned (turn_of self.old) S.sees (WritesAt S.sees name at bytes.now)
            (IsErr result) self.old self.new result }
    {
        self.pass_write_at(name, at, bytes)
    }

    fn sync(&mut self, name: Name) -> Result<(), Failed>
        // What the trait says.
        ensures durable { S.sees.tells → OnOk result ((c : Folder) →
            leavings S.sees self.new c → c name ≡ S.sees.files self.new.inner name) }
        ensures files { S.sees.tells → S.sees.files self.new.inner ≡ S.sees.files self.old.inner }
        ensures crash { S.sees.tells →
            FollowsNone (leavings S.sees self.old) (leavings S.sees self.new) }
        ensures time { S.sees.tells → Elapses (moment_of S.sees self.old)
            (moment_of S.sees self.new) (leavings_since S.sees self.old)
            (leavings_since S.sees self.new) (leavings S.sees self.new) }
        ensures reads { self.new.mail_reads ≡ self.old.mail_reads }
        ensures cause { HasCause self.old.faults self.new.faults result }
        ensures once { CountsOnce self.old.faults self.new.faults result }

        // What becomes of it.
        ensures turn { Turned (turn_of self.old) S.sees (Syncs S.sees name)
            (IsErr result) self.old self.new result }
    {
        self.pass_sync(name)
    }

    fn replace(&mut self, name: Name, bytes: &[u8]) -> Result<(), Failed>
        // What the trait says.
        ensures ok { S.sees.tells → OnOk result (S.sees.files self.new.inner
            ≡ with_file (S.sees.files self.old.inner) name (Some bytes.now)) }
        ensures err { S.sees.tells → OnErr result (ChangesOnly name (IsEither (Some bytes.now))
            (S.sees.files self.old.inner) (S.sees.files self.new.inner)) }
        ensures durable { S.sees.tells → OnOk result ((c : Folder) →
            leavings S.sees self.new c → c name ≡ Some bytes.now) }
        ensures crash { S.sees.tells → Follows (ChangesOnly name (IsEither (Some bytes.now)))
            (leavings S.sees self.old) (leavings S.sees self.new) }
        ensures time { S.sees.tells → Elapses (moment_of S.sees self.old)
            (moment_of S.sees self.new) (leavings_since S.sees self.old)
            (leavings_since S.sees self.new) (leavings S.sees self.new) }
        ensures reads { self.new.mail_reads ≡ self.old.mail_reads }
        ensures cause { HasCause self.old.faults self.new.faults result }
        ensures once { CountsOnce self.old.faults self.new.faults result }

        // What becomes of it.
        ensures turn { Turned (turn_of self.old) S.sees (Replaces S.sees name (Some bytes.now))
            (IsErr result) self.old self.new result }
    {
        self.pass_replace(name, bytes)
    }

    fn remove(&mut self, name: Name) -> Result<(), Failed>
        // What the trait says.
        ensures ok { S.sees.tells → OnOk result (S.sees.files self.new.inner
            ≡ with_file (S.sees.files self.old.inner) name None) }
        ensures err { S.sees.tells → OnErr result (ChangesOnly name (IsEither None)
            (S.sees.files self.old.inner) (S.sees.files self.new.inner)) }
        ensures durable { S.sees.tells → OnOk result ((c : Folder) →
            leavings S.sees self.new c → c name ≡ None) }
        ensures crash { S.sees.tells → Follows (ChangesOnly name (IsEither None))
            (leavings S.sees self.old) (leavings S.sees self.new) }
        ensures time { S.sees.tells → Elapses (moment_of S.sees self.old)
            (moment_of S.sees self.new) (leavings_since S.sees self.old)
            (leavings_since S.sees self.new) (leavings S.sees self.new) }
        ensures reads { self.new.mail_reads ≡ self.old.mail_reads }
        ensures cause { HasCause self.old.faults self.new.faults result }
        ensures once { CountsOnce self.old.faults self.new.faults result }

        // What becomes of it.
        ensures turn { Turned (turn_of self.old) S.sees (Replaces S.sees name None)
            (IsErr result) self.old self.new result }
    {
        self.pass_remove(name)
    }

    fn faults(&self) -> u64 {
        self.faults
    }
}
