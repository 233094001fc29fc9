//! References are added and taken away.

ghost use Rattle.std.specs.Prelude.{◌≡◌, ◌+◌, ◌-◌, ◌<◌, None, ℕ};
ghost use Rattle.dv_logfile.specs.Settling.{StaysSettled};
ghost use Rattle.dv_chain.specs.Rest.{Owed};
ghost use Rattle.dv_plans.specs.Begins.{count_of, turns};
ghost use Rattle.dv_plans.specs.Counts.{CountsReads};
ghost use Rattle.dv_maps.specs.Groups.{count_records as records_of};
ghost use Rattle.dv_maps.specs.Texts.{Messages};
ghost use Rattle.dv_mdbox.specs.Answers.{ChangesCount, FindsRoom, HasStorageCause, IsReferenced, OnRefused, TakesUpTo};
ghost use Rattle.dv_mdbox.specs.Looks as looks;
ghost use Rattle.dv_mdbox.specs.States.{IsAtRest};
ghost use Rattle.dv_mdbox.specs.Writes.{CountsQuietly, WritesGroup};

use crate::looking::reference_of;
use crate::writing::{is_full, is_valid, turn_time};
use crate::{Storage, StorageFault};
use dv_filing::Files;
use dv_map_groups::count_records;
use dv_maps::{counts_are, places_are, records_are_written};
use dv_shelf::{Clock, Shelf};

/// The bytes of the group that gives an id another count.
const COUNT_SIZE: u32 = 48;

impl<S: Shelf, C: Clock> Storage<S, C> {
    /// Gives an id another count.
    fn put_count(&mut self, id: u32, count: u16) -> Result<(), StorageFault>
        // Whether there is room, and what becomes of the map, over any shelf.
        ensures room { FindsRoom self.old.chain 48 result }
        ensures refused { OnRefused result (self.new ≡ self.old) }
        ensures value { WritesGroup (records_of id count) self.old self.new result }
        // What the folder gives, where the id has references; from rest to rest.
        ensures gives { S.sees.tells → (messages : Messages) (debt : Owed) (old : ℕ)
            (change : ℕ → ℕ) → IsReferenced self.old.chain.live.mailbox id (λ n. n ≡ old) →
            change old ≡ count → IsAtRest S.sees messages debt self.old →
            CountsQuietly S.sees messages debt id change self.old self.new result }
        ensures settled { S.sees.tells → StaysSettled S.sees self.old.shelf self.new.shelf }
        // No message file is read, and what is known of the end of the last one stays.
        ensures mail_reads { CountsReads 0 (S.sees.mail_reads self.old.shelf)
            (S.sees.mail_reads self.new.shelf) }
        ensures tail { self.new.tail ≡ self.old.tail }
        // The clock is read where the log is rotated; a fault of the disk has its cause.
        ensures clock { C.sees.tells → TakesUpTo (count_of (turns self.old.owed self.old.chain))
            (C.sees.upcoming self.old.clock) (C.sees.upcoming self.new.clock) }
        ensures cause { HasStorageCause (S.sees.fault_count self.old.shelf)
            (S.sees.fault_count self.new.shelf) result }
    {
        is_valid(&self.chain.live);
        records_are_written();
        counts_are();
        places_are();
        if is_full(&self.chain, COUNT_SIZE) {
            return Err(StorageFault::TooLong {
                bytes: u64::from(COUNT_SIZE),
            });
        }
        let time = turn_time(&mut self.clock, &self.chain, &self.owed);
        let records = count_records(self.alloc, id, count)?;
        let tail = self.tail;
        self.write(records, Files::Nothing, time, tail)
    }

    /// Adds a reference to an id. `None` comes exactly where the id isn't there or has no
    /// reference, `Full` exactly where it has 65,535, and `TooLong` exactly where the log is full
    /// and no file can follow it. `Disk` comes only where the shelf's count of faults rose: where
    /// it doesn't, the answer is one of the others, whatever was owed. After an error the ids are
    /// as before.
    pub fn copy(&mut self, id: u32) -> Result<(), StorageFault>
        // Which answer it is, and what becomes of the map, over any shelf.
        ensures answers { ChangesCount self.old.chain.live.mailbox self.old.chain id 65535 result }
        // An id that has no reference is left alone, and so is all behind a limit.
        ensures none { looks.reference_of self.old.chain.live.mailbox id ≡ None →
            self.new ≡ self.old }
        ensures refused { OnRefused result (self.new ≡ self.old) }
        ensures value { (count : ℕ) →
            IsReferenced self.old.chain.live.mailbox id (λ n. n ≡ count) →
            WritesGroup (records_of id (count + 1)) self.old self.new result }
        // The id has one reference more, whole; from rest to rest.
        ensures gives { S.sees.tells → (messages : Messages) (debt : Owed) →
            IsReferenced self.old.chain.live.mailbox id (λ n. n < 65535) →
            IsAtRest S.sees messages debt self.old →
            CountsQuietly S.sees messages debt id (λ n. n + 1) self.old self.new result }
        ensures settled { S.sees.tells → StaysSettled S.sees self.old.shelf self.new.shelf }
        // No message file is read, and what is known of the end of the last one stays.
        ensures mail_reads { CountsReads 0 (S.sees.mail_reads self.old.shelf)
            (S.sees.mail_reads self.new.shelf) }
        ensures tail { self.new.tail ≡ self.old.tail }
        // The clock is read where the log is rotated; a fault of the disk has its cause.
        ensures clock { C.sees.tells → TakesUpTo (count_of (turns self.old.owed self.old.chain))
            (C.sees.upcoming self.old.clock) (C.sees.upcoming self.new.clock) }
        ensures cause { HasStorageCause (S.sees.fault_count self.old.shelf)
            (S.sees.fault_count self.new.shelf) result }
    {
        let Some(reference) = reference_of(&self.chain.live, id) else {
            return Err(StorageFault::None);
        };
        if reference.count == u16::MAX {
            return Err(StorageFault::Full);
        }
        self.put_count(id, reference.count + 1)
    }

    /// Takes a reference of an id away. `None` comes exactly where the id isn't there or has no
    /// reference, and `TooLong` exactly where the log is full and no file can follow it. `Disk`
    /// comes only where the shelf's count of faults rose: where it doesn't, the answer is one of
    /// the others, whatever was owed. After an error the ids are as before. A message without a
    /// reference stays until a purge.
    pub fn drop_one(&mut self, id: u32) -> Result<(), StorageFault>
        // Which answer it is, and what becomes of the map, over any shelf.
        ensures answers { ChangesCount self.old.chain.live.mailbox self.old.chain id 65536 result }
        // An id that has no reference is left alone, and so is all behind a limit.
        ensures none { looks.reference_of self.old.chain.live.mailbox id ≡ None →
            self.new ≡ self.old }
        ensures refused { OnRefused result (self.new ≡ self.old) }
        ensures value { (count : ℕ) →
            IsReferenced self.old.chain.live.mailbox id (λ n. n ≡ count) →
            WritesGroup (records_of id (count - 1)) self.old self.new result }
        // The id has one reference less, whole; from rest to rest.
        ensures gives { S.sees.tells → (messages : Messages) (debt : Owed) →
            IsReferenced self.old.chain.live.mailbox id (λ n. n < 65536) →
            IsAtRest S.sees messages debt self.old →
            CountsQuietly S.sees messages debt id (λ n. n - 1) self.old self.new result }
        ensures settled { S.sees.tells → StaysSettled S.sees self.old.shelf self.new.shelf }
        // No message file is read, and what is known of the end of the last one stays.
        ensures mail_reads { CountsReads 0 (S.sees.mail_reads self.old.shelf)
            (S.sees.mail_reads self.new.shelf) }
        ensures tail { self.new.tail ≡ self.old.tail }
        // The clock is read where the log is rotated; a fault of the disk has its cause.
        ensures clock { C.sees.tells → TakesUpTo (count_of (turns self.old.owed self.old.chain))
            (C.sees.upcoming self.old.clock) (C.sees.upcoming self.new.clock) }
        ensures cause { HasStorageCause (S.sees.fault_count self.old.shelf)
            (S.sees.fault_count self.new.shelf) result }
    {
        let Some(reference) = reference_of(&self.chain.live, id) else {
            return Err(StorageFault::None);
        };
        self.put_count(id, reference.count - 1)
    }
}
