//! The write of a command.

ghost use Rattle.std.specs.Prelude.{◌≡◌, ◌-◌, IfErr, IfOk, length, take, true, ℕ};
ghost use Rattle.dv_model.specs.Journals.{Log};
ghost use Rattle.dv_model.specs.Sessions.{IsCommand};
ghost use Rattle.dv_logfile.specs.Settling.{StaysSettled};
ghost use Rattle.dv_chain.specs.Openings.{OnlyLooks};
ghost use Rattle.dv_groups.specs.Changes.{changed_uids};
ghost use Rattle.dv_groups.specs.Groups.{HasFewKeywords};
ghost use Rattle.dv_writing.specs.Debts.{Debt, Fits, Stands};
ghost use Rattle.dv_writing.specs.Repairing.{IsOwing};
ghost use Rattle.dv_plans.specs.Befores.{ReadsFor};
ghost use Rattle.dv_plans.specs.Begins.{AtReading, readings_of, received_at, turns};
ghost use Rattle.dv_plans.specs.Faults.{HasStoreCause};
ghost use Rattle.dv_plans.specs.declared.fault.StoreFault.TheVariants as fault;
ghost use Rattle.dv_writing.specs.Steps.{AreSteps};
ghost use Rattle.dv_writing.specs.Ways.{HasTurned, held};
ghost use Rattle.dv_writing.specs.Writes.{CarriesOut, IsWriteOf, Write, WritesStore};
ghost use Rattle.dv_store.specs.Carried.{HasPlan, MovesMark, carried};
ghost use Rattle.dv_store.specs.Commits as commits;
ghost use Rattle.dv_store.specs.Commits.{Commits, CommitsQuietly, CountsMails, IsIdle, IsUnwritten, Rotates, TakesReadings, cache_behind, idle_receipt, write_at};
ghost use Rattle.dv_store.specs.Rest.{IsAtRest};

use crate::Store;
use crate::fault::disk;
use crate::receipt::Receipt;
use dv_apply::Live;
use dv_chain::Chain;
use dv_files::Turn;
use dv_lookups::CacheFile;
use dv_model::{Bytes, Command, Group, List, Mark};
use dv_plans::{Plan, StoreFault, make_ready};
use dv_responses::is_append;
use dv_shelf::{Clock, Shelf};
use dv_touched::Touched;
use dv_view::View;
use dv_writing::{Committed, carry_out};
use std::alloc::Global;

/// The UID of an appended message.
fn appended_uid(c: &Command, live: &Live) -> Option<u32>
    ensures { result ≡ commits.appended_uid c.now live.now.mailbox }
{
    if is_append(c) {
        Some(live.next_uid())
    } else {
        None
    }
}

/// A CHECK reads the cache file anew.
fn forget(c: &Command, cache: &mut CacheFile)
    ensures { cache.new ≡ cache_behind c.now cache.old }
{
    if let Command::Check = c {
        cache.forget();
    }
}

/// A group's text without the four zero bytes behind it. Takes no memory.
fn without_closing(text: Bytes) -> Bytes
    ensures { result ≡ take (length text - 4) text }
{
    let mut bytes = text.into_vec();
    bytes.truncate(bytes.len().saturating_sub(4));
    List::from_vec(bytes)
}

/// The receipt of a command that changes nothing. Takes no memory.
fn idle(alloc: Global, mark: Mark, uid: Option<u32>) -> Receipt
    ensures { result ≡ idle_receipt mark uid }
{
    Receipt {
        mark,
        uid,
        group: Group {
            records: List::new(alloc),
        },
        text: List::new(alloc),
        touched: Touched::empty(alloc),
        received: 0,
    }
}

/// Carries out a plan. Takes no memory.
fn write_plan<S: Shelf>(
    chain: &mut Chain,
    shelf: &mut S,
    owed: &mut Option<Turn>,
    at: &mut Mark,
    plan: Plan,
    uid: Option<u32>,
) -> Result<Receipt, StoreFault>
    requires owing { IsOwing chain.old owed.old }
    requires steps { AreSteps owed.old chain.old plan.text plan.steps }
    // The receipt, the mailbox and what is owed; what an error keeps.
    ensures receipt { IfOk result (HasPlan plan uid) }
    ensures value { CarriesOut owed.old owed.new plan.text plan.steps chain.old chain.new
        (carried result) }
    ensures mark { MovesMark at.old at.new result }
    // What the folder gives and the files, at any moment and afterwards; from rest to rest.
    ensures gives { S.sees.tells → (log : Log) (debt : Debt) (write : Write) → Fits owed.old debt →
        Stands S.sees log debt chain.old shelf.old →
        IsWriteOf log write owed.old chain.old (S.sees.files shelf.old) plan.text plan.steps →
        WritesStore S.sees log debt write plan.text plan.steps
        (held shelf.old chain.old owed.old) (held shelf.new chain.new owed.new) result }
    ensures settled { S.sees.tells → StaysSettled S.sees shelf.old shelf.new }
    ensures turned { S.sees.tells →
        HasTurned plan.steps.turn chain.old chain.new (S.sees.files shelf.new) }
    // No message file is read; an error is a failure of the disk, and has its cause.
    ensures err { IfErr result (λ e. e ≡ fault.Disk (S.sees.fault_count shelf.new)) }
    ensures mail_reads { S.sees.mail_reads shelf.new ≡ S.sees.mail_reads shelf.old }
    ensures cause { HasStoreCause (S.sees.fault_count shelf.old) (S.sees.fault_count shelf.new)
        result }
{
    let Plan {
        group,
        text,
        steps,
        received,
    } = plan;
    match carry_out(chain, shelf, owed, &text, steps) {
        Ok(committed) => {
            let Committed { mark, touched } = committed;
            *at = mark;
            Ok(Receipt {
                mark,
                uid,
                group,
                text: without_closing(text),
                touched,
                received,
            })
        }
        Err(_) => Err(disk(shelf)),
    }
}

impl<S: Shelf, C: Clock> Store<S, C> {
    /// Writes what a command changes, from the view of its session, as one group or not at all: the
    /// message file of an APPEND, or the files that a CHECK renews, come before it. A group without
    /// a record writes nothing. `UidsUsedUp` and `TooLong` come exactly where the command meets
    /// that limit first (RFC 5530, LIMIT), and `NoMemory` before anything is written. `Disk` comes
    /// only where the shelf's count of faults rose: where it doesn't, the answer is one of the
    /// others, whatever was owed. After `Disk` the mailbox is as before, and what is owed is
    /// repaired by the next write. The clock is read once where the log is rotated, and then once
    /// for the message of an APPEND. Message files are read by rising UID, once each: of messages
    /// that are removed, for their GUIDs, and for a CHECK of the rows that the cache file lacks.
    pub fn commit_command(&mut self, c: &Command, view: &View) -> Result<Receipt, StoreFault>
        requires command { IsCommand c.now }
        requires few { HasFewKeywords c.now }
        // The limits, the receipt and its text, and the mailbox, over any shelf.
        ensures value { Commits c.now view.now self.old self.new result }
        // Where a limit is met or there is no record, neither shelf nor clock is called.
        ensures idle { IsIdle result →
            (self.new.shelf ≡ self.old.shelf) × (self.new.clock ≡ self.old.clock) }
        // Nor is anything written without memory.
        ensures looks { S.sees.tells → IsUnwritten result →
            OnlyLooks S.sees self.old.shelf self.new.shelf }
        // What the folder gives, at any moment and afterwards; from rest to rest.
        ensures gives { S.sees.tells → AtReading C.sees.tells
            (received_at (turns self.old.owed self.old.chain) (C.sees.upcoming self.old.clock))
            (λ received. (log : Log) (debt : Debt) (author : ℕ) →
            IsAtRest S.sees log debt self.old →
            CommitsQuietly S.sees log debt (write_at author c.now view.now received)
            self.old self.new result) }
        ensures settled { S.sees.tells →
            StaysSettled S.sees self.old.shelf self.new.shelf }
        // The readings of the clock, of which the first is that of a log that is rotated; the
        // message files that are read.
        ensures clock { C.sees.tells →
            TakesReadings (readings_of c.now self.old.owed self.old.chain)
            (C.sees.upcoming self.old.clock) (C.sees.upcoming self.new.clock) result
            × (S.sees.tells → turns self.old.owed self.old.chain ≡ true →
            Rotates (C.sees.upcoming self.old.clock 0) self.old self.new
            (S.sees.files self.new.shelf)) }
        ensures mail_reads { ReadsFor S.sees c.now self.old.chain
            (changed_uids c.now view.now self.old.chain.live.mailbox)
            self.old.shelf self.new.shelf (λ n before now. CountsMails n before now result) }
        // A fault of the disk comes only where the count of faults rose.
        ensures cause { HasStoreCause (S.sees.fault_count self.old.shelf)
            (S.sees.fault_count self.new.shelf) result }
    {
        forget(c, &mut self.cache);
        let uid = appended_uid(c, &self.chain.live);
        match make_ready(
            self.alloc,
            c,
            view,
            &mut self.chain,
            &self.owed,
            &mut self.shelf,
            &mut self.clock,
        ) {
            Ok(Some(plan)) => write_plan(
                &mut self.chain,
                &mut self.shelf,
                &mut self.owed,
                &mut self.mark,
                plan,
                uid,
            ),
            Ok(None) => Ok(idle(self.alloc, self.mark, uid)),
            Err(e) => Err(e),
        }
    }
}
