ghost use Rattle.std.specs.Prelude.{◌≡◌, ◌+◌, ◌^◌, ◌<◌, ◌≤◌, List, ℕ, length, IsOk};
ghost use Rattle.dv_shelf.specs.Causes.{HasCause};
ghost use Rattle.dv_logfile.specs.Layout.{IsGroupText, last_end, longest_log};
ghost use Rattle.dv_logfile.specs.Gates.{HasDiskCause};
ghost use Rattle.dv_logfile.specs.Reading.{IsAtRest};
ghost use Rattle.dv_logfile.specs.Commits.{WritesSynced};
ghost use Rattle.dv_logfile.specs.Settling.{StaysSettled};

use crate::counting::{CLOSING, record_count};
use dv_model::{Bytes, Mark};
use dv_shelf::{Failed, Name, Shelf};

/// What a failed commit leaves to be done.
#[derive(Clone, Copy, PartialEq, Eq, Debug)]
pub enum Debt {
    /// Nothing: the group isn't there.
    None,
    /// The gate was written, so a crash may leave the group or not.
    Gate,
}

/// Why a commit failed.
#[derive(Clone, Copy, PartialEq, Eq, Debug)]
pub enum CommitFault {
    /// The disk failed, so often until now.
    Disk(u64),
}

/// The log file that is written to.
#[derive(Drop)]
pub struct LogFile {
    /// The file's number, as its header has it.
    pub file_seq: u32,
    /// Where the next record will stand, in bytes from the file's start.
    pub end: u32,
    /// The number of records in the file.
    pub count: u32,
    pub debt: Debt,
}

/// The first byte of a record's size, which makes what stands behind it a record.
const OPEN_GATE: u8 = 0x80;

/// A byte that begins no record.
const SHUT_GATE: u8 = 0;

impl LogFile {
    ghost use Rattle.dv_logfile.specs.Commits.{AdvancesLog, WritesGroup, LeavesGroup, ReadsGroup};
    ghost use Rattle.dv_logfile.specs.Commits.{SettlesDebt, ShutsGate, ReadsHealed};

    /// Adds a group of records to the log: writes and syncs all of the text but its first byte,
    /// then that byte. Takes no memory. After `Disk` the log is as before, or a debt is owed.
    pub fn commit<S: Shelf>(&mut self, shelf: &mut S, text: &Bytes) -> Result<Mark, CommitFault>
        requires group { IsGroupText text.now }
        requires debt { self.old.debt ≡ Debt.None }
        requires room { self.old.end + length text.now ≤ longest_log }

        // The mark, the end, the count and the debt; what an error keeps.
        ensures value { AdvancesLog text.now self.old self.new result }

        // The files as reads give them: the text stands at the old end, or a failure left what
        // the debt says.
        ensures bytes { S.sees.tells →
            WritesGroup text.now self.old self.new result (S.sees.files shelf.old)
            (S.sees.files shelf.new) }

        // The bytes that a crash leaves, at any moment and afterwards.
        ensures crash { S.sees.tells → LeavesGroup S.sees
            text.now self.old self.new result shelf.old shelf.new }

        // What is read of the log that a crash leaves; from rest to rest.
        ensures reading { S.sees.tells →
            IsAtRest Debt.None self.old.end text.now (S.sees.may_leave shelf.old) →
            ReadsGroup S.sees
            text.now self.old self.new result shelf.old shelf.new }
        ensures settled { S.sees.tells → StaysSettled S.sees shelf.old shelf.new }

        // No message file is read; a fault of the disk has its cause.
        ensures mail_reads { S.sees.mail_reads shelf.new ≡ S.sees.mail_reads shelf.old }
        ensures cause { HasDiskCause (S.sees.fault_count shelf.old) (S.sees.fault_count shelf.new)
            result }
    {
        let text = text.as_slice();
        let (_, behind) = text.split_at(1);
        let gate = self.end;
        match write_synced(shelf, gate + 1, behind) {
            Ok(()) => (),
            Err(_) => return Err(CommitFault::Disk(shelf.faults())),
        }
        self.debt = Debt::Gate;
        match write_synced(shelf, gate, &[OPEN_GATE]) {
            Ok(()) => (),
            Err(_) => return Err(CommitFault::Disk(shelf.faults())),
        }
        self.debt = Debt::None;
        self.end += (text.len() - CLOSING) as u32;
        self.count = self.count.saturating_add(record_count(text));
        Ok(Mark {
            file_seq: self.file_seq,
            offset: self.end,
        })
    }

    /// Takes back a group that a failed commit may have left: writes a zero byte in its place and
    /// syncs it. Takes no memory. After `Failed` the debt is as before.
    pub fn heal<S: Shelf>(&mut self, shelf: &mut S) -> Result<(), Failed>
        requires { self.old.end ≤ last_end }

        // The debt, and what stays. Where nothing is owed nothing is done.
        ensures value { SettlesDebt self.old self.new result }
        ensures nothing { self.old.debt ≡ Debt.None → IsOk result × (shelf.new ≡ shelf.old) }

        // The files as reads give them.
        ensures bytes { S.sees.tells →
            ShutsGate self.old result (S.sees.files shelf.old) (S.sees.files shelf.new) }

        // What a crash leaves, at any moment and afterwards; from rest to rest.
        ensures reading { (text : List ℕ) → IsGroupText text → S.sees.tells →
            IsAtRest self.old.debt self.old.end text (S.sees.may_leave shelf.old) →
            ReadsHealed S.sees
            text self.old self.new result shelf.old shelf.new }
        ensures settled { S.sees.tells → StaysSettled S.sees shelf.old shelf.new }

        // No message file is read; a fault of the disk has its cause.
        ensures mail_reads { S.sees.mail_reads shelf.new ≡ S.sees.mail_reads shelf.old }
        ensures cause { HasCause (S.sees.fault_count shelf.old) (S.sees.fault_count shelf.new)
            result }
    {
        match self.debt {
            Debt::None => Ok(()),
            Debt::Gate => {
                write_synced(shelf, self.end, &[SHUT_GATE])?;
                self.debt = Debt::None;
                Ok(())
            }
        }
    }
}

/// Writes bytes into the log and syncs it.
fn write_synced<S: Shelf>(shelf: &mut S, at: u32, bytes: &[u8]) -> Result<(), Failed>
    requires { at + length bytes.now < 2 ^ 32 }

    ensures writes { S.sees.tells → WritesSynced S.sees
        at bytes.now result shelf.old shelf.new }
    ensures mail_reads { S.sees.mail_reads shelf.new ≡ S.sees.mail_reads shelf.old }
    ensures cause { HasCause (S.sees.fault_count shelf.old) (S.sees.fault_count shelf.new) result }
{
    shelf.write_at(Name::Log, at, bytes)?;
    shelf.sync(Name::Log)
}
