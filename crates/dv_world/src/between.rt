ghost use Rattle.std.specs.Prelude.{◌≡◌, ◌+◌, ◌++◌, ℕ, All, IfOk, IsSomeAnd, OnOk, Some, flat_map, length};
ghost use Rattle.dv_model.specs.declared.types.Mailbox.{Mailbox};
ghost use Rattle.dv_model.specs.Journals.{IsSound, Log, at};
ghost use Rattle.dv_model.specs.Effects.{applied};
ghost use Rattle.dv_model.specs.Spelling.{IsRecord};
ghost use Rattle.dv_apply.specs.Preparing.{Makes};
ghost use Rattle.dv_answer.specs.Following.{Leads};
ghost use Rattle.dv_world.specs.Keeping.{AreLogged};

use crate::kept::Logged;
use dv_apply::{Live, Prepared};
use dv_model::{NoMemory, Record};
use dv_touched::Touched;
use std::alloc::Global;

// Adds copies of these records.
fn add_copies(alloc: Global, more: &[Record], records: &mut Vec<Record>) -> Result<(), NoMemory>
    ensures { OnOk result (records.new.items ≡ records.old.items ++ more.now) }
{
    for r in more {
        records.push(r.copy(alloc)?)?;
    }
    Ok(())
}

/// The records of these entries in turn.
pub fn records_of(alloc: Global, logged: &[Logged]) -> Result<Vec<Record>, NoMemory>
    ensures { IfOk result (λ records. records.items
        ≡ flat_map (λ l. l.entry.group.records) logged.now) }
{
    let mut records = Vec::new(alloc);
    for one in logged {
        add_copies(alloc, one.entry.group.records.as_slice(), &mut records)?;
    }
    Ok(records)
}

/// Takes all the memory that these records need, which are those of entries. After `NoMemory`,
/// which is the only error, the mailbox is as before.
pub fn ready(live: &mut Live, records: &[Record]) -> Result<Prepared, NoMemory>
    requires { All IsRecord records.now }
    ensures mailbox { live.new.mailbox ≡ live.old.mailbox }
    ensures ok { IfOk result (λ prepared.
        IsSomeAnd (applied live.old.mailbox records.now) (Makes live.new prepared)) }
{
    match live.prepare(records) {
        Ok(prepared) => Ok(prepared),
        // An entry's records aren't refused.
        Err(_) => Err(NoMemory),
    }
}

/// The UIDs of which a session is to be told for these entries.
pub fn touched_by(alloc: Global, logged: &[Logged]) -> Result<Touched, NoMemory>
    ensures { (log : Log) (from : ℕ) (old new : Mailbox) → IsSound log
        → AreLogged log from logged.now → at log from ≡ Some old
        → at log (from + length logged.now) ≡ Some new → IfOk result (Leads old new) }
{
    let mut touched = Touched::empty(alloc);
    for one in logged {
        touched = touched.with(alloc, &one.touched)?;
    }
    Ok(touched)
}
