ghost use Rattle.std.specs.Prelude.{◌≡◌, ℕ, ◌-◌, ◌^◌, ◌<◌, ◌≤◌, All, IfOk, OnOk, OnErr, Ok, Err, Some, None, fold, length, max};
ghost use Rattle.dv_model.specs.declared.types.Body.TheVariants.{Append};
ghost use Rattle.dv_model.specs.Effects.{with_row};
ghost use Rattle.dv_model.specs.Mailboxes.{IsValid};
ghost use Rattle.dv_apply.specs.Answers.{OnBadAppend};
ghost use Rattle.dv_apply.specs.Bodies.{Refused, first_refused, next_after};
ghost use Rattle.dv_apply.specs.States.{Becomes, HasSpare, IsKept, kept_of, mailbox_of};
ghost use Rattle.dv_apply.specs.declared.fault.ApplyFault.TheVariants as fault;

use crate::blanks::fill;
use crate::changes::higher;
use crate::fault::ApplyFault;
use crate::state::State;
use dv_model::{NewRow, NoMemory};

/// Tests that each row has a UID that wasn't given out before, and answers the UIDNEXT behind them.
pub fn test_rows(rows: &[NewRow], next_uid: u32) -> Result<u32, ApplyFault>
    requires { All (λ row. row.uid < 2 ^ 32 - 1) rows.now }
    ensures ok { OnOk result (first_refused next_uid rows.now ≡ None) }
    ensures next { IfOk result (λ next. next ≡ next_after next_uid rows.now) }
    ensures bad { OnBadAppend result (λ refused. first_refused next_uid rows.now ≡ Some refused) }
    ensures refused { (refused : Refused) → first_refused next_uid rows.now ≡ Some refused →
        result ≡ Err (fault.BadAppend refused.uid refused.next_uid) }
    ensures memory { result ≡ Err fault.NoMemory → ⊥ }
{
    let mut next = next_uid;
    for row in rows {
        if row.uid < next {
            return Err(ApplyFault::BadAppend {
                uid: row.uid,
                next_uid: next,
            });
        }
        next = row.uid + 1;
    }
    Ok(next)
}

/// Makes room for so many rows more, with their zero bytes.
pub fn prepare(state: &mut State, n: usize) -> Result<(), NoMemory>
    requires { IsKept state.old }
    ensures kept { IsKept state.new }
    ensures is { kept_of state.new ≡ kept_of state.old }
    ensures names { state.new.names ≡ state.old.names }
    ensures ok { OnOk result (HasSpare n state.new) }
    ensures succeeds { n ≤ state.old.spare → result ≡ Ok tt }
{
    if n <= state.spare as usize {
        return Ok(());
    }
    if n > u32::MAX as usize {
        return Err(NoMemory);
    }
    let list = state.extensions.list().as_slice();
    fill(state.alloc, &mut state.blanks, list, n)?;
    state.rows.reserve(n as u32)?;
    Ok(())
}

/// Makes the number of spare rows at least this. After `NoMemory` the mailbox and the number are as
/// before.
pub fn reserve(state: &mut State, n: u32) -> Result<(), NoMemory>
    requires { IsKept state.old }
    ensures kept { IsKept state.new }
    ensures is { mailbox_of state.new ≡ mailbox_of state.old }
    ensures names { state.new.names ≡ state.old.names }
    ensures ok { OnOk result (state.new.spare ≡ max n state.old.spare) }
    ensures err { OnErr result (state.new.spare ≡ state.old.spare) }
    ensures succeeds { n ≤ state.old.spare → result ≡ Ok tt }
{
    if n <= state.spare {
        return Ok(());
    }
    prepare(state, n as usize)?;
    state.spare = n;
    Ok(())
}

// Adds a row, for which there is room.
fn add(state: &mut State, row: &NewRow)
    requires valid { IsValid (mailbox_of state.old) }
    requires new { state.old.next_uid ≤ row.now.uid }
    requires below { row.now.uid < 2 ^ 32 - 1 }
    requires spare { HasSpare 1 state.old }
    ensures is { mailbox_of state.new ≡ with_row (mailbox_of state.old) row.now }
    ensures valid { IsValid (mailbox_of state.new) }
    ensures spare { (n : ℕ) → HasSpare n state.old → HasSpare (n - 1) state.new }
    ensures same { state.new.spare ≡ state.old.spare }
{
    let Some(parts) = state.blanks.pop() else {
        return;
    };
    state
        .rows
        .append(row.uid, row.flags, parts, state.highest)
        .unwrap();
    state.next_uid = row.uid + 1;
}

// Adds the rows, for which there is room.
fn add_all(state: &mut State, rows: &[NewRow])
    requires valid { IsValid (mailbox_of state.old) }
    requires new { first_refused state.old.next_uid rows.now ≡ None }
    requires below { All (λ row. row.uid < 2 ^ 32 - 1) rows.now }
    requires spare { HasSpare (length rows.now) state.old }
    ensures is { mailbox_of state.new ≡ fold with_row (mailbox_of state.old) rows.now }
    ensures spare { (n : ℕ) → HasSpare n state.old → HasSpare (n - length rows.now) state.new }
    ensures same { state.new.spare ≡ state.old.spare }
{
    for row in rows {
        add(state, row);
    }
}

// The spare rows that are left of these.
fn left(spare: u32, n: usize) -> u32
    ensures { result ≡ spare - n }
{
    if n < spare as usize {
        spare - n as u32
    } else {
        0
    }
}

/// Adds messages (Dovecot's append record), or none of them. It takes memory only where there are
/// fewer spare rows.
pub fn append(state: &mut State, rows: &[NewRow]) -> Result<(), ApplyFault>
    requires kept { IsKept state.old }
    requires below { All (λ row. row.uid < 2 ^ 32 - 1) rows.now }
    ensures ok { OnOk result (Becomes state.old (Append rows.now) state.new) }
    ensures bad { OnBadAppend result (λ refused. first_refused state.old.next_uid rows.now
        ≡ Some refused) }
    ensures refused { (refused : Refused) →
        first_refused state.old.next_uid rows.now ≡ Some refused →
        result ≡ Err (fault.BadAppend refused.uid refused.next_uid) }
    ensures err { OnErr result (kept_of state.new ≡ kept_of state.old) }
    ensures kept { OnErr result (IsKept state.new) }
    ensures memory { length rows.now ≤ state.old.spare → result ≡ Err fault.NoMemory → ⊥ }
{
    test_rows(rows, state.next_uid)?;
    prepare(state, rows.len())?;
    state.highest = higher(state.highest);
    add_all(state, rows);
    state.spare = left(state.spare, rows.len());
    Ok(())
}
