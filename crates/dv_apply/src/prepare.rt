ghost use Rattle.std.specs.Prelude.{◌≡◌, ◌↔◌, ◌⊎◌, ℕ, ◌<◌, ◌≤◌, ◌^◌, ⊤, All, Contains, IfOk, IsSomeAnd, OnErr, OnOk, Err, Some, count_by, length, max, nat_le, true};
ghost use Rattle.std.specs.List.Sorted.{IsStrictlyIncreasing};
ghost use Rattle.dv_model.specs.declared.types.Mailbox.{Mailbox};
ghost use Rattle.dv_model.specs.Effects.{applied};
ghost use Rattle.dv_model.specs.Spelling.{IsRecord};
ghost use Rattle.dv_rows.specs.Parted.{HasUid};
ghost use Rattle.dv_touched.specs.Telling.{Differs};
ghost use Rattle.dv_apply.specs.Answers.{OnBadAppend};
ghost use Rattle.dv_apply.specs.Bodies.{Refused};
ghost use Rattle.dv_apply.specs.Preparing.{AppliesLight, AreChangeable, AreLight, IsRefused, Makes, PutsShare, appended_by, part_of};
ghost use Rattle.dv_apply.specs.States.{IsKept, held_of, kept_of, mailbox_of};
ghost use Rattle.dv_apply.specs.declared.fault.ApplyFault.TheVariants as fault;

use crate::apart::apply_apart;
use crate::appends::reserve;
use crate::fault::ApplyFault;
use crate::light::{are_light, copies, touched_by};
use crate::refusals::test_records;
use crate::share::{Light, Made, Way};
use crate::state::State;
use dv_model::{NoMemory, Record, Row};
use dv_portion::named_rows;
use dv_rows::{Rows, sort_uids};
use dv_touched::Touched;
use std::alloc::Global;

// How many of these rows have UIDs from the bound on.
fn count_from(rows: &[Row], bound: u32) -> u32
    requires { length rows.now < 2 ^ 32 }
    ensures { result ≡ count_by (λ row. nat_le bound row.uid) rows.now }
{
    rows.iter().filter(|row| bound <= row.uid).count() as u32
}

// How many rows are new.
fn count_new(rows: &Rows, bound: u32) -> u32
    ensures { result ≡ count_by (λ row. nat_le bound row.uid) rows.now.rows }
{
    if rows.count() == 0 {
        return 0;
    }
    count_from(rows.as_slice(), bound)
}

// Whether a UID is found among rising ones, by halves.
fn is_found(uids: &[u32], uid: u32) -> bool
    ensures { result ≡ true → Contains uids.now uid }
{
    uids.binary_search(&uid).is_ok()
}

// The UIDs of the rows but for such as are found among these, rising.
fn other_uids(alloc: Global, uids: &[u32], rows: &[Row]) -> Result<Vec<u32>, NoMemory>
    ensures rising { IfOk result (λ others. IsStrictlyIncreasing others.items) }
    ensures of_rows { IfOk result (λ others. (uid : ℕ) →
        Contains others.items uid → HasUid rows.now uid) }
    ensures all { IfOk result (λ others. (uid : ℕ) →
        HasUid rows.now uid → (Contains uids.now uid ⊎ Contains others.items uid)) }
{
    let mut others = Vec::new(alloc);
    for row in rows {
        if !is_found(uids, row.uid) {
            others.push(row.uid)?;
        }
    }
    sort_uids(&mut others);
    Ok(others)
}

// Those of these UIDs, and of the rows behind, of which another row is shown than before.
fn find_touched(
    alloc: Global,
    uids: &[u32],
    before: &Rows,
    behind: &Rows,
) -> Result<Touched, NoMemory>
    requires { IsStrictlyIncreasing uids.now }
    ensures { IfOk result (λ touched. (uid : ℕ) →
        Contains touched uid
        ↔ ((Contains uids.now uid ⊎ HasUid behind.now.rows uid)
        × Differs before.now.rows behind.now.rows uid)) }
{
    let touched = Touched::between(alloc, uids, before, behind)?;
    let others = other_uids(alloc, uids, behind.as_slice())?;
    let more = Touched::between(alloc, &others, before, behind)?;
    touched.with(alloc, &more)
}

// Takes the memory that records need, in a share of the rows with these UIDs.
fn make_share(state: &mut State, uids: Vec<u32>, records: &[Record]) -> Result<Made, ApplyFault>
    requires kept { IsKept state.old }
    requires records { All IsRecord records.now }
    requires uids { AreChangeable (mailbox_of state.old) records.now uids.items }
    ensures kept { IsKept state.new }
    ensures mailbox { mailbox_of state.new ≡ mailbox_of state.old }
    ensures ok { IfOk result (λ made. IsSomeAnd (applied (mailbox_of state.old) records.now)
        (PutsShare (held_of state.new) (part_of made))) }
    ensures bad { OnBadAppend result (IsRefused (mailbox_of state.old) records.now) }
    ensures spare { IfOk result (λ made. state.new.spare ≡ max made.appended state.old.spare) }
    ensures err { OnErr result (state.new.spare ≡ state.old.spare) }
{
    let share = match apply_apart(state, &uids, records) {
        Ok(share) => share,
        Err(e) => return Err(e),
    };
    let touched = find_touched(state.alloc, &uids, &state.rows, &share.rows)?;
    let appended = count_new(&share.rows, state.next_uid);
    reserve(state, appended)?;
    Ok(Made {
        uids,
        share,
        appended,
        touched,
    })
}

// Keeps records that take no memory, with the UIDs that they touch.
fn make_light(state: &mut State, uids: Vec<u32>, records: &[Record]) -> Result<Light, ApplyFault>
    requires kept { IsKept state.old }
    requires records { All IsRecord records.now }
    requires uids { AreChangeable (mailbox_of state.old) records.now uids.items }
    requires light { AreLight state.old.extensions.extensions records.now }
    ensures kept { IsKept state.new }
    ensures is { kept_of state.new ≡ kept_of state.old }
    ensures ok { IfOk result (λ light. (after : Mailbox) →
        applied (mailbox_of state.old) records.now ≡ Some after →
        AppliesLight (held_of state.new) light after) }
    ensures bad { OnBadAppend result (IsRefused (mailbox_of state.old) records.now) }
{
    let touched = match touched_by(state, &uids, records) {
        Ok(touched) => touched,
        Err(e) => return Err(e),
    };
    let records = copies(state.alloc, records)?;
    Ok(Light { records, touched })
}

// Takes the memory that records need. What is shown of the mailbox stays as it is.
fn make_ready(state: &mut State, records: &[Record]) -> Result<Way, ApplyFault>
    requires kept { IsKept state.old }
    requires records { All IsRecord records.now }
    requires applies { IsSomeAnd (applied (mailbox_of state.old) records.now) (λ n. ⊤) }
    ensures kept { IsKept state.new }
    ensures mailbox { mailbox_of state.new ≡ mailbox_of state.old }
    ensures ok { IfOk result (λ made. IsSomeAnd (applied (mailbox_of state.old) records.now)
        (Makes (held_of state.new) made)) }
    ensures bad { OnBadAppend result (IsRefused (mailbox_of state.old) records.now) }
    ensures spare { IfOk result (λ made.
        state.new.spare ≡ max (appended_by made) state.old.spare) }
    ensures err { OnErr result (state.new.spare ≡ state.old.spare) }
{
    let mut uids = named_rows(state.alloc, &state.rows, &state.extensions, records)?;
    sort_uids(&mut uids);
    uids.shrink_to_fit();
    if are_light(&state.extensions, records) {
        return match make_light(state, uids, records) {
            Ok(light) => Ok(Way::Records(light)),
            Err(e) => Err(e),
        };
    }
    match make_share(state, uids, records) {
        Ok(made) => Ok(Way::Share(made)),
        Err(e) => Err(e),
    }
}

/// Takes the memory that records need, unless one of them is refused. What is shown of the mailbox
/// stays as it is.
pub fn prepare(state: &mut State, records: &[Record]) -> Result<Way, ApplyFault>
    requires kept { IsKept state.old }
    requires records { All IsRecord records.now }
    ensures kept { IsKept state.new }
    ensures mailbox { mailbox_of state.new ≡ mailbox_of state.old }
    ensures ok { IfOk result (λ made. IsSomeAnd (applied (mailbox_of state.old) records.now)
        (Makes (held_of state.new) made)) }
    ensures bad { OnBadAppend result (IsRefused (mailbox_of state.old) records.now) }
    ensures refused { (refused : Refused) →
        IsRefused (mailbox_of state.old) records.now refused →
        result ≡ Err (fault.BadAppend refused.uid refused.next_uid) }
    ensures spare { IfOk result (λ made.
        state.new.spare ≡ max (appended_by made) state.old.spare) }
    ensures err { OnErr result (state.new.spare ≡ state.old.spare) }
{
    match test_records(records, state.next_uid) {
        Ok(()) => make_ready(state, records),
        Err(e) => Err(e),
    }
}
